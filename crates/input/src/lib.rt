// The input of a program, read into lent bytes.
#![tactic(auto)]

ghost use Rattle.std.specs.Prelude.{◌≡◌, ◌≤◌, IfOk, length};

use std::io;
use std::io::Read;

// Reads until `buf` is full or the input ends, and answers how many bytes. Where reading fails, `buf` is as long as it was, and holds what was read.
pub fn read_full(input: &mut impl Read, buf: &mut [u8]) -> io::Result<usize>
    ensures read { IfOk result (λ count. count ≤ length buf.new) }
    ensures kept { length buf.new ≡ length buf.old }
{
    // No `for`: a reading gives as many bytes as it has.
    let mut at = 0;
    while at < buf.len() {
        let more = input.read(&mut buf[at..])?;
        if more == 0 {
            break;
        }
        at += more;
    }
    Ok(at)
}
