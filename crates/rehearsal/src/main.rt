// The rehearsal program (01, "Play"): reads a list from standard input and writes what `rehearsal_output` makes of it. Where reading or
// writing fails it says so on standard error.
#![tactic(auto)]

ghost use Rattle.std.specs.Prelude.{◌≡◌, ◌≤◌, IfOk, length};
ghost use Rattle.rehearsal_output.specs.Output.{ENOUGH};

use play_events::LONGEST_LIST;
use std::io;
use std::io::Read;

// Reads to the end of the input, or until `list` is full, and answers how many bytes; it has room for as much as tells what is printed (`enough_read`).
// Where reading fails, `list` is as long as it was, and holds what was read.
fn read_input(input: &mut impl Read, list: &mut [u8]) -> io::Result<usize>
    requires { ENOUGH ≤ length list.old }
    ensures read { IfOk result (λ count. count ≤ length list.new) }
    ensures kept { length list.new ≡ length list.old }
{
    input::read_full(input, list)
}

// One byte more than the longest list has, so that a longer input is refused.
const ROOM_FOR_LIST: usize = LONGEST_LIST + 1;

// Says on standard error what failed. Where that can't be written either, there is nobody to tell.
fn fail(rt: &impl Eprint, what: &str, error: io::Error) {
    let _ = eprintln!(rt; "rehearsal: can't {what}: {error}");
}

fn main(rt: HostRuntime) {
    let mut list = [0u8; ROOM_FOR_LIST];
    let count = match read_input(&mut rt.stdin(), &mut list) {
        Ok(count) => count,
        Err(error) => {
            fail(&rt, "read standard input", error);
            return;
        }
    };
    let mut out = [0u8; rehearsal_output::ROOM_FOR_OUTPUT];
    let n = rehearsal_output::rehearse(&list[0..count], &mut out);
    if let Err(error) = rt.write_all(&out[0..n]) {
        fail(&rt, "write standard output", error);
    }
}
