// Runs the tree's calls as standard input has them: 01's cases P1 to P11, paths, tables that are none, a list that fills 256 rows, calls of command
// trees, and previews. f(words) is fresh on the first so many words, which then are the table; a(round,value,parent) is add, c(round) is commit,
// p(round,words) is path into so many words, v(round,value,parent) is preview in a second table of sevens, as long as the table, or of so many words
// as s(words) says behind the last f; A, C, P and V are those of a command tree; w(word,value) writes a word of the table. All that is read is
// written again: behind each call its number (of an add also how many rounds it made GHOST, of a path how many rounds, and the slice, of a preview
// how many rounds would be made GHOST, and the second table), behind each line each node's round, parent, value and status.
#![tactic(auto)]

ghost use Rattle.std.specs.Prelude.{◌≡◌, ◌+◌, ◌*◌, ◌≤◌, IfOk, length};

use ids::Round;
use numbers::{Refusal, number_of};
use std::io;
use std::io::Read;

fn number(rt: &impl Print, n: u64) -> io::Result<()> {
    print!(rt; " {n}")
}

fn numbers(rt: &impl Print, s: &[u64]) -> io::Result<()> {
    for n in s {
        number(rt, *n)?;
    }
    Ok(())
}

// Writes row i.
fn node(rt: &impl Print, t: &[u64], i: usize) -> io::Result<()>
    requires { 4 * i + 4 ≤ length t.now }
{
    print!(rt; " |")?;
    number(rt, tree_table::round_at(t, i))?;
    number(rt, tree_table::parent_at(t, i))?;
    number(rt, tree_table::value_at(t, i))?;
    number(rt, tree_table::status_at(t, i))
}

// The used rows lie within the table.
#[tactic(auto, using(tree_theory::proofs::Words::used_rows))]
fn nodes(rt: &impl Print, t: &[u64]) -> io::Result<()> {
    for i in 0..tree_table::used_rows(t) {
        node(rt, t, i)?;
    }
    Ok(())
}

fn fresh(rt: &impl Print, t: &mut [u64]) -> io::Result<()> {
    number(rt, number_of(tree::fresh(t)) as u64)
}

// Writes the number of an answer, and how many rounds it counts: those made GHOST, or those of a path.
fn answer(rt: &impl Print, a: Result<u64, Refusal>) -> io::Result<()> {
    number(rt, number_of(a) as u64)?;
    number(rt, a.unwrap_or(0))
}

fn add<const VALUED: bool>(
    rt: &impl Print,
    t: &mut [u64],
    r: u32,
    v: u32,
    p: u32,
) -> io::Result<()> {
    let a = tree::add::<VALUED>(t, Round(r), v as u64, Round(p));
    answer(rt, a.map(u64::from))
}

fn commit<const VALUED: bool>(rt: &impl Print, t: &mut [u64], r: u32) -> io::Result<()> {
    number(rt, number_of(tree::commit::<VALUED>(t, Round(r))) as u64)
}

// Makes a path into so many words, and writes them behind its answer.
fn path<const VALUED: bool>(rt: &impl Print, t: &[u64], r: u32, words: usize) -> io::Result<()> {
    let mut out = [0u64; 256];
    if 256 < words {
        return Ok(());
    }
    let a = tree::path::<VALUED>(t, Round(r), &mut out[0..words]);
    answer(rt, a.map(|count| count as u64))?;
    numbers(rt, &out[0..words])
}

// Makes a preview in so many words, and writes them behind its answer.
fn preview<const VALUED: bool>(
    rt: &impl Print,
    t: &[u64],
    words: usize,
    r: u32,
    v: u32,
    p: u32,
) -> io::Result<()> {
    let mut second = [7u64; 1024];
    if 1024 < words {
        return Ok(());
    }
    let a = tree::preview::<VALUED>(t, &mut second[0..words], Round(r), v as u64, Round(p));
    answer(rt, a.map(u64::from))?;
    numbers(rt, &second[0..words])
}

fn put(t: &mut [u64], word: usize, x: u32) {
    if word < t.len() {
        t[word] = x as u64;
    }
}

// Makes the call of that name, a preview in so many words; a call with fewer than three arguments has them last.
fn make(
    rt: &impl Print,
    t: &mut [u64],
    second: usize,
    name: u8,
    a: u32,
    b: u32,
    c: u32,
) -> io::Result<()> {
    match name {
        b'f' => fresh(rt, t),
        b'a' => add::<true>(rt, t, a, b, c),
        b'A' => add::<false>(rt, t, a, b, c),
        b'c' => commit::<true>(rt, t, c),
        b'C' => commit::<false>(rt, t, c),
        b'p' => path::<true>(rt, t, b, c as usize),
        b'P' => path::<false>(rt, t, b, c as usize),
        b'v' => preview::<true>(rt, t, second, a, b, c),
        b'V' => preview::<false>(rt, t, second, a, b, c),
        b'w' => {
            put(t, b as usize, c);
            Ok(())
        }
        _ => Ok(()),
    }
}

// What was read: the lengths of the table and of the second, the name of a call, and its last three arguments.
#[derive(Clone, Copy)]
struct Input {
    words: usize,
    second: usize,
    name: u8,
    a: u32,
    b: u32,
    c: u32,
}

impl Input {
    // A digit goes to the last argument, a comma begins another, and a bracket the first; any other byte is a name.
    fn read(self, x: u8) -> Input {
        let mut s = self;
        match x {
            b',' => {
                s.a = self.b;
                s.b = self.c;
                s.c = 0;
            }
            b'(' => {
                s.a = 0;
                s.b = 0;
                s.c = 0;
            }
            b'0'..=b'9' => {
                if self.c <= 100000000 {
                    s.c = 10 * self.c + (x - b'0') as u32;
                }
            }
            _ => s.name = x,
        }
        s
    }

    // Makes the call that was read.
    fn call(self, rt: &impl Print, t: &mut [u64]) -> io::Result<Input> {
        let mut s = self;
        if self.name == b's' {
            s.second = self.c as usize;
            return Ok(s);
        }
        if self.name == b'f' {
            s.words = self.c as usize;
            s.second = self.c as usize;
        }
        let words = s.words;
        if words <= t.len() {
            make(
                rt,
                &mut t[0..words],
                s.second,
                self.name,
                self.a,
                self.b,
                self.c,
            )?;
        }
        Ok(s)
    }

    // Writes the nodes of the table.
    fn show(self, rt: &impl Print, t: &[u64]) -> io::Result<()> {
        let words = self.words;
        if words <= t.len() {
            nodes(rt, &t[0..words])?;
        }
        Ok(())
    }

    fn next(self, rt: &impl Print, t: &mut [u64], x: u8) -> io::Result<Input> {
        if x == b'\n' {
            self.show(rt, t)?;
        }
        let byte = [x];
        rt.write_all(&byte)?;
        if x == b')' {
            return self.call(rt, t);
        }
        Ok(self.read(x))
    }
}

fn run(rt: &impl Print, t: &mut [u64], text: &[u8]) -> io::Result<()> {
    let mut s = Input {
        words: 0,
        second: 0,
        name: 0,
        a: 0,
        b: 0,
        c: 0,
    };
    for x in text {
        s = s.next(rt, t, *x)?;
    }
    Ok(())
}

fn main(rt: HostRuntime) -> io::Result<()> {
    let mut t = [0u64; 1024];
    let mut text = [0u8; 8192];
    let n = input::read_full(&mut rt.stdin(), &mut text)?;
    run(&rt, &mut t, &text[..n])
}
