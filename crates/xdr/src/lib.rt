// XDR words (RFC 4506): unsigned integers of 4 bytes and unsigned hypers of 8, high byte first, at a place of a slice.
#![tactic(auto)]

ghost use Rattle.std.specs.Prelude.{◌≡◌, ◌++◌, ◌+◌, ◌≤◌, ◌<◌, length, take, drop};
ghost use Rattle.xdr.specs.Words.{word, hyper, word_at, hyper_at};

// The unsigned integer at a place.
#[tactic(auto, using(crate::proofs::Laws::word_bytes))]
pub fn word_at(s: &[u8], at: usize) -> u32
    requires { at + 4 ≤ length s.now }
    ensures { result ≡ word_at s.now at }
{
    u32::from_be_bytes([s[at], s[at + 1], s[at + 2], s[at + 3]])
}

// The unsigned hyper at a place: its high word, then its low word.
#[tactic(auto, using(crate::proofs::Laws::hyper_at_words))]
pub fn hyper_at(s: &[u8], at: usize) -> u64
    requires { at + 8 ≤ length s.now }
    ensures { result ≡ hyper_at s.now at }
{
    let high = u64::from(word_at(s, at));
    let low = u64::from(word_at(s, at + 4));
    high * 4294967296 + low
}

// Writes an unsigned integer at a place, and nothing beside it.
#[tactic(auto, using(crate::proofs::Laws::word_stored))]
pub fn set_word(buf: &mut [u8], at: usize, x: u32)
    requires { at + 4 ≤ length buf.old }
    ensures { buf.new ≡ take at buf.old ++ word x ++ drop (at + 4) buf.old }
{
    buf[at..at + 4].copy_from_slice(&x.to_be_bytes());
}

// Writes an unsigned hyper at a place, and nothing beside it.
#[tactic(auto, using(crate::proofs::Laws::hyper_stored))]
pub fn set_hyper(buf: &mut [u8], at: usize, x: u64)
    requires { at + 8 ≤ length buf.old }
    ensures { buf.new ≡ take at buf.old ++ hyper x ++ drop (at + 8) buf.old }
{
    set_word(buf, at, (x / 4294967296) as u32);
    set_word(buf, at + 4, (x % 4294967296) as u32);
}
