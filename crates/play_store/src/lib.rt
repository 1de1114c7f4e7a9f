// The message store of play (01, "Play"; 02, ticket 6): lent bytes in rows that have room for any message; message k stands at the front of row k, zeros after.
#![tactic(auto)]

ghost use Rattle.std.specs.Prelude.{◌≡◌, ◌≤◌, true, length, replicate};
ghost use Rattle.message.specs.Fields.{message_in_range};
ghost use Rattle.play_store.specs.Rows.{store_sized, HasRow, row_length, row_at, put_row, fetched};

use ids::Slot;
use message::{Body, LONGEST, Message};

// A row has room for the longest message.
pub const ROW_LENGTH: usize = LONGEST;

const MOST_ROWS: usize = 2000;

const MOST_BYTES: usize = ROW_LENGTH * MOST_ROWS;

// Whether the store is 1 to 2,000 whole rows.
pub fn has_store_length(s: &[u8]) -> bool
    ensures { result ≡ store_sized s.now }
{
    let n = s.len();
    n % ROW_LENGTH == 0 && ROW_LENGTH <= n && n <= MOST_BYTES
}

// Writes zero to every byte.
pub fn clear(s: &mut [u8])
    ensures { s.new ≡ replicate (length s.old) 0 }
{
    s.fill(0);
}

// Puts a message at the front of row k.
pub fn store_message(s: &mut [u8], k: usize, g: Message)
    requires { HasRow s.old k × (message_in_range g ≡ true) }
    ensures { s.new ≡ put_row s.old k g }
{
    let start = ROW_LENGTH * k;
    let end = start + ROW_LENGTH;
    let _ = message_writer::write_message(g, &mut s[start..end]);
}

// Row k.
#[tactic(auto, using(crate::proofs::Parts::length_part))]
fn row(s: &[u8], k: usize) -> &[u8]
    requires { HasRow s.now k }
    ensures row { result.now ≡ row_at s.now k }
    ensures whole { row_length ≤ length result.now }
{
    let start = ROW_LENGTH * k;
    &s[start..start + ROW_LENGTH]
}

// The slot of the message at the front of row k.
#[tactic(auto, using(crate::proofs::Parts::fetched_slot))]
pub fn fetch_slot(s: &[u8], k: usize) -> Slot
    requires { HasRow s.now k }
    ensures { result ≡ (fetched s.now k).slot }
{
    message_reader::slot_front(row(s, k))
}

// And what that message says.
#[tactic(auto, using(crate::proofs::Parts::fetched_body))]
pub fn fetch_body(s: &[u8], k: usize) -> Body
    requires { HasRow s.now k }
    ensures { result ≡ (fetched s.now k).body }
{
    message_reader::body_front(row(s, k))
}
