// The writer of messages (01, "Messages"; 02, ticket 6).
#![tactic(auto)]

ghost use Rattle.std.specs.Prelude.{◌≡◌, ◌+◌, ◌≤◌, length};
ghost use Rattle.laws.specs.First.{first};
ghost use Rattle.numbers.specs.Numbers.{number_of};
ghost use Rattle.xdr_writer.specs.Put.{Fronts, putting_all};
ghost use Rattle.message.specs.Layout.{head, layout, longest_message, head_length};
ghost use Rattle.message.specs.Kinds.{kind_number};
ghost use Rattle.message.specs.Answers.{written_of};
ghost use Rattle.message.specs.Writing.{buffer_row, WriterLeaves};

use ids::{Member, Round, Slot};
use message::{Body, Kind, LONGEST, Message};
use numbers::Refusal;
use xdr_writer::Writer;

// Puts what every message starts with, which is all of a START and of a VOTE.
fn put_head(w: &mut Writer, slot: Slot, kind: Kind, round: Round, sender: Member)
    requires { w.old.at + head_length ≤ length w.old.buf.now }
    ensures put { w.new ≡ putting_all (head slot (kind_number kind) round sender) w.old }
    ensures same_buffer { w.new.buf.ghost_name ≡ w.old.buf.ghost_name }
    ensures kept { (w.new.at ≡ w.old.at + head_length) × (length w.new.buf.now ≡ length w.old.buf.now) }
{
    w.put(slot.0);
    w.put(u32::from(kind));
    w.put(round.0);
    w.put(sender.0);
}

// Puts a message where there is room for any.
#[tactic(auto, unfolding(message::specs::Layout::layout, message::specs::Layout::layout_in))]
fn put_all(w: &mut Writer, m: Message)
    requires { w.old.at + longest_message ≤ length w.old.buf.now }
    ensures put { w.new ≡ putting_all (layout m) w.old }
    ensures same_buffer { w.new.buf.ghost_name ≡ w.old.buf.ghost_name }
{
    let slot = m.slot;
    match m.body {
        Body::Start { round, sender } => put_head(w, slot, Kind::Start, round, sender),
        Body::Join { round, sender } => {
            put_head(w, slot, Kind::Join, round, sender);
            w.put(0u32);
        }
        Body::JoinVoted {
            round,
            sender,
            voted,
            value,
        } => {
            put_head(w, slot, Kind::Join, round, sender);
            w.put(1u32);
            w.put(voted.0);
            w.put(value);
        }
        Body::Propose {
            round,
            sender,
            value,
        } => {
            put_head(w, slot, Kind::Propose, round, sender);
            w.put(value);
        }
        Body::Vote { round, sender } => put_head(w, slot, Kind::Vote, round, sender),
    }
}

// Writes a message at the front of a buffer that has room for any, and answers its length.
fn put_message(m: Message, buf: &mut [u8]) -> usize
    requires { longest_message ≤ length buf.old }
    ensures { Fronts (layout m) buf.old result buf.new }
{
    let mut w = Writer { buf, at: 0 };
    put_all(&mut w, m);
    w.at
}

// Whether a message can't be written into a buffer of `room` bytes.
fn check_write(m: Message, room: usize) -> Result<(), Refusal>
    ensures { number_of result ≡ first (buffer_row m room) }
{
    if room < LONGEST {
        return Err(Refusal::ReplyTooShort);
    }
    if ids::no_slot(m.slot) {
        return Err(Refusal::WrongSlot);
    }
    if !m.body.fields_in_range() {
        return Err(Refusal::MessageField);
    }
    Ok(())
}

// Puts a message at the front of the buffer lent for it. A refusal writes nothing.
pub fn write_message(m: Message, buf: &mut [u8]) -> Result<usize, Refusal>
    ensures { WriterLeaves m buf.old (written_of result) buf.new }
{
    check_write(m, buf.len())?;
    Ok(put_message(m, buf))
}
