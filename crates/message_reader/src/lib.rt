// The reader of messages (01, "Messages"; 02, ticket 6).
#![tactic(auto)]

ghost use Rattle.std.specs.Prelude.{◌≡◌, ◌&&◌, false, ◌+◌, ◌≤◌, length, take, eqb};
ghost use Rattle.ids.specs.Ranges.{no_slot};
ghost use Rattle.message.specs.Layout.{JOIN_KIND, kind_end, head_length, join_length, longest_message};
ghost use Rattle.message.specs.Layout.{message_slot, kind_in, round_in, message_sender, presence_in};
ghost use Rattle.message.specs.Kinds.{kind_number, KindShown};
ghost use Rattle.message.specs.Answers.{read_of};
ghost use Rattle.message.specs.Reading.{size, is_join, decoded_body, wrong_presence, other_slot, told_reading, ReaderGives};

use ids::{Member, Round, Slot};
use message::{
    Body, HEAD_LENGTH, JOIN_LENGTH, JOIN_VOTED_LENGTH, KIND_END, KIND_PLACE, Kind, Message,
    PRESENCE_PLACE, PROPOSE_LENGTH, PROPOSED_PLACE, ROUND_PLACE, SENDER_PLACE, SLOT_PLACE,
    VOTED_PLACE, VOTED_VALUE_PLACE,
};
use numbers::Refusal;

// The slot at its place.
fn slot_of(s: &[u8]) -> Slot
    requires { kind_end ≤ length s.now }
    ensures { result ≡ message_slot s.now }
{
    Slot(xdr::word_at(s, SLOT_PLACE))
}

// The round at a place.
fn round_at(s: &[u8], at: usize) -> Round
    requires { at + 4 ≤ length s.now }
    ensures { result ≡ round_in s.now at }
{
    Round(xdr::word_at(s, at))
}

// The sender at its place.
fn sender_of(s: &[u8]) -> Member
    requires { head_length ≤ length s.now }
    ensures { result ≡ message_sender s.now }
{
    Member(xdr::word_at(s, SENDER_PLACE))
}

// The kind at its place, and VOTE where none of the four stands there.
fn kind_of(s: &[u8]) -> Kind
    requires { kind_end ≤ length s.now }
    ensures { KindShown result (kind_in s.now) }
{
    Kind::try_from(xdr::word_at(s, KIND_PLACE)).unwrap_or(Kind::Vote)
}

// Whether a JOIN says that it carries a vote.
fn has_vote(s: &[u8]) -> bool
    requires { join_length ≤ length s.now }
    ensures { result ≡ eqb (presence_in s.now) 1 }
{
    xdr::word_at(s, PRESENCE_PLACE) == 1
}

// What the message says that bytes of this kind and of its length spell; `voted` says whether it is a JOIN that carries a vote. It is made part of each place
// of call, for speed: what is known there of kind and vote isn't looked at again.
#[tactic(auto, unfolding(message::specs::Reading::decoded_body), using(message::proofs::Checks::size_least, message::proofs::Checks::size_join_least, message::proofs::Checks::size_join_voted, message::proofs::Checks::size_propose))]
#[inline(always)]
fn decode_as(kind: Kind, voted: bool, s: &[u8]) -> Body
    requires { KindShown kind (kind_in s.now) × (voted ≡ (is_join s.now && eqb (presence_in s.now) 1)) × (length s.now ≡ size s.now) }
    ensures { result ≡ decoded_body s.now }
{
    let round = round_at(s, ROUND_PLACE);
    let sender = sender_of(s);
    match kind {
        Kind::Start => Body::Start { round, sender },
        Kind::Join => {
            if voted {
                Body::JoinVoted {
                    round,
                    sender,
                    voted: round_at(s, VOTED_PLACE),
                    value: xdr::hyper_at(s, VOTED_VALUE_PLACE),
                }
            } else {
                Body::Join { round, sender }
            }
        }
        Kind::Propose => Body::Propose {
            round,
            sender,
            value: xdr::hyper_at(s, PROPOSED_PLACE),
        },
        Kind::Vote => Body::Vote { round, sender },
    }
}

// What bytes of the length of their kind spell.
#[tactic(auto, using(message::proofs::Checks::size_least, message::proofs::Checks::size_join_least))]
fn decode_body(s: &[u8]) -> Body
    requires { length s.now ≡ size s.now }
    ensures { result ≡ decoded_body s.now }
{
    let kind = kind_of(s);
    let voted = kind == Kind::Join && has_vote(s);
    decode_as(kind, voted, s)
}

// The length of the message at the front of bytes that tell its kind, and its presence if it is a JOIN.
#[tactic(auto, unfolding(message::specs::Reading::size, message::specs::Reading::decoded_body))]
fn message_size(s: &[u8]) -> usize
    requires { (kind_end ≤ length s.now) × (kind_in s.now ≡ JOIN_KIND → join_length ≤ length s.now) }
    ensures { result ≡ size s.now }
{
    match kind_of(s) {
        Kind::Start | Kind::Vote => HEAD_LENGTH,
        Kind::Join => {
            if has_vote(s) {
                JOIN_VOTED_LENGTH
            } else {
                JOIN_LENGTH
            }
        }
        Kind::Propose => PROPOSE_LENGTH,
    }
}

// The slot of the message at the front of bytes that have room for any.
pub fn slot_front(s: &[u8]) -> Slot
    requires { longest_message ≤ length s.now }
    ensures { result ≡ message_slot s.now }
{
    slot_of(s)
}

// And what it says, of its own length, and not of all the bytes.
#[tactic(auto, using(message::proofs::Checks::size_most, message::proofs::Checks::own_length))]
pub fn body_front(s: &[u8]) -> Body
    requires { longest_message ≤ length s.now }
    ensures { result ≡ decoded_body (take (size s.now) s.now) }
{
    let n = message_size(s);
    decode_body(&s[..n])
}

// Reads bytes whose kind and presence are right, and tell that they are so many. It is made part of each place of call, as `decode_as`.
#[inline(always)]
#[tactic(auto, using(message::proofs::Checks::four_kinds, message::proofs::Checks::wrong_size, message::proofs::Checks::field_refused, message::proofs::Checks::all_right))]
fn read_sized(kind: Kind, voted: bool, s: &[u8], told: usize) -> Result<Message, Refusal>
    requires { (kind_end ≤ length s.now) × (kind_in s.now ≡ kind_number kind) × (voted ≡ (is_join s.now && eqb (presence_in s.now) 1))
        × (wrong_presence s.now ≡ false) × (kind_in s.now ≡ JOIN_KIND → join_length ≤ length s.now) × (told ≡ size s.now) }
    ensures { read_of result ≡ told_reading false s.now }
{
    if s.len() != told {
        return Err(Refusal::MessageLength);
    }
    let body = decode_as(kind, voted, s);
    if !body.fields_in_range() {
        return Err(Refusal::MessageField);
    }
    Ok(Message {
        slot: slot_of(s),
        body,
    })
}

// Reads a JOIN. Its presence word has to be there before it is looked at, and is 0 or 1.
#[tactic(auto, using(message::proofs::Checks::join_short, message::proofs::Checks::join_neither, message::proofs::Checks::size_join, message::proofs::Checks::size_join_voted))]
fn read_join(s: &[u8]) -> Result<Message, Refusal>
    requires { (kind_end ≤ length s.now) × (kind_in s.now ≡ JOIN_KIND) }
    ensures { read_of result ≡ told_reading false s.now }
{
    if s.len() < JOIN_LENGTH {
        return Err(Refusal::MessageLength);
    }
    match xdr::word_at(s, PRESENCE_PLACE) {
        0 => read_sized(Kind::Join, false, s, JOIN_LENGTH),
        1 => read_sized(Kind::Join, true, s, JOIN_VOTED_LENGTH),
        _ => Err(Refusal::MessageField),
    }
}

// Reads bytes whose slot isn't refused and whose kind is this.
#[tactic(auto, using(message::proofs::Checks::size_propose, message::proofs::Checks::size_other))]
fn read_kind(kind: Kind, s: &[u8]) -> Result<Message, Refusal>
    requires { (kind_end ≤ length s.now) × (kind_in s.now ≡ kind_number kind) }
    ensures { read_of result ≡ told_reading false s.now }
{
    match kind {
        Kind::Start => read_sized(Kind::Start, false, s, HEAD_LENGTH),
        Kind::Join => read_join(s),
        Kind::Propose => read_sized(Kind::Propose, false, s, PROPOSE_LENGTH),
        Kind::Vote => read_sized(Kind::Vote, false, s, HEAD_LENGTH),
    }
}

// Reads bytes that tell slot and kind; `wrong` says whether their slot is refused.
#[tactic(auto, using(message::proofs::Checks::slot_refused, message::proofs::Checks::kind_refused))]
fn read_told(wrong: bool, s: &[u8]) -> Result<Message, Refusal>
    requires { kind_end ≤ length s.now }
    ensures { read_of result ≡ told_reading wrong s.now }
{
    if wrong {
        return Err(Refusal::WrongSlot);
    }
    // The kind is looked at behind the slot.
    let kind = Kind::try_from(xdr::word_at(s, KIND_PLACE))?;
    read_kind(kind, s)
}

// Reads any bytes of any length: the message that they are, or the number that comes first.
pub fn read_message(s: &[u8]) -> Result<Message, Refusal>
    ensures { ReaderGives no_slot s.now (read_of result) }
{
    if s.len() < KIND_END {
        return Err(Refusal::MessageLength);
    }
    read_told(ids::no_slot(slot_of(s)), s)
}

// Whether a member of slot `own` refuses a slot: one that is none of 0 to 7, or another.
fn other_slot(own: Slot, slot: Slot) -> bool
    ensures { result ≡ other_slot own slot.0 }
{
    ids::no_slot(slot) || slot != own
}

// Reads bytes for a member of slot `own`, who takes no message of another. What the two readers share is `read_told`; a closure for the test of the
// slot would be no plainer.
pub fn read_own_message(own: Slot, s: &[u8]) -> Result<Message, Refusal>
    ensures { ReaderGives (other_slot own) s.now (read_of result) }
{
    if s.len() < KIND_END {
        return Err(Refusal::MessageLength);
    }
    read_told(other_slot(own, slot_of(s)), s)
}
