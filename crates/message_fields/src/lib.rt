// A message of fields that are numbers, as C tells it.
#![tactic(auto)]

ghost use Rattle.std.specs.Prelude.{◌≡◌};
ghost use Rattle.laws.specs.First.{first};
ghost use Rattle.numbers.specs.Numbers.{number_of};
ghost use Rattle.message.specs.Kinds.{kind_number};
ghost use Rattle.message_fields.specs.Fields.{no_presence, spare_fields, fields_row, body_of, message_of};

use ids::{Member, Round, Slot};
use message::{Body, Kind, Message};
use numbers::Refusal;

// Whether a field that the kind doesn't have isn't 0.
#[tactic(auto, unfolding(crate::specs::Fields::spare_fields))]
fn spare_fields(kind: Kind, present: u32, voted: Round, value: u64) -> bool
    ensures { result ≡ spare_fields (kind_number kind) present voted.0 value }
{
    match kind {
        Kind::Join => present != 1 && (voted != Round(0) || value != 0),
        Kind::Propose => present != 0 || voted != Round(0),
        Kind::Start | Kind::Vote => present != 0 || voted != Round(0) || value != 0,
    }
}

// Whether the presence of a JOIN is neither 0 nor 1.
fn wrong_presence(kind: Kind, present: u32) -> bool
    ensures { result ≡ no_presence (kind_number kind) present }
{
    kind == Kind::Join && 1 < present
}

// What the message of fields says.
#[tactic(auto, unfolding(crate::specs::Fields::body_of))]
fn body_of(kind: Kind, round: Round, sender: Member, present: u32, voted: Round, value: u64) -> Body
    ensures { result ≡ body_of (kind_number kind) round sender present voted value }
{
    match kind {
        Kind::Start => Body::Start { round, sender },
        Kind::Join => {
            if present == 1 {
                Body::JoinVoted {
                    round,
                    sender,
                    voted,
                    value,
                }
            } else {
                Body::Join { round, sender }
            }
        }
        Kind::Propose => Body::Propose {
            round,
            sender,
            value,
        },
        Kind::Vote => Body::Vote { round, sender },
    }
}

// Whether fields are a message's, else the first number that they get. Kind and presence are numbers, as C tells them.
#[tactic(auto, unfolding(crate::specs::Fields::fields_row))]
pub fn check_fields(
    slot: Slot,
    kind: u32,
    present: u32,
    voted: Round,
    value: u64,
) -> Result<(), Refusal>
    ensures { number_of result ≡ first (fields_row slot kind present voted.0 value) }
{
    if ids::no_slot(slot) {
        return Err(Refusal::WrongSlot);
    }
    let kind = Kind::try_from(kind)?;
    if wrong_presence(kind, present) || spare_fields(kind, present, voted, value) {
        return Err(Refusal::MessageField);
    }
    Ok(())
}

// The message of fields. A number that is no kind's counts as a VOTE's.
#[tactic(auto, unfolding(crate::specs::Fields::body_of, crate::specs::Fields::message_of))]
pub fn message_of(
    slot: Slot,
    kind: u32,
    round: Round,
    sender: Member,
    present: u32,
    voted: Round,
    value: u64,
) -> Message
    ensures { result ≡ message_of slot kind round sender present voted value }
{
    let kind = Kind::try_from(kind).unwrap_or(Kind::Vote);
    Message {
        slot,
        body: body_of(kind, round, sender, present, voted, value),
    }
}
