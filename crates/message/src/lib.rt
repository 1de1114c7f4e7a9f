// The messages of 01, "Messages", and 02, ticket 6: slot and body, kinds and ranges.
#![tactic(auto)]

ghost use Rattle.std.specs.Prelude.{◌≡◌};
ghost use Rattle.message.specs.Fields.{head_in_range, vote_in_range, in_range};
ghost use Rattle.message.specs.Kinds.{kind_number, KindRead};

use ids::{Member, Round, Slot};
use numbers::Refusal;

// What a message says: one of the four kinds, a JOIN without or with a vote.
#[derive(Clone, Copy, Debug, PartialEq, Eq)]
pub enum Body {
    Start {
        round: Round,
        sender: Member,
    },
    Join {
        round: Round,
        sender: Member,
    },
    JoinVoted {
        round: Round,
        sender: Member,
        voted: Round,
        value: u64,
    },
    Propose {
        round: Round,
        sender: Member,
        value: u64,
    },
    Vote {
        round: Round,
        sender: Member,
    },
}

// A message by value: the slot that it is of, and what it says (02, ticket 6).
#[derive(Clone, Copy, Debug, PartialEq, Eq)]
pub struct Message {
    pub slot: Slot,
    pub body: Body,
}

// The kinds of messages, with the number of each.
#[derive(Clone, Copy, Debug, PartialEq, Eq)]
pub enum Kind {
    Start = 1,
    Join = 2,
    Propose = 3,
    Vote = 4,
}

impl From<Kind> for u32 {
    ghost from_gives = { λ kind number. number ≡ kind_number kind };

    fn from(kind: Kind) -> u32 {
        kind as u32
    }
}

// The kind of a number, which is refused where it is none of the four.
impl TryFrom<u32> for Kind {
    type Error = Refusal;

    ghost try_from_gives = { KindRead };

    fn try_from(number: u32) -> Result<Kind, Refusal> {
        match number {
            1 => Ok(Kind::Start),
            2 => Ok(Kind::Join),
            3 => Ok(Kind::Propose),
            4 => Ok(Kind::Vote),
            _ => Err(Refusal::MessageKind),
        }
    }
}

// The places of a message's words.
pub const SLOT_PLACE: usize = 0;

pub const KIND_PLACE: usize = SLOT_PLACE + 4;

pub const ROUND_PLACE: usize = KIND_PLACE + 4;

pub const SENDER_PLACE: usize = ROUND_PLACE + 4;

pub const PRESENCE_PLACE: usize = SENDER_PLACE + 4;

pub const VOTED_PLACE: usize = PRESENCE_PLACE + 4;

pub const VOTED_VALUE_PLACE: usize = VOTED_PLACE + 4;

pub const PROPOSED_PLACE: usize = SENDER_PLACE + 4;

// Where the kind ends: as many bytes tell slot and kind.
pub const KIND_END: usize = KIND_PLACE + 4;

// The length of what every message starts with, which is all of a START and of a VOTE.
pub const HEAD_LENGTH: usize = SENDER_PLACE + 4;

// The length of a JOIN without a vote, with a vote, and of a PROPOSE.
pub const JOIN_LENGTH: usize = PRESENCE_PLACE + 4;

pub const JOIN_VOTED_LENGTH: usize = VOTED_VALUE_PLACE + 8;

pub const PROPOSE_LENGTH: usize = PROPOSED_PLACE + 8;

// The length of the longest message: what a reply buffer has room for.
pub const LONGEST: usize = JOIN_VOTED_LENGTH;

// An office has at most seven members, numbered from 0.
const LAST_SENDER: Member = Member(6);

// Whether the round is one of 1 to 1,000,000 and the sender one of 0 to 6.
fn head_in_range(round: Round, sender: Member) -> bool
    ensures { result ≡ head_in_range round sender }
{
    ids::in_range(round) && sender <= LAST_SENDER
}

// Whether a voted round is at least 1 and below the JOIN's round.
fn vote_in_range(round: Round, voted: Round) -> bool
    ensures { result ≡ vote_in_range round voted }
{
    Round(1) <= voted && voted < round
}

impl Body {
    // Whether the fields of what a message says are in range.
    pub fn fields_in_range(self) -> bool
        ensures { result ≡ in_range self }
    {
        match self {
            Body::JoinVoted {
                round,
                sender,
                voted,
                value: _,
            } => head_in_range(round, sender) && vote_in_range(round, voted),
            Body::Start { round, sender }
            | Body::Join { round, sender }
            | Body::Propose {
                round,
                sender,
                value: _,
            }
            | Body::Vote { round, sender } => head_in_range(round, sender),
        }
    }
}
