// An office in play: what its records are at first, what it counts, the step of an event, and what the step's answer comes to (01, "Play"; 02, ticket 6).
#![tactic(auto)]

pub mod event;

ghost use Rattle.std.specs.Prelude.{◌≡◌};
ghost use Rattle.message.specs.Layout.{in_slot};
ghost use Rattle.play_effects.specs.Effects.{effect_of};
ghost use Rattle.play_effects.specs.Memory.{in_memory};
ghost use Rattle.play_office.specs.Represents.{AnswerBefore, AnswerSettled, rounds_of, lead_of, no_record, fresh_tally};

use ids::{Member, Round, SLOTS, Slot};
use member::StepAnswer;
use member_record::{MemberState, fresh_record};
use message::{Body, Message};
use numbers::Refusal;
use play_effects::{Tally, decide, propose, send};

// What play holds of a member's record is all but who it is, which each of its events says. It is held in two parts, neither with a gap between its
// fields: those at first, zeros, are written at once, and no gap is copied: one array of whole records is slower. These are J, V and W, L and B.
#[derive(Clone, Copy)]
pub struct HeldRounds {
    pub joined: Round,
    pub voted: Round,
    pub vote: u64,
    pub led: Round,
    pub source: Round,
}

// And these X, the flags, and the phase, which a byte holds.
#[derive(Clone, Copy)]
pub struct HeldLead {
    pub value: u64,
    pub flags: [bool; 7],
    pub phase: u8,
}

// Seven records for each slot. Those of numbers from N on stay as they are at first: their events are refused, and a refused event changes none.
pub const RECORDS: usize = 7 * SLOTS;

// What is held of a record: its rounds and its vote.
pub fn rounds_of(m: MemberState) -> HeldRounds
    ensures { result ≡ rounds_of m }
{
    HeldRounds {
        joined: m.durable.joined,
        voted: m.durable.voted,
        vote: m.durable.vote,
        led: m.durable.led,
        source: m.lead.source,
    }
}

// Its value to propose, its flags and its phase.
pub fn lead_of(m: MemberState) -> HeldLead
    ensures { result ≡ lead_of m }
{
    let flags = m.lead.flags;
    HeldLead {
        value: m.lead.value,
        flags,
        phase: (m.lead.phase % 256) as u8,
    }
}

// At first zeros, as of any fresh record.
pub fn no_rounds() -> HeldRounds
    ensures { result ≡ no_record.rounds }
{
    rounds_of(fresh_record(Slot(0), Member(0), 0))
}

pub fn no_lead() -> HeldLead
    ensures { result ≡ no_record.lead }
{
    lead_of(fresh_record(Slot(0), Member(0), 0))
}

// Nothing sent and nothing made.
pub fn fresh_tally(n: u32) -> Tally
    ensures { result ≡ fresh_tally n }
{
    Tally {
        n,
        sent: 0,
        proposals: 0,
        decisions: 0,
        ghosts: 0,
    }
}

// The message that a member of a slot sends.
fn in_slot(slot: Slot, body: Body) -> Message
    ensures { result ≡ in_slot slot body }
{
    Message { slot, body }
}

// What the answer of a member's step comes to: its refusal, or the tally after what it sends in its slot and names.
pub fn settle(
    tally: Tally,
    slot: Slot,
    a: StepAnswer,
    messages: &mut [u8],
    nodes: &mut [u64],
) -> Result<Tally, Refusal>
    requires { AnswerBefore tally slot a (in_memory messages.old nodes.old) }
    ensures { AnswerSettled tally slot a (in_memory messages.old nodes.old) (effect_of tally result)
        (in_memory messages.new nodes.new) }
{
    match a {
        StepAnswer::Refused(refusal) => Err(refusal),
        StepAnswer::Done => Ok(tally),
        StepAnswer::Sent(b) => send(messages, tally, in_slot(slot, b)),
        StepAnswer::Proposed {
            sent,
            round,
            value,
            parent,
        } => {
            let g = in_slot(slot, sent);
            propose(messages, nodes, tally, g, round, value, parent)
        }
        StepAnswer::Decided { round, .. } => Ok(decide(nodes, tally, round)),
    }
}
