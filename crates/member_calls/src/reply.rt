// The result of a member call, and what it puts in the reply buffer (01, "Members").
ghost use Rattle.std.specs.Prelude.{◌≡◌, true, false, [], ◌∷◌, ◌≤◌, length};
ghost use Rattle.ids.specs.Ranges.{no_slot};
ghost use Rattle.message.specs.Fields.{in_range};
ghost use Rattle.message.specs.Layout.{longest_message};
ghost use Rattle.member.specs.Table.{refused};
ghost use Rattle.member.specs.Kept.{Kept};
ghost use Rattle.member_calls.specs.Reports.{told_outcome, reply_length, reply_after, LeavesReport, LeavesReply};

use ids::{Round, Slot};
use member::StepAnswer;
use member_record::MemberState;
use message::{Body, Message};
use message_writer::write_message;

// The result of a call: numbers of 01, as C has them. Each that the call does not give or name is 0.
#[repr(C)]
#[derive(Clone, Copy)]
pub struct Report {
    // Of the place table; 0 is OK.
    pub number: u32,
    // The length of the message at the front of the reply.
    pub sent: usize,
    // r of add(r, X, B), whose PROPOSE is sent, or of commit(r), where nothing is.
    pub round: Round,
    // X.
    pub value: u64,
    // B of add(r, X, B).
    pub parent: Round,
}

// The record after a call, beside its result.
#[derive(Clone, Copy)]
pub struct AfterCall {
    pub state: MemberState,
    pub report: Report,
}

// Of a call that is done, sends nothing and names nothing.
pub const NOTHING: Report = Report {
    number: 0,
    sent: 0,
    round: Round(0),
    value: 0,
    parent: Round(0),
};

// A refused call leaves the record as it was, and its number alone is not 0. It takes any number: a report has C's.
pub fn refuse(m: MemberState, number: u32) -> AfterCall
    ensures { LeavesReport (refused number m) result.state result.report }
{
    AfterCall {
        state: m,
        report: Report { number, ..NOTHING },
    }
}

// Puts a message of this slot at the front of the reply, and answers its length.
fn send(slot: Slot, g: Body, reply: &mut [u8]) -> usize
    requires { (longest_message ≤ length reply.old) × (no_slot slot.0 ≡ false) × (in_range g ≡ true) }
    ensures { (result ≡ reply_length (g ∷ [])) × (reply.new ≡ reply_after slot (g ∷ []) reply.old) }
{
    write_message(Message { slot, body: g }, reply).unwrap()
}

// The result of an answer, and what it sends in this slot, beside the record after: Ok is a step's, Err a refusal with any number, since a report has C's.
// As a call of its own it costs a member call some 130 instructions, since the step is handed on in memory.
#[inline(always)]
pub fn tell(
    slot: Slot,
    state: MemberState,
    answer: Result<StepAnswer, u32>,
    reply: &mut [u8],
) -> AfterCall
    requires { (longest_message ≤ length reply.old) × (no_slot slot.0 ≡ false) × Kept (told_outcome state answer) }
    ensures { LeavesReply slot (told_outcome state answer) reply.old result.state result.report reply.new }
{
    let answer = match answer {
        Ok(answer) => answer,
        Err(number) => return refuse(state, number),
    };
    let report = match answer {
        StepAnswer::Refused(refusal) => return refuse(state, u32::from(refusal)),
        StepAnswer::Sent(g) => Report {
            sent: send(slot, g, reply),
            ..NOTHING
        },
        StepAnswer::Done => NOTHING,
        StepAnswer::Proposed {
            sent,
            round,
            value,
            parent,
        } => Report {
            sent: send(slot, sent, reply),
            round,
            value,
            parent,
            ..NOTHING
        },
        StepAnswer::Decided { round, value } => Report {
            round,
            value,
            ..NOTHING
        },
    };
    AfterCall { state, report }
}
