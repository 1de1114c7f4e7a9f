// The rows of the member table of 01, "Members", for records that are sound. N of a record may be any number, since C lends records: a row asks for what it
// needs of N, and a type around the record would be unwrapped at each use.
ghost use Rattle.std.specs.Prelude.{◌≡◌, ◌≤◌, ◌<◌};
ghost use Rattle.numbers.specs.Numbers.{refusal_number};
ghost use Rattle.member_rules.specs.Causes.{start_call_causes, START_causes, count_causes, PROPOSE_causes};
ghost use Rattle.member.specs.Table.{refused, sends, unless, start_call_row, START_row, complete, proposes, decides, completes};
ghost use Rattle.member.specs.Table.{count_row, PROPOSE_row, delivers, sound_step};
ghost use Rattle.member.specs.ByRow.{row_of, by_row};
ghost use Rattle.member.specs.Answers.{move_outcome};

use crate::{Move, StepAnswer};
use ids::{Member, Round};
use member_record::{COLLECTING, MemberState, PROPOSED, count_flags, needed};
use member_rules::changes::{
    adopting, counting, deciding, join_message, joining, proposing, starting, voting,
};
use member_rules::refusals::{check_count, check_propose, check_start, check_start_call};
use message::Body;
use numbers::Refusal;

// A refusal leaves the record as it was.
fn refuse(m: MemberState, refusal: Refusal) -> Move
    ensures { move_outcome result ≡ refused (refusal_number refusal) m }
{
    Move {
        state: m,
        answer: StepAnswer::Refused(refusal),
    }
}

// A message is sent.
fn send(m: MemberState, g: Body) -> Move
    ensures { move_outcome result ≡ sends m g }
{
    Move {
        state: m,
        answer: StepAnswer::Sent(g),
    }
}

// start(r, offer).
pub fn on_start_call(m: MemberState, r: Round, offer: u64) -> Move
    requires { 1 ≤ m.who.n }
    ensures { move_outcome result ≡ unless (start_call_causes m r) m (start_call_row m r offer) }
{
    match check_start_call(m, r) {
        Ok(()) => send(
            starting(m, r, offer),
            Body::Start {
                round: r,
                sender: m.who.me,
            },
        ),
        Err(refusal) => refuse(m, refusal),
    }
}

// START r.
fn on_start(m: MemberState, r: Round, s: Member) -> Move
    requires { 1 ≤ m.who.n }
    ensures { move_outcome result ≡ unless (START_causes m r s) m (START_row m r) }
{
    match check_start(m, r, s) {
        Ok(()) => send(joining(m, r), join_message(m, r)),
        Err(refusal) => refuse(m, refusal),
    }
}

// Whether the flags are as many as the phase needs.
fn is_complete(m: MemberState) -> bool
    ensures { result ≡ complete m }
{
    count_flags(m.lead.flags) == needed(m.who, m.lead.phase)
}

// The joins are complete: PROPOSE is sent, and the proposal named.
fn propose(m: MemberState, r: Round) -> Move
    ensures { move_outcome result ≡ proposes m r }
{
    Move {
        state: proposing(m),
        answer: StepAnswer::Proposed {
            sent: Body::Propose {
                round: r,
                sender: m.who.me,
                value: m.lead.value,
            },
            round: r,
            value: m.lead.value,
            parent: m.lead.source,
        },
    }
}

// The votes are complete: the decision is named.
fn decide(m: MemberState, r: Round) -> Move
    ensures { move_outcome result ≡ decides m r }
{
    Move {
        state: deciding(m),
        answer: StepAnswer::Decided {
            round: r,
            value: m.lead.value,
        },
    }
}

// The flags of a phase are complete.
fn end_phase(phase: u32, m: MemberState, r: Round) -> Move
    ensures { move_outcome result ≡ completes phase m r }
{
    if phase == COLLECTING {
        propose(m, r)
    } else {
        decide(m, r)
    }
}

// A JOIN or VOTE is counted; short of what the phase needs, nothing is sent or named.
fn count(phase: u32, m: MemberState, r: Round, s: Member) -> Move
    requires { s.0 < 7 }
    ensures { move_outcome result ≡ count_row phase m r s }
{
    let counted = counting(m, s);
    if is_complete(counted) {
        end_phase(phase, counted, r)
    } else {
        Move {
            state: counted,
            answer: StepAnswer::Done,
        }
    }
}

// JOIN r or VOTE r, each awaited in its phase: where it isn't refused it is counted in `taken`, the record with the vote that a JOIN carries.
fn on_count(phase: u32, m: MemberState, taken: MemberState, r: Round, s: Member) -> Move
    requires { m.who.n ≤ 7 }
    ensures { move_outcome result ≡ unless (count_causes phase m r s) m (count_row phase taken r s) }
{
    match check_count(m, phase, r, s) {
        Ok(()) => count(phase, taken, r, s),
        Err(refusal) => refuse(m, refusal),
    }
}

// PROPOSE r, v.
fn on_propose(m: MemberState, r: Round, s: Member, v: u64) -> Move
    requires { 1 ≤ m.who.n }
    ensures { move_outcome result ≡ unless (PROPOSE_causes m r s v) m (PROPOSE_row m r v) }
{
    match check_propose(m, r, s, v) {
        Ok(()) => send(
            voting(m, r, v),
            Body::Vote {
                round: r,
                sender: m.who.me,
            },
        ),
        Err(refusal) => refuse(m, refusal),
    }
}

// Any message: the step of the table, which is that of the message's row. JOIN and VOTE are counted at one place of call, for speed: the compiler makes a
// function part of its caller where that is its only one.
#[tactic(auto, unfolding(crate::specs::Table::sound_step, crate::specs::Table::step_causes, crate::specs::Table::step_row, crate::specs::ByRow::row_of, crate::specs::ByRow::taking))]
pub fn on_message(m: MemberState, g: Body) -> Move
    requires { (1 ≤ m.who.n) × (m.who.n ≤ 7) }
    ensures step { move_outcome result ≡ sound_step m (delivers g) }
    ensures row { move_outcome result ≡ by_row m g (row_of g) }
{
    let (phase, taken, round, sender) = match g {
        Body::Start { round, sender } => return on_start(m, round, sender),
        Body::Join { round, sender } => (COLLECTING, m, round, sender),
        Body::JoinVoted {
            round,
            sender,
            voted,
            value,
        } => (COLLECTING, adopting(m, voted, value), round, sender),
        Body::Propose {
            round,
            sender,
            value,
        } => return on_propose(m, round, sender, value),
        Body::Vote { round, sender } => (PROPOSED, m, round, sender),
    };
    on_count(phase, m, taken, round, sender)
}
