// The step of an event: that of its member, on what the event before it left (01, "Play"; 02, ticket 6). It takes the member's record and how much the
// office has sent, and writes nothing.
ghost use Rattle.std.specs.Prelude.{◌≡◌};
ghost use Rattle.laws.specs.First.{first};
ghost use Rattle.numbers.specs.Numbers.{number_of};
ghost use Rattle.model.specs.Model.{start, deliver, at_member};
ghost use Rattle.play_events.specs.Value.{slot_event, model_event};
ghost use Rattle.play_office.specs.Represents.{StartDue, StartTaken, EventBefore, StepTaken, missed_step, event_row};
ghost use Rattle.play_office.specs.Represents.{place_of, event_place, table_slot, event_record};

use crate::{HeldLead, HeldRounds};
use ids::{Member, Round, Slot, no_slot};
use member::{MemberStep, StepAnswer};
use member_record::{Durable, Lead, MemberState, Who};
use numbers::Refusal;
use play_effects::Tally;
use play_events::PlayEvent;

// The place of the record of a member of a slot; the first where there is none, as `place_of` has it, so that every event takes one path.
fn place_of(slot: Slot, member: Member) -> usize
    ensures { result ≡ place_of slot.0 member.0 }
{
    if no_slot(slot) {
        return 0;
    }
    if member < Member(7) {
        return 7 * (slot.0 as usize) + member.0 as usize;
    }
    0
}

// The member that an event names.
fn member_of(e: PlayEvent) -> Member
    ensures { result.0 ≡ at_member (slot_event e) }
{
    match e {
        PlayEvent::Start { member, .. } | PlayEvent::Deliver { member, .. } => member,
    }
}

// The place of the record of an event's member. A slot above 7 or a number above 6 has none: its event is shown the first and refused, so that no record
// changes.
pub fn place(slot: Slot, e: PlayEvent) -> usize
    ensures { result ≡ event_place (model_event slot e) }
{
    place_of(slot, member_of(e))
}

// The slot whose table is lent for an event. Above 7 there is none: the event is lent the first and refused, so that no table changes.
pub fn table_slot(slot: Slot) -> usize
    ensures { result ≡ table_slot slot.0 }
{
    if no_slot(slot) {
        return 0;
    }
    slot.0 as usize
}

// The record of an event's member, by what is held of it.
pub fn record_of(
    n: u32,
    slot: Slot,
    e: PlayEvent,
    rounds: HeldRounds,
    leading: HeldLead,
) -> MemberState
    ensures { result ≡ event_record n (model_event slot e) (record { rounds = rounds; lead = leading }) }
{
    let me = member_of(e);
    let who = Who { slot, me, n };
    let durable = Durable {
        joined: rounds.joined,
        voted: rounds.voted,
        vote: rounds.vote,
        led: rounds.led,
    };
    let flags = leading.flags;
    let lead = Lead {
        phase: leading.phase as u32,
        source: rounds.source,
        value: leading.value,
        flags,
    };
    MemberState { who, durable, lead }
}

// Refused before the member's step: the record stays.
fn missed(m: MemberState, refusal: Refusal) -> MemberStep
    ensures { result ≡ missed_step m refusal }
{
    MemberStep {
        state: m,
        answer: StepAnswer::Refused(refusal),
        lasting: false,
    }
}

// 32 for a slot above 7, then 29 for a member that is N or above.
fn check_event(tally: Tally, slot: Slot, member: Member) -> Result<(), Refusal>
    ensures { number_of result ≡ first (event_row tally slot.0 member.0) }
{
    let wrong_slot = no_slot(slot);
    let no_member = tally.n <= member.0;
    if wrong_slot {
        return Err(Refusal::WrongSlot);
    }
    if no_member {
        return Err(Refusal::NoMemberOrMessage);
    }
    Ok(())
}

// A start: 32 and 29, or the member's step.
fn step_start(
    tally: Tally,
    m: MemberState,
    slot: Slot,
    member: Member,
    round: Round,
    offer: u64,
) -> MemberStep
    requires { StartDue tally m (record { slot = slot.0; event = start member.0 round.0 offer }) }
    ensures { StartTaken tally m (record { slot = slot.0; event = start member.0 round.0 offer }) result }
{
    if let Err(refusal) = check_event(tally, slot, member) {
        return missed(m, refusal);
    }
    member::start_sound(m, round, offer)
}

// A delivery: 32 and 29, 32 for a message of another slot, or the member's step at the message of that row.
fn step_deliver(
    tally: Tally,
    m: MemberState,
    slot: Slot,
    message: u32,
    member: Member,
    messages: &[u8],
) -> MemberStep
    requires { EventBefore tally m (record { slot = slot.0; event = deliver message member.0 }) messages.now }
    ensures { StepTaken tally m (record { slot = slot.0; event = deliver message member.0 }) messages.now result }
{
    if let Err(refusal) = check_event(tally, slot, member) {
        return missed(m, refusal);
    }
    let row = message as usize;
    if tally.sent <= row {
        return missed(m, Refusal::NoMemberOrMessage);
    }
    let sent_in = play_store::fetch_slot(messages, row);
    if sent_in != slot {
        return missed(m, Refusal::WrongSlot);
    }
    let body = play_store::fetch_body(messages, row);
    member::deliver_sound(m, body)
}

// The step of an event's member.
pub fn step_event(
    tally: Tally,
    m: MemberState,
    slot: Slot,
    e: PlayEvent,
    messages: &[u8],
) -> MemberStep
    requires { EventBefore tally m (model_event slot e) messages.now }
    ensures { StepTaken tally m (model_event slot e) messages.now result }
{
    match e {
        PlayEvent::Start {
            member,
            round,
            offer,
        } => step_start(tally, m, slot, member, round, offer),
        PlayEvent::Deliver { message, member } => {
            step_deliver(tally, m, slot, message, member, messages)
        }
    }
}
