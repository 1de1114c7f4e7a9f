// The member calls of 01, "Members", by value: a record in and out, and a reply buffer that what is sent is put in. A record takes messages of its own slot
// alone, and what it sends is of that slot (02, ticket 6).
#![tactic(auto)]

pub mod reply;

ghost use Rattle.std.specs.Prelude.{◌≡◌};
ghost use Rattle.laws.specs.First.{first};
ghost use Rattle.numbers.specs.Numbers.{number_of};
ghost use Rattle.member_calls.specs.Reports.{LeavesReport, LeavesReply};
ghost use Rattle.member_calls.specs.Calls.{record_row, fresh_call, start_call, deliver_call};

use crate::reply::{AfterCall, NOTHING, refuse, tell};
use ids::{Member, Round, Slot};
use member::{deliver_sound, start_sound};
use member_record::{MemberState, fresh_record, who_sound};
use member_sound::is_sound;
use message::LONGEST;
use message_reader::read_own_message;
use numbers::Refusal;

// Fresh: where the slot, the number or N isn't allowed, the old record stays.
#[tactic(auto, unfolding(crate::specs::Calls::fresh_call))]
pub fn fresh_into(m: MemberState, slot: Slot, me: Member, n: u32) -> AfterCall
    ensures { LeavesReport (fresh_call m slot me n) result.state result.report }
{
    if !who_sound(slot, me, n) {
        return refuse(m, u32::from(Refusal::RecordUnsound));
    }
    AfterCall {
        state: fresh_record(slot, me, n),
        report: NOTHING,
    }
}

// The first refusal of the row "record, then buffer" whose cause holds. The buffer is asked for even where nothing would be sent.
fn check_record(m: MemberState, room: usize) -> Result<(), Refusal>
    ensures { number_of result ≡ first (record_row m room) }
{
    if !is_sound(m) {
        return Err(Refusal::RecordUnsound);
    }
    if room < LONGEST {
        return Err(Refusal::ReplyTooShort);
    }
    Ok(())
}

// start(r, offer).
pub fn start_into(m: MemberState, r: Round, offer: u64, reply: &mut [u8]) -> AfterCall
    ensures { LeavesReply m.who.slot (start_call m r offer reply.old) reply.old result.state result.report reply.new }
{
    if let Err(refusal) = check_record(m, reply.len()) {
        return refuse(m, u32::from(refusal));
    }
    let started = start_sound(m, r, offer);
    tell(m.who.slot, started.state, Ok(started.answer), reply)
}

// Delivery of the message that bytes are: 32 unless it is of the record's slot.
pub fn deliver_into(m: MemberState, bytes: &[u8], reply: &mut [u8]) -> AfterCall
    ensures { LeavesReply m.who.slot (deliver_call m bytes.now reply.old) reply.old result.state result.report
        reply.new }
{
    if let Err(refusal) = check_record(m, reply.len()) {
        return refuse(m, u32::from(refusal));
    }
    match read_own_message(m.who.slot, bytes) {
        Ok(g) => {
            let delivered = deliver_sound(m, g.body);
            tell(m.who.slot, delivered.state, Ok(delivered.answer), reply)
        }
        Err(refusal) => refuse(m, u32::from(refusal)),
    }
}
