// The member calls of 01, "Members": the record is lent and altered where it sits, and what is sent stands in a lent reply buffer.
// Each copies the record out, makes the call by value of `member_calls`, and copies in the record that it left. They are C functions so that a
// test can lend them a record; a host has the calls of `exports_member`, whose record is numbers alone: a flag's byte can hold what no Boolean is.
#![tactic(auto)]

ghost use Rattle.member_calls.specs.Reports.{LeavesReport, LeavesReply};
ghost use Rattle.member_calls.specs.Calls.{fresh_call, start_call, deliver_call};

use ids::{Member, Round, Slot};
use member_calls::reply::Report;
use member_calls::{deliver_into, fresh_into, start_into};
use member_record::MemberState;

// Makes the record fresh.
#[unsafe(no_mangle)]
pub extern "C" fn fresh(m: &mut MemberState, slot: Slot, me: Member, n: u32) -> Report
    ensures { LeavesReport (fresh_call m.old slot me n) m.new result }
{
    let c = fresh_into(*m, slot, me, n);
    *m = c.state;
    c.report
}

// start(r, offer).
#[unsafe(no_mangle)]
pub extern "C" fn start(m: &mut MemberState, r: Round, offer: u64, reply: &mut [u8]) -> Report
    ensures { LeavesReply m.old.who.slot (start_call m.old r offer reply.old) reply.old m.new result
        reply.new }
{
    let c = start_into(*m, r, offer, reply);
    *m = c.state;
    c.report
}

// Delivers the message that bytes are: 32 unless it is of the record's slot.
#[unsafe(no_mangle)]
pub extern "C" fn deliver(m: &mut MemberState, bytes: &[u8], reply: &mut [u8]) -> Report
    ensures { LeavesReply m.old.who.slot (deliver_call m.old bytes.now reply.old) reply.old
        m.new result reply.new }
{
    let c = deliver_into(*m, bytes, reply);
    *m = c.state;
    c.report
}
