// The C functions of one member on one machine, thin over the proved member calls and the writer of messages. They are an archive of their own,
// so that play's has one place of call for a member's step, and the compiler makes the step part of play. A record passes by value,
// as numbers alone (`member_fields`); what is no sound record is refused with 17.
#![tactic(auto)]

ghost use Rattle.std.specs.Prelude.{◌≡◌, ◌≤◌};
ghost use Rattle.numbers.specs.Numbers.{refusal_number};
ghost use Rattle.message.specs.Answers.{written_of};
ghost use Rattle.message.specs.Layout.{longest_message};
ghost use Rattle.member_record.specs.Record.{slot_number};
ghost use Rattle.member_calls.specs.Reports.{reply_after};
ghost use Rattle.member_fields.specs.Fields.{no_fields};
ghost use Rattle.exports_member.specs.Members.{fields_after, call_result, refused_call};
ghost use Rattle.exports_member.specs.Members.{member_result, fresh_outcome, start_outcome, deliver_outcome};
ghost use Rattle.exports_member.specs.Members.{write_result, written_after};

use ids::{Member, Round, Slot};
use member_calls::reply::AfterCall;
use member_calls::{deliver_into, fresh_into, start_into};
use member_fields::{MemberFields, no_mask};
use member_record::MemberState;
use message_fields::{check_fields, message_of};
use message_writer::write_message;
use numbers::Refusal;

// The version of the C functions, one number for both archives. It goes up with each change that a caller of either sees.
const VERSION: u32 = 6;

#[unsafe(no_mangle)]
pub extern "C" fn kalebasin_member_version() -> u32
    ensures { result ≡ 6 }
{
    VERSION
}

// What a member call hands back. With a refusal the record is as it came, and all else but the number is 0.
#[repr(C)]
#[derive(Clone, Copy)]
pub struct MemberResult {
    pub number: u32,
    // The length of the message at the front of the reply.
    pub sent: u32,
    // Of the proposal that the message makes, or of the decision where nothing is sent; else 0.
    pub round: u32,
    // Of the proposal.
    pub parent: u32,
    pub value: u64,
    pub fields: MemberFields,
}

// With a refusal the length is 0.
#[repr(C)]
#[derive(Clone, Copy)]
pub struct WriteResult {
    pub number: u32,
    pub length: u32,
}

// A refused call gives the record back as it came.
fn refuse(f: MemberFields, refusal: Refusal) -> MemberResult
    ensures { result ≡ refused_call f (refusal_number refusal) }
{
    MemberResult {
        number: u32::from(refusal),
        sent: 0,
        round: 0,
        parent: 0,
        value: 0,
        fields: f,
    }
}

// The record that goes back: the one that came where the call is refused, else the one after.
fn fields_after(f: MemberFields, m: MemberState, number: u32) -> MemberFields
    ensures { result ≡ fields_after f m number }
{
    if number == 0 {
        MemberFields::from(m)
    } else {
        f
    }
}

// What a call on a record handed back, as numbers.
fn result(f: MemberFields, c: AfterCall) -> MemberResult
    requires { c.report.sent ≤ longest_message }
    ensures { result ≡ call_result f c }
{
    MemberResult {
        number: c.report.number,
        sent: c.report.sent as u32,
        round: c.report.round.0,
        parent: c.report.parent.0,
        value: c.report.value,
        fields: fields_after(f, c.state, c.report.number),
    }
}

// A fresh record, for slot `slot`, of member `number` in an office of so many. Zeros, where there is no such slot or member.
#[unsafe(no_mangle)]
pub extern "C" fn kalebasin_member_fresh(slot: u32, number: u32, members: u32) -> MemberResult
    ensures { result ≡ member_result no_fields (fresh_outcome slot number members) }
{
    let f = MemberFields::default();
    let c = fresh_into(MemberState::from(f), Slot(slot), Member(number), members);
    result(f, c)
}

// start(round, offer) of the member whose record this is. What it sends is of the record's slot.
#[tactic(auto, using(crate::proofs::MemberResults::slot_kept), unfolding(crate::specs::Members::start_outcome))]
#[unsafe(no_mangle)]
pub extern "C" fn kalebasin_member_start(
    f: MemberFields,
    round: u32,
    offer: u64,
    reply: &mut [u8],
) -> MemberResult
    ensures answer { result ≡ member_result f (start_outcome f round offer reply.old) }
    ensures left { reply.new ≡ reply_after (slot_number f.slot) (start_outcome f round offer reply.old).sent reply.old }
{
    if no_mask(f.flags) {
        return refuse(f, Refusal::RecordUnsound);
    }
    let c = start_into(MemberState::from(f), Round(round), offer, reply);
    result(f, c)
}

// Delivers the message that bytes are to the member whose record this is: 32 unless it is of the record's slot, of which is what it sends.
#[tactic(auto, using(crate::proofs::MemberResults::slot_kept), unfolding(crate::specs::Members::deliver_outcome))]
#[unsafe(no_mangle)]
pub extern "C" fn kalebasin_member_deliver(
    f: MemberFields,
    bytes: &[u8],
    reply: &mut [u8],
) -> MemberResult
    ensures answer { result ≡ member_result f (deliver_outcome f bytes.now reply.old) }
    ensures left { reply.new ≡ reply_after (slot_number f.slot) (deliver_outcome f bytes.now reply.old).sent reply.old }
{
    if no_mask(f.flags) {
        return refuse(f, Refusal::RecordUnsound);
    }
    let c = deliver_into(MemberState::from(f), bytes, reply);
    result(f, c)
}

// What the writer answered, as numbers.
fn written(answer: Result<usize, Refusal>) -> WriteResult
    requires { (written_of answer).length ≤ longest_message }
    ensures { (result.number ≡ (written_of answer).number) × (result.length ≡ (written_of answer).length) }
{
    match answer {
        Ok(length) => WriteResult {
            number: 0,
            length: length as u32,
        },
        Err(refusal) => WriteResult {
            number: u32::from(refusal),
            length: 0,
        },
    }
}

// Puts the message that has these fields at the front of the buffer lent for it. A field that its kind doesn't have is 0.
#[unsafe(no_mangle)]
pub extern "C" fn kalebasin_write_message(
    slot: u32,
    kind: u32,
    round: u32,
    sender: u32,
    present: u32,
    voted: u32,
    value: u64,
    buf: &mut [u8],
) -> WriteResult
    ensures answer { result ≡ write_result slot kind round sender present voted value buf.old }
    ensures left { buf.new ≡ written_after slot kind round sender present voted value buf.old }
{
    if let Err(refusal) = check_fields(Slot(slot), kind, present, Round(voted), value) {
        return written(Err(refusal));
    }
    let m = message_of(
        Slot(slot),
        kind,
        Round(round),
        Member(sender),
        present,
        Round(voted),
        value,
    );
    written(write_message(m, buf))
}
