// Makes the member calls that standard input has, with the record by value and a lent reply. The input is XDR words: how many cases, then
// 148 bytes for each. A case is the call (0 fresh, 1 start, 2 deliver); the record, its slot, then its fields in 01's order and a word for each flag;
// slot, number and N for fresh; round and offer for start; the length of the reply, at most 40; the length of the message, at most 36, and 36 bytes
// that start with it. A line for each case: the number, the sent length, the round, the value and the parent; the record after; each byte
// of the reply after, in hex. Before a call each of these bytes is aa.
#![tactic(auto)]

use ids::{Member, Round, Slot};
use member_calls::reply::{AfterCall, Report};
use member_record::{Durable, Lead, MemberState, Who};
use std::io;
use std::io::Read;

// The length of a case.
const CASE_BYTES: usize = 148;

type Case = [u8; CASE_BYTES];

fn put_report(rt: &impl Print, r: Report) -> io::Result<()> {
    print!(rt;
        "{} {} {} {} {} ",
        r.number, r.sent, r.round.0, r.value, r.parent.0
    )
}

fn put_record(rt: &impl Print, m: MemberState) -> io::Result<()> {
    print!(rt; "{} {} {} ", m.who.slot.0, m.who.me.0, m.who.n)?;
    print!(rt;
        "{} {} {} {} ",
        m.durable.joined.0, m.durable.voted.0, m.durable.vote, m.durable.led.0
    )?;
    print!(rt; "{} {} {} ", m.lead.phase, m.lead.value, m.lead.source.0)?;
    for flag in m.lead.flags {
        print!(rt; "{} ", u8::from(flag))?;
    }
    Ok(())
}

// Writes what a call left.
fn put_called(rt: &impl Print, c: AfterCall, reply: &[u8]) -> io::Result<()> {
    put_report(rt, c.report)?;
    print!(rt; "| ")?;
    put_record(rt, c.state)?;
    print!(rt; "| ")?;
    for byte in reply {
        print!(rt; "{byte:02x}")?;
    }
    println!(rt)
}

// The flags of a case, a word for each.
fn flags_of(s: &Case) -> [bool; 7] {
    let mut flags = [false; 7];
    for (k, flag) in flags.iter_mut().enumerate() {
        *flag = xdr::word_at(s, 52 + 4 * k) != 0;
    }
    flags
}

// The record of a case.
fn record_of(s: &Case) -> MemberState {
    let who = Who {
        slot: Slot(xdr::word_at(s, 4)),
        me: Member(xdr::word_at(s, 8)),
        n: xdr::word_at(s, 12),
    };
    let durable = Durable {
        joined: Round(xdr::word_at(s, 16)),
        voted: Round(xdr::word_at(s, 20)),
        vote: xdr::hyper_at(s, 24),
        led: Round(xdr::word_at(s, 32)),
    };
    let lead = Lead {
        phase: xdr::word_at(s, 36),
        value: xdr::hyper_at(s, 40),
        source: Round(xdr::word_at(s, 48)),
        flags: flags_of(s),
    };
    MemberState { who, durable, lead }
}

fn fresh(rt: &impl Print, s: &Case, reply: &[u8]) -> io::Result<()> {
    let m = record_of(s);
    let slot = Slot(xdr::word_at(s, 80));
    let me = Member(xdr::word_at(s, 84));
    let n = xdr::word_at(s, 88);
    put_called(rt, member_calls::fresh_into(m, slot, me, n), reply)
}

fn start(rt: &impl Print, s: &Case, reply: &mut [u8]) -> io::Result<()> {
    let m = record_of(s);
    let round = Round(xdr::word_at(s, 92));
    let offer = xdr::hyper_at(s, 96);
    let c = member_calls::start_into(m, round, offer, reply);
    put_called(rt, c, reply)
}

fn deliver(rt: &impl Print, s: &Case, reply: &mut [u8]) -> io::Result<()> {
    let n = xdr::word_at(s, 108) as usize;
    if n <= 36 {
        let m = record_of(s);
        let c = member_calls::deliver_into(m, &s[112..112 + n], reply);
        put_called(rt, c, reply)?;
    }
    Ok(())
}

// Makes the call of a case.
fn call(rt: &impl Print, s: &Case, reply: &mut [u8]) -> io::Result<()> {
    match xdr::word_at(s, 0) {
        0 => fresh(rt, s, reply),
        1 => start(rt, s, reply),
        _ => deliver(rt, s, reply),
    }
}

// Lends the reply of a case.
fn lend(rt: &impl Print, s: &Case) -> io::Result<()> {
    let mut reply = [170u8; 40];
    let room = xdr::word_at(s, 104) as usize;
    if room <= 40 {
        call(rt, s, &mut reply[0..room])?;
    }
    Ok(())
}

// Reads a case.
fn next(rt: &impl Print, input: &mut impl Read) -> io::Result<()> {
    let mut s = [0u8; CASE_BYTES];
    let n = input::read_full(input, &mut s)?;
    if n == CASE_BYTES {
        lend(rt, &s)?;
    }
    Ok(())
}

fn run(rt: &impl Print, input: &mut impl Read, count: u32) -> io::Result<()> {
    for _ in 0..count {
        next(rt, input)?;
    }
    Ok(())
}

fn main(rt: HostRuntime) -> io::Result<()> {
    let mut input = rt.stdin();
    let mut head = [0u8; 4];
    input::read_full(&mut input, &mut head)?;
    run(&rt, &mut input, xdr::word_at(&head, 0))
}
