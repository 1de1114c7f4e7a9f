// Writes a message of each kind and some with a slot or fields out of range, prints the bytes, and reads them back; then reads damaged bytes, and
// some for a member of slot 5. A line has bytes in hex and what they read as; of a refused message it has the number and the buffer as that left it.
#![tactic(auto)]

use ids::{Member, Round, Slot};
use message::{Body, LONGEST, Message};
use numbers::Refusal;
use std::io;

fn print_bytes(rt: &impl Print, s: &[u8]) -> io::Result<()> {
    for b in s {
        print!(rt; "{b:02x}")?;
    }
    Ok(())
}

fn print_number(rt: &impl Print, refusal: Refusal) -> io::Result<()> {
    let number = u32::from(refusal);
    print!(rt; "{number} ")
}

fn print_message(rt: &impl Print, m: Message) -> io::Result<()> {
    let slot = m.slot.0;
    print!(rt; "{slot} ")?;
    match m.body {
        Body::Start {
            round: Round(round),
            sender: Member(sender),
        } => print!(rt; "START {round} {sender} "),
        Body::Join {
            round: Round(round),
            sender: Member(sender),
        } => print!(rt; "JOIN {round} {sender} "),
        Body::JoinVoted {
            round: Round(round),
            sender: Member(sender),
            voted: Round(voted),
            value,
        } => print!(rt; "JOIN {round} {sender} {voted} {value} "),
        Body::Propose {
            round: Round(round),
            sender: Member(sender),
            value,
        } => print!(rt; "PROPOSE {round} {sender} {value} "),
        Body::Vote {
            round: Round(round),
            sender: Member(sender),
        } => print!(rt; "VOTE {round} {sender} "),
    }
}

// Bytes and what they read as: the message, or the number that refuses them.
fn show(rt: &impl Print, s: &[u8], read: Result<Message, Refusal>) -> io::Result<()> {
    print_bytes(rt, s)?;
    print!(rt; " ")?;
    match read {
        Ok(m) => print_message(rt, m)?,
        Err(refusal) => print_number(rt, refusal)?,
    }
    println!(rt)
}

fn show_read(rt: &impl Print, s: &[u8]) -> io::Result<()> {
    show(rt, s, message_reader::read_message(s))
}

// What a member of slot 5 reads bytes as.
fn show_own(rt: &impl Print, s: &[u8]) -> io::Result<()> {
    show(rt, s, message_reader::read_own_message(Slot(5), s))
}

fn show_front(rt: &impl Print, s: &[u8], n: usize) -> io::Result<()> {
    if n <= s.len() {
        show_read(rt, &s[0..n])?;
    }
    Ok(())
}

// What the writer makes of a message of a slot, in a buffer that has room for any.
fn show_written(rt: &impl Print, slot: Slot, body: Body) -> io::Result<()> {
    let mut buf = [255u8; LONGEST];
    match message_writer::write_message(Message { slot, body }, &mut buf) {
        Ok(length) => show_front(rt, &buf, length),
        Err(refusal) => show_refused(rt, refusal, &buf),
    }
}

fn show_refused(rt: &impl Print, refusal: Refusal, s: &[u8]) -> io::Result<()> {
    print_number(rt, refusal)?;
    print_bytes(rt, s)?;
    println!(rt)
}

// Each kind, with fields whose bytes are all different.
fn each_kind(rt: &impl Print) -> io::Result<()> {
    let slot = Slot(5);
    let round = Round(66051);
    let sender = Member(6);
    let value = 72623859790382856;
    show_written(rt, slot, Body::Start { round, sender })?;
    show_written(rt, slot, Body::Join { round, sender })?;
    show_written(
        rt,
        slot,
        Body::JoinVoted {
            round,
            sender,
            voted: Round(1),
            value,
        },
    )?;
    show_written(
        rt,
        slot,
        Body::Propose {
            round,
            sender,
            value,
        },
    )?;
    show_written(rt, slot, Body::Vote { round, sender })
}

// A vote of its own round, one of round 0, a round of 0, a round past the last, a sender of 7.
fn out_of_range(rt: &impl Print) -> io::Result<()> {
    let slot = Slot(0);
    let sender = Member(0);
    show_written(
        rt,
        slot,
        Body::JoinVoted {
            round: Round(2),
            sender,
            voted: Round(2),
            value: 0,
        },
    )?;
    show_written(
        rt,
        slot,
        Body::JoinVoted {
            round: Round(2),
            sender,
            voted: Round(0),
            value: 0,
        },
    )?;
    show_written(
        rt,
        slot,
        Body::Start {
            round: Round(0),
            sender,
        },
    )?;
    show_written(
        rt,
        slot,
        Body::Start {
            round: Round(1000001),
            sender,
        },
    )?;
    show_written(
        rt,
        slot,
        Body::Vote {
            round: Round(1000000),
            sender: Member(7),
        },
    )
}

// The last slot; the one behind it, with fields in range and with a round of 0 too.
fn slots_written(rt: &impl Print) -> io::Result<()> {
    let sender = Member(0);
    let round = Round(5);
    show_written(rt, Slot(7), Body::Vote { round, sender })?;
    show_written(rt, Slot(8), Body::Vote { round, sender })?;
    show_written(
        rt,
        Slot(8),
        Body::Vote {
            round: Round(0),
            sender,
        },
    )
}

// Under 8 bytes; a kind of 0 and of 5; a JOIN of 16 bytes and of 20; one with presence 2, of 20 and of 21 bytes; one with presence 1 that ends
// there; trailing bytes; the low byte first.
fn damaged(rt: &impl Print) -> io::Result<()> {
    show_read(rt, &[0, 0, 0, 0, 0, 0, 0])?;
    show_read(rt, &[0, 0, 0, 0, 0, 0, 0, 0])?;
    show_read(rt, &[0, 0, 0, 0, 0, 0, 0, 5, 0, 0, 0, 5, 0, 0, 0, 0])?;
    show_read(rt, &[0, 0, 0, 0, 0, 0, 0, 2, 0, 0, 0, 5, 0, 0, 0, 0])?;
    show_read(
        rt,
        &[0, 0, 0, 0, 0, 0, 0, 2, 0, 0, 0, 5, 0, 0, 0, 0, 0, 0, 0, 0],
    )?;
    show_read(
        rt,
        &[0, 0, 0, 0, 0, 0, 0, 2, 0, 0, 0, 5, 0, 0, 0, 0, 0, 0, 0, 2],
    )?;
    show_read(
        rt,
        &[
            0, 0, 0, 0, 0, 0, 0, 2, 0, 0, 0, 5, 0, 0, 0, 0, 0, 0, 0, 2, 0,
        ],
    )?;
    show_read(
        rt,
        &[0, 0, 0, 0, 0, 0, 0, 2, 0, 0, 0, 5, 0, 0, 0, 0, 0, 0, 0, 1],
    )?;
    show_read(
        rt,
        &[
            0, 0, 0, 0, 0, 0, 0, 2, 0, 0, 0, 5, 0, 0, 0, 0, 0, 0, 0, 0, 0,
        ],
    )?;
    show_read(rt, &[0, 0, 0, 0, 0, 0, 0, 1, 0, 0, 0, 5, 0, 0, 0, 0, 0])?;
    show_read(rt, &[0, 0, 0, 0, 1, 0, 0, 0, 5, 0, 0, 0, 0, 0, 0, 0])
}

// The last slot; the one behind it, with a kind and with none; 7 bytes, of a slot that is none.
fn slots_read(rt: &impl Print) -> io::Result<()> {
    show_read(rt, &[0, 0, 0, 7, 0, 0, 0, 1, 0, 0, 0, 5, 0, 0, 0, 0])?;
    show_read(rt, &[0, 0, 0, 8, 0, 0, 0, 1, 0, 0, 0, 5, 0, 0, 0, 0])?;
    show_read(rt, &[0, 0, 0, 8, 0, 0, 0, 0, 0, 0, 0, 5, 0, 0, 0, 0])?;
    show_read(rt, &[0, 0, 0, 8, 0, 0, 0])
}

// Its own slot; another; that with no kind; one that is none; a kind of 0 in its own; 7 bytes.
fn own_read(rt: &impl Print) -> io::Result<()> {
    show_own(rt, &[0, 0, 0, 5, 0, 0, 0, 1, 0, 0, 0, 5, 0, 0, 0, 0])?;
    show_own(rt, &[0, 0, 0, 4, 0, 0, 0, 1, 0, 0, 0, 5, 0, 0, 0, 0])?;
    show_own(rt, &[0, 0, 0, 4, 0, 0, 0, 0, 0, 0, 0, 5, 0, 0, 0, 0])?;
    show_own(rt, &[0, 0, 0, 8, 0, 0, 0, 1, 0, 0, 0, 5, 0, 0, 0, 0])?;
    show_own(rt, &[0, 0, 0, 5, 0, 0, 0, 0, 0, 0, 0, 5, 0, 0, 0, 0])?;
    show_own(rt, &[0, 0, 0, 4, 0, 0, 0])
}

fn main(rt: HostRuntime) -> io::Result<()> {
    each_kind(&rt)?;
    out_of_range(&rt)?;
    slots_written(&rt)?;
    damaged(&rt)?;
    slots_read(&rt)?;
    own_read(&rt)
}
