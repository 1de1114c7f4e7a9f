// Event lists (01, "Play"; 02, ticket 6): the head, which is N and the event count, then the events. Both are read here alone.
#![tactic(auto)]

ghost use Rattle.std.specs.Prelude.{◌≡◌, ◌≤◌, length};
ghost use Rattle.play_events.specs.List.{HEAD_BYTES, DELIVER_BYTES, event_kind, event_size, head_of, exact, body, list_fits};
ghost use Rattle.play_events.specs.Told.{kind_told, size_told};
ghost use Rattle.play_events.specs.Value.{ReadsEvent};

use ids::{Member, Round, Slot};

const HEAD_BYTES: usize = 8;

// Where an event's kind and its slot stand.
const EVENT_KIND_PLACE: usize = 0;

const EVENT_SLOT_PLACE: usize = 4;

// The kinds of events, by their numbers.
#[derive(Clone, Copy, Debug, PartialEq, Eq)]
enum EventKind {
    Start = 1,
    Deliver = 2,
}

// The bytes of a start: kind, slot, member, round, offer.
const START_BYTES: usize = 24;

// The bytes of a delivery: kind, slot, message number, member.
const DELIVER_BYTES: usize = 16;

// No list has more events.
pub const MOST_EVENTS: usize = 1000;

// The longest list that fits: so many starts.
pub const LONGEST_LIST: usize = HEAD_BYTES + START_BYTES * MOST_EVENTS;

// N, the event count, and where the events begin.
#[derive(Clone, Copy)]
pub struct ListHead {
    pub members: u32,
    pub count: u32,
    pub begin: usize,
}

// An event of a slot by value.
#[derive(Clone, Copy)]
pub enum PlayEvent {
    Start {
        member: Member,
        round: Round,
        offer: u64,
    },
    Deliver {
        message: u32,
        member: Member,
    },
}

// An event's slot, the event, and how many bytes it takes.
#[derive(Clone, Copy)]
pub struct EventRead {
    pub slot: Slot,
    pub event: PlayEvent,
    pub size: usize,
}

pub fn read_head(list: &[u8]) -> ListHead
    requires { HEAD_BYTES ≤ length list.now }
    ensures { result ≡ head_of list.now }
{
    ListHead {
        members: xdr::word_at(list, 0),
        count: xdr::word_at(list, 4),
        begin: HEAD_BYTES,
    }
}

// The kind of the event at the front, if it is one of the two.
fn kind_at(rest: &[u8]) -> Option<EventKind>
    requires { DELIVER_BYTES ≤ length rest.now }
    ensures { result ≡ kind_told (event_kind rest.now) }
{
    match xdr::word_at(rest, EVENT_KIND_PLACE) {
        1 => Some(EventKind::Start),
        2 => Some(EventKind::Deliver),
        _ => None,
    }
}

// How many bytes the event at the front takes, if there is one.
#[tactic(auto, unfolding(crate::specs::List::event_size))]
fn event_size(rest: &[u8]) -> Option<usize>
    ensures { result ≡ size_told (event_size rest.now) }
{
    if rest.len() < DELIVER_BYTES {
        return None;
    }
    let size = match kind_at(rest)? {
        EventKind::Start => START_BYTES,
        EventKind::Deliver => DELIVER_BYTES,
    };
    if rest.len() < size {
        return None;
    }
    Some(size)
}

// The event at the front.
#[tactic(auto, using(crate::proofs::Sizes::room, crate::proofs::Sizes::start_room, crate::proofs::Sizes::size_start, crate::proofs::Sizes::size_else), unfolding(crate::specs::List::event_at))]
pub fn read_event(rest: &[u8]) -> EventRead
    requires { event_size rest.now ≡ 0 → ⊥ }
    ensures { ReadsEvent rest.now result }
{
    let slot = xdr::word_at(rest, EVENT_SLOT_PLACE);
    if kind_at(rest) == Some(EventKind::Start) {
        return EventRead {
            slot: Slot(slot),
            event: PlayEvent::Start {
                member: Member(xdr::word_at(rest, 8)),
                round: Round(xdr::word_at(rest, 12)),
                offer: xdr::hyper_at(rest, 16),
            },
            size: START_BYTES,
        };
    }
    EventRead {
        slot: Slot(slot),
        event: PlayEvent::Deliver {
            member: Member(xdr::word_at(rest, 12)),
            message: xdr::word_at(rest, 8),
        },
        size: DELIVER_BYTES,
    }
}

// Whether `count` events fill the list behind its head exactly.
fn events_fill(list: &[u8], count: u32) -> bool
    requires { HEAD_BYTES ≤ length list.now }
    ensures { result ≡ exact count (body list.now) }
{
    let mut at = HEAD_BYTES;
    for k in 0..count {
        let Some(size) = event_size(&list[at..]) else {
            return false;
        };
        at += size;
    }
    at == list.len()
}

// Whether the bytes, the count and the kinds match, with at most 1,000 events (number 26).
#[tactic(auto, unfolding(crate::specs::List::list_fits))]
pub fn list_fits(list: &[u8]) -> bool
    ensures { result ≡ list_fits list.now }
{
    if list.len() < HEAD_BYTES {
        return false;
    }
    let count = read_head(list).count;
    if MOST_EVENTS < count as usize {
        return false;
    }
    events_fill(list, count)
}
