// The member record of 01, "Members", and the fresh record. Its layout is C's, since `member_lent` takes it lent.
#![tactic(auto)]

ghost use Rattle.std.specs.Prelude.{◌≡◌, ◌≤◌};
ghost use Rattle.quorum.specs.Count.{count};
ghost use Rattle.member_record.specs.Phases.{needed};
ghost use Rattle.member_record.specs.Record.{changes_durable, allowed, leads, flag, flagged, fresh_record, sound_who};

use ids::{Member, Round, Slot, leader, no_slot};
use quorum::quorum_of;

// The phases of a leader: it has led no round yet; it counts JOINs; it has proposed and counts VOTEs; it has decided.
// Numbers, and no enum: C lends records, and one of phase 4 has to be a record, since `is_sound` refuses it.
pub const IDLE: u32 = 0;

pub const COLLECTING: u32 = 1;

pub const PROPOSED: u32 = 2;

pub const DECIDED: u32 = 3;

// Which member of which office a record is, and for which of its slots.
#[repr(C)]
#[derive(Clone, Copy, Debug, PartialEq, Eq)]
pub struct Who {
    // The slot whose messages it takes (02, ticket 6).
    pub slot: Slot,
    // Own number.
    pub me: Member,
    // N, the number of members.
    pub n: u32,
}

// What must last: a member that forgot one of these could vote or lead against what it did.
#[repr(C)]
#[derive(Clone, Copy, Debug, PartialEq, Eq)]
pub struct Durable {
    // J, the highest round joined or voted.
    pub joined: Round,
    // V, the last voted round.
    pub voted: Round,
    // W, its value.
    pub vote: u64,
    // L, the round last led.
    pub led: Round,
}

// What belongs to leading the round last led. In this order it takes the least room.
#[repr(C)]
#[derive(Clone, Copy, Debug, PartialEq, Eq)]
pub struct Lead {
    // IDLE, COLLECTING, PROPOSED or DECIDED.
    pub phase: u32,
    // B, the round that the value came from.
    pub source: Round,
    // X, the value to propose.
    pub value: u64,
    // One for each member counted.
    pub flags: [bool; 7],
}

#[repr(C)]
#[derive(Clone, Copy, Debug, PartialEq, Eq)]
pub struct MemberState {
    pub who: Who,
    pub durable: Durable,
    pub lead: Lead,
}

// Whether J, V, W or L differs.
pub fn changes_durable(before: Durable, after: Durable) -> bool
    ensures { result ≡ changes_durable before after }
{
    before != after
}

// How many flags a phase needs to end, or ended with: the quorum of the office in each.
#[tactic(auto, unfolding(crate::specs::Phases::needed))]
pub fn needed(who: Who, phase: u32) -> u32
    ensures { result ≡ needed who phase }
{
    quorum_of(who.n)
}

// How many of the members below `to` are flagged. A loop: `filter` and `count` run twice the instructions.
#[tactic(auto, unfolding(quorum::specs::Count::count))]
pub fn count_below(flags: [bool; 7], to: usize) -> u32
    requires { to ≤ 7 }
    ensures { result ≡ count (flag flags) to }
{
    let mut counted: u32 = 0;
    for flag in &flags[..to] {
        counted += u32::from(*flag);
    }
    counted
}

// How many members are flagged.
#[tactic(auto, unfolding(crate::specs::Record::flagged))]
pub fn count_flags(flags: [bool; 7]) -> u32
    ensures { result ≡ flagged flags }
{
    count_below(flags, 7)
}

// A record with its slot, its number and N given, all else zero or false.
pub fn fresh_record(slot: Slot, me: Member, n: u32) -> MemberState
    ensures { result ≡ fresh_record slot me n }
{
    let none = Round(0);
    let who = Who { slot, me, n };
    let durable = Durable {
        joined: none,
        voted: none,
        vote: 0,
        led: none,
    };
    let lead = Lead {
        phase: IDLE,
        value: 0,
        source: none,
        flags: [false; 7],
    };
    MemberState { who, durable, lead }
}

// N is 3, 5 or 7.
pub fn is_allowed(n: u32) -> bool
    ensures { result ≡ allowed n }
{
    matches!(n, 3 | 5 | 7)
}

// N is allowed, the number below it, and the slot one of 0 to 7.
pub fn who_sound(slot: Slot, me: Member, n: u32) -> bool
    ensures { result ≡ sound_who slot me n }
{
    is_allowed(n) && me.0 < n && !no_slot(slot)
}

pub fn is_leader(n: u32, s: Member, r: Round) -> bool
    requires { 1 ≤ n }
    ensures { result ≡ leads n s r }
{
    leader(r, n) == s
}
