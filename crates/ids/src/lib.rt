// Round numbers, member numbers and slot numbers, three types that can't stand for one another (01, "Members"; 02, ticket 6), and the map from
// rounds to members.
#![tactic(auto)]

ghost use Rattle.std.specs.Prelude.{◌≡◌, not, ◌<◌, ◌%◌};
ghost use Rattle.ids.specs.Ranges.{above_range, out_of_range, no_slot};

#[repr(C)]
#[derive(Clone, Copy, Debug, PartialEq, Eq, PartialOrd, Ord)]
pub struct Round(pub u32);

#[repr(C)]
#[derive(Clone, Copy, Debug, PartialEq, Eq, PartialOrd, Ord)]
pub struct Member(pub u32);

// Which of an office's password sets: 0 to 7.
#[repr(C)]
#[derive(Clone, Copy, Debug, PartialEq, Eq, PartialOrd, Ord)]
pub struct Slot(pub u32);

// An office has so many slots.
pub const SLOTS: usize = 8;

const LAST_SLOT: Slot = Slot(7);

// Whether a slot is none of 0 to 7.
pub fn no_slot(s: Slot) -> bool
    ensures { result ≡ no_slot s.0 }
{
    LAST_SLOT < s
}

const LAST_ROUND: u64 = 1000000;

// Whether a number is above every round.
pub fn above_range(x: u64) -> bool
    ensures { result ≡ above_range x }
{
    LAST_ROUND < x
}

// Whether a number, as a word of a table holds it, is a round: one of 1 to 1,000,000.
pub fn number_in_range(x: u64) -> bool
    ensures { result ≡ not (out_of_range x) }
{
    x != 0 && !above_range(x)
}

// Whether a round is one of 1 to 1,000,000.
pub fn in_range(r: Round) -> bool
    ensures { result ≡ not (out_of_range r.0) }
{
    number_in_range(r.0 as u64)
}

// The leader of round r in an office of n members: r mod n.
pub fn leader(r: Round, n: u32) -> Member
    requires { 0 < n }
    ensures { result.0 ≡ r.0 % n }
{
    Member(r.0 % n)
}
