// A member record as numbers, for C: any bytes that a host puts there are some numbers.
#![tactic(auto)]

ghost use Rattle.std.specs.Prelude.{◌≡◌};
ghost use Rattle.member_fields.specs.Fields.{bit, flags_of, mask_of, no_mask, state_of, fields_of};

use ids::{Member, Round, Slot};
use member_record::{Durable, Lead, MemberState, Who};

// A member record as numbers, in 01's order, and its slot behind them (02, ticket 6). No byte stands between them; four that say nothing stand behind the last.
#[repr(C)]
#[derive(Clone, Copy, Default)]
pub struct MemberFields {
    pub me: u32,
    pub n: u32,
    pub joined: u32,
    pub voted: u32,
    pub vote: u64,
    pub led: u32,
    pub phase: u32,
    pub value: u64,
    pub source: u32,
    // Bit s is the flag of member s; from bit 7 on there is none.
    pub flags: u32,
    pub slot: u32,
}

// The lowest bit of a number.
fn bit(mask: u32) -> bool
    ensures { result ≡ bit mask }
{
    mask % 2 == 1
}

// Bit s of a mask is the flag of member s.
fn flags_of(mask: u32) -> [bool; 7]
    ensures { result ≡ flags_of mask }
{
    let mut flags = [false; 7];
    for (s, flag) in flags.iter_mut().enumerate() {
        *flag = bit(mask >> s);
    }
    flags
}

// The mask whose bit s is the flag of member s.
fn mask_of(flags: [bool; 7]) -> u32
    ensures { result ≡ mask_of flags }
{
    let mut mask: u32 = 0;
    for (s, flag) in flags.iter().enumerate() {
        if *flag {
            mask += 1 << s;
        }
    }
    mask
}

// The record that numbers stand for.
impl From<MemberFields> for MemberState {
    ghost from_gives = { λ f m. m ≡ state_of f };

    #[tactic(auto, unfolding(crate::specs::Fields::state_of))]
    fn from(f: MemberFields) -> MemberState {
        MemberState {
            who: Who {
                slot: Slot(f.slot),
                me: Member(f.me),
                n: f.n,
            },
            durable: Durable {
                joined: Round(f.joined),
                voted: Round(f.voted),
                vote: f.vote,
                led: Round(f.led),
            },
            lead: Lead {
                phase: f.phase,
                value: f.value,
                source: Round(f.source),
                flags: flags_of(f.flags),
            },
        }
    }
}

// The numbers of a record.
impl From<MemberState> for MemberFields {
    ghost from_gives = { λ m f. f ≡ fields_of m };

    #[tactic(auto, unfolding(crate::specs::Fields::fields_of))]
    fn from(m: MemberState) -> MemberFields {
        MemberFields {
            me: m.who.me.0,
            n: m.who.n,
            joined: m.durable.joined.0,
            voted: m.durable.voted.0,
            vote: m.durable.vote,
            led: m.durable.led.0,
            phase: m.lead.phase,
            value: m.lead.value,
            source: m.lead.source.0,
            flags: mask_of(m.lead.flags),
            slot: m.who.slot.0,
        }
    }
}

// Whether a bit is set that is no member's.
pub fn no_mask(mask: u32) -> bool
    ensures { result ≡ no_mask mask }
{
    127 < mask
}
