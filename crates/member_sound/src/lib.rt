// Which member records are sound (01, "Members"; 02, ticket 6); else number 17.
#![tactic(auto)]

ghost use Rattle.std.specs.Prelude.{◌≡◌, ◌≤◌};
ghost use Rattle.member_record.specs.Record.{sound_durable, sound_flags, sound_idle, sound_count, sound_leading, sound_lead, sound};

use ids::{Round, above_range};
use member_record::{
    DECIDED, Durable, IDLE, Lead, MemberState, Who, count_below, count_flags, is_leader, needed,
    who_sound,
};

// V is at most J, J at most the last round, and V is 0 only with W 0.
fn durable_sound(d: Durable) -> bool
    ensures { result ≡ sound_durable d }
{
    d.voted <= d.joined && !above_range(d.joined.0 as u64) && (d.voted != Round(0) || d.vote == 0)
}

// Flags from N on are false: as many are counted below N as in all.
#[tactic(auto, using(member_record::proofs::Flags::counts_agree))]
fn flags_sound(who: Who, l: Lead) -> bool
    requires { who.n ≤ 7 }
    ensures { result ≡ sound_flags who l }
{
    count_below(l.flags, who.n as usize) == count_below(l.flags, 7)
}

// L is 0: idle, X and B are 0, no flag.
fn idle_sound(l: Lead) -> bool
    ensures { result ≡ sound_idle l }
{
    l.phase == IDLE && l.value == 0 && l.source == Round(0) && count_flags(l.flags) == 0
}

// Fewer flags than needed while they are counted, as many once it is decided.
fn count_sound(who: Who, l: Lead) -> bool
    ensures { result ≡ sound_count who l }
{
    let counted = count_flags(l.flags);
    let full = needed(who, l.phase);
    if l.phase == DECIDED {
        counted == full
    } else {
        counted < full
    }
}

// L isn't 0: not idle, L in range and led by this member, B below L, and the flags that the phase allows.
fn leading_sound(m: MemberState) -> bool
    requires { 1 ≤ m.who.n }
    ensures { result ≡ sound_leading m }
{
    m.lead.phase != IDLE
        && !above_range(m.durable.led.0 as u64)
        && is_leader(m.who.n, m.who.me, m.durable.led)
        && m.lead.source < m.durable.led
        && count_sound(m.who, m.lead)
}

// Idle exactly when L is 0.
fn lead_sound(m: MemberState) -> bool
    requires { 1 ≤ m.who.n }
    ensures { result ≡ sound_lead m }
{
    if m.durable.led == Round(0) {
        idle_sound(m.lead)
    } else {
        leading_sound(m)
    }
}

// Sound (01, "Members"; 02, ticket 6); else number 17.
#[tactic(auto, unfolding(member_record::specs::Record::sound))]
pub fn is_sound(m: MemberState) -> bool
    ensures { result ≡ sound m }
{
    who_sound(m.who.slot, m.who.me, m.who.n)
        && m.lead.phase <= DECIDED
        && durable_sound(m.durable)
        && flags_sound(m.who, m.lead)
        && lead_sound(m)
}
