// The further refusals of the member table of 01, "Members": for each event, the first whose cause holds. START's 22 is that of 02, Ticket 2.
ghost use Rattle.std.specs.Prelude.{◌≡◌, ◌≤◌};
ghost use Rattle.laws.specs.First.{first};
ghost use Rattle.numbers.specs.Numbers.{number_of};
ghost use Rattle.member_rules.specs.Causes.{start_call_causes, START_late, START_causes, count_causes, other_vote, PROPOSE_causes};

use ids::{Member, Round, in_range};
use member_record::{MemberState, is_leader};
use numbers::Refusal;

// The refusals of start(r, offer).
pub fn check_start_call(m: MemberState, r: Round) -> Result<(), Refusal>
    requires { 1 ≤ m.who.n }
    ensures { number_of result ≡ first (start_call_causes m r) }
{
    if !in_range(r) {
        return Err(Refusal::RoundRange);
    }
    if !is_leader(m.who.n, m.who.me, r) {
        return Err(Refusal::NotLeader);
    }
    if r <= m.durable.led {
        return Err(Refusal::NotAboveLed);
    }
    Ok(())
}

// Whether START r comes too late: a higher round is joined, or the vote in this one is given.
fn start_late(m: MemberState, r: Round) -> bool
    ensures { result ≡ START_late m r }
{
    r < m.durable.joined || (m.durable.joined == r && m.durable.voted == r)
}

// The refusals of START r.
pub fn check_start(m: MemberState, r: Round, s: Member) -> Result<(), Refusal>
    requires { 1 ≤ m.who.n }
    ensures { number_of result ≡ first (START_causes m r s) }
{
    if !is_leader(m.who.n, s, r) {
        return Err(Refusal::WrongSender);
    }
    if start_late(m, r) {
        return Err(Refusal::MovedPast);
    }
    Ok(())
}

// The refusals of JOIN r, awaited while COLLECTING, and of VOTE r, awaited once PROPOSED.
pub fn check_count(m: MemberState, phase: u32, r: Round, s: Member) -> Result<(), Refusal>
    requires { m.who.n ≤ 7 }
    ensures { number_of result ≡ first (count_causes phase m r s) }
{
    if m.who.n <= s.0 {
        return Err(Refusal::WrongSender);
    }
    if r != m.durable.led || m.lead.phase != phase {
        return Err(Refusal::NotAwaited);
    }
    if m.lead.flags[s.0 as usize] {
        return Err(Refusal::CountedAlready);
    }
    Ok(())
}

// Whether the vote in round r went to another value.
fn voted_otherwise(m: MemberState, r: Round, v: u64) -> bool
    ensures { result ≡ other_vote m r v }
{
    m.durable.voted == r && m.durable.vote != v
}

// The refusals of PROPOSE r, v.
pub fn check_propose(m: MemberState, r: Round, s: Member, v: u64) -> Result<(), Refusal>
    requires { 1 ≤ m.who.n }
    ensures { number_of result ≡ first (PROPOSE_causes m r s v) }
{
    if !is_leader(m.who.n, s, r) {
        return Err(Refusal::WrongSender);
    }
    if r < m.durable.joined {
        return Err(Refusal::MovedPast);
    }
    if voted_otherwise(m, r, v) {
        return Err(Refusal::AnotherValue);
    }
    Ok(())
}
