// What the events of the member table of 01, "Members", change of the record where they aren't refused, and the JOIN that is sent.
ghost use Rattle.std.specs.Prelude.{◌≡◌, ◌<◌};
ghost use Rattle.member_rules.specs.Changes.{starting, joining, join_of, counting, adopted, adopting, proposing, voting, deciding};

use ids::{Member, Round};
use member_record::{COLLECTING, DECIDED, Durable, Lead, MemberState, PROPOSED};
use message::Body;

// start(r, offer): the leader of round r in phase 1.
pub fn starting(m: MemberState, r: Round, offer: u64) -> MemberState
    ensures { result ≡ starting m r offer }
{
    let durable = Durable {
        led: r,
        ..m.durable
    };
    let lead = Lead {
        phase: COLLECTING,
        value: offer,
        source: Round(0),
        flags: [false; 7],
    };
    MemberState { durable, lead, ..m }
}

// START r is joined.
pub fn joining(m: MemberState, r: Round) -> MemberState
    ensures { result ≡ joining m r }
{
    MemberState {
        durable: Durable {
            joined: r,
            ..m.durable
        },
        ..m
    }
}

// The JOIN of round r: with the last vote, if there was one.
pub fn join_message(m: MemberState, r: Round) -> Body
    ensures { result ≡ join_of m.who.me m.durable r }
{
    if Round(0) < m.durable.voted {
        Body::JoinVoted {
            round: r,
            sender: m.who.me,
            voted: m.durable.voted,
            value: m.durable.vote,
        }
    } else {
        Body::Join {
            round: r,
            sender: m.who.me,
        }
    }
}

// JOIN and VOTE flag the sender.
pub fn counting(m: MemberState, s: Member) -> MemberState
    requires { s.0 < 7 }
    ensures { result ≡ counting m s }
{
    let mut lead = m.lead;
    lead.flags[s.0 as usize] = true;
    MemberState { lead, ..m }
}

// The vote for w in round q replaces B and X.
fn adopted(m: MemberState, q: Round, w: u64) -> MemberState
    ensures { result ≡ adopted m q w }
{
    let lead = Lead {
        value: w,
        source: q,
        ..m.lead
    };
    MemberState { lead, ..m }
}

// A JOIN with a vote for w in round q: a voted round above B replaces B and X.
#[tactic(auto, unfolding(crate::specs::Changes::adopting))]
pub fn adopting(m: MemberState, q: Round, w: u64) -> MemberState
    ensures { result ≡ adopting m q w }
{
    if m.lead.source < q {
        adopted(m, q, w)
    } else {
        m
    }
}

// The quorum of joins: phase 2, the flags cleared for the votes.
pub fn proposing(m: MemberState) -> MemberState
    ensures { result ≡ proposing m }
{
    let flags = [false; 7];
    let lead = Lead {
        phase: PROPOSED,
        flags,
        ..m.lead
    };
    MemberState { lead, ..m }
}

// PROPOSE r, v is voted for.
pub fn voting(m: MemberState, r: Round, v: u64) -> MemberState
    ensures { result ≡ voting m r v }
{
    let durable = Durable {
        joined: r,
        voted: r,
        vote: v,
        ..m.durable
    };
    MemberState { durable, ..m }
}

// The quorum of votes: phase 3.
pub fn deciding(m: MemberState) -> MemberState
    ensures { result ≡ deciding m }
{
    MemberState {
        lead: Lead {
            phase: DECIDED,
            ..m.lead
        },
        ..m
    }
}
