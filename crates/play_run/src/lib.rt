// The events of a list that play takes, one after another (01, "Play"; 02, ticket 6).
#![tactic(auto)]

ghost use Rattle.play_effects.specs.Effects.{effect_of};
ghost use Rattle.play_run.specs.Answer.{taken_answer};
ghost use Rattle.play_run.specs.Lent.{as_lent};
ghost use Rattle.play_run.specs.Ran.{SettleBefore, PartSettled, Ready, Ran};

use ids::Slot;
use member::StepAnswer;
use numbers::Refusal;
use play_effects::Tally;
use play_office::event::{place, record_of, step_event, table_slot};
use play_office::{RECORDS, fresh_tally, lead_of, no_lead, no_rounds, rounds_of, settle};

// What the events of a list came to.
#[derive(Clone, Copy, Debug, PartialEq, Eq)]
pub struct Played {
    pub accepted: u32,
    pub messages: u32,
    pub proposals: u32,
    pub decisions: u32,
    pub ghosts: u32,
}

// What an answer comes to, on the table that stands from one place of the words to another, which is lent alone.
fn settle_part(
    tally: Tally,
    slot: Slot,
    a: StepAnswer,
    messages: &mut [u8],
    nodes: &mut [u64],
    from: usize,
    to: usize,
) -> Result<Tally, Refusal>
    requires { SettleBefore tally slot a from to messages.old nodes.old }
    ensures { PartSettled tally slot a from to messages.old nodes.old (effect_of tally result) messages.new nodes.new }
{
    settle(tally, slot, a, messages, &mut nodes[from..to])
}

// What is lent is lent one by one, as C lends it.
// Works the events one after another, on a cleared store and fresh tables; the rest of the list is handed on from where each event ends.
pub fn run(
    list: &[u8],
    messages: &mut [u8],
    nodes: &mut [u64],
    lengths: &[usize; 8],
    answered: &mut [u8],
) -> Played
    requires { Ready list.now lengths.now (as_lent messages.old nodes.old answered.old) }
    ensures { Ran list.now lengths.now (as_lent messages.old nodes.old answered.old) (taken_answer result)
        (as_lent messages.new nodes.new answered.new) }
{
    let head = play_events::read_head(list);
    let count = head.count as usize;
    let mut tally = fresh_tally(head.members);
    let none = no_rounds();
    let mut rounds = [none; RECORDS];
    let idle = no_lead();
    let mut leads = [idle; RECORDS];
    let starts = play_tables::starts_of(lengths);
    let mut accepted = 0;
    let mut at = head.begin;
    for k in 0..count {
        let r = play_events::read_event(&list[at..]);
        at += r.size;
        let slot = r.slot;
        let e = r.event;
        let i = place(slot, e);
        let held = rounds[i];
        let leading = leads[i];
        let m = record_of(tally.n, slot, e, held, leading);
        let t = table_slot(slot);
        let from = starts[t];
        let to = from + lengths[t];
        let s = step_event(tally, m, slot, e, messages);
        answered[k] = match settle_part(tally, slot, s.answer, messages, nodes, from, to) {
            Ok(after) => {
                rounds[i] = rounds_of(s.state);
                leads[i] = lead_of(s.state);
                accepted += 1;
                tally = after;
                0
            }
            Err(refusal) => u8::from(refusal),
        };
    }
    Played {
        accepted,
        messages: tally.sent as u32,
        proposals: tally.proposals as u32,
        decisions: tally.decisions as u32,
        ghosts: tally.ghosts,
    }
}
