// What the answer of a member's step does to the store, to the table of its slot and to what an office counts (01, "Play"): a message goes behind the
// others, a proposal is added to the table, a decision committed.
#![tactic(auto)]

ghost use Rattle.std.specs.Prelude.{◌≡◌, true, ◌<◌, ◌≤◌};
ghost use Rattle.numbers.specs.Numbers.{number_of};
ghost use Rattle.tree_theory.specs.Machine.{add, commit};
ghost use Rattle.tree_theory.specs.Table.{sized, TreeTable};
ghost use Rattle.message.specs.Fields.{message_in_range};
ghost use Rattle.play_effects.specs.Memory.{in_memory};
ghost use Rattle.play_effects.specs.Effects.{CountsFit, counted, accepted_event, effect_of, no_room_to_send, no_room_to_propose, proposal_number};
ghost use Rattle.play_effects.specs.Effects.{SendEffect, ProposalEffect, DecisionEffect};

use ids::Round;
use message::Message;
use numbers::Refusal;

// N, and of all slots how many messages were sent, proposals and decisions made, and how many rounds the proposals made GHOST.
#[derive(Clone, Copy)]
pub struct Tally {
    pub n: u32,
    pub sent: usize,
    pub proposals: usize,
    pub decisions: usize,
    pub ghosts: u32,
}

// So much more sent, proposed, decided and made GHOST.
fn counted(tally: Tally, sent: usize, proposals: usize, decisions: usize, ghosts: u32) -> Tally
    requires { CountsFit tally × (sent < 2) × (proposals < 2) × (decisions < 2) × (ghosts ≤ 256) }
    ensures { result ≡ counted tally sent proposals decisions ghosts }
{
    Tally {
        n: tally.n,
        sent: tally.sent + sent,
        proposals: tally.proposals + proposals,
        decisions: tally.decisions + decisions,
        ghosts: tally.ghosts + ghosts,
    }
}

// Whether the messages sent fill the store.
fn no_room_to_send(tally: Tally, messages: &[u8]) -> bool
    ensures { result ≡ no_room_to_send tally messages.now }
{
    numbers::no_row_left(messages.len() / play_store::ROW_LENGTH, tally.sent)
}

// Whether the last row of the slot's table isn't free: nodes stand in order of adding, so that then none is.
fn no_room_to_propose(nodes: &[u64]) -> bool
    requires { sized nodes.now ≡ true }
    ensures { result ≡ no_room_to_propose nodes.now }
{
    let last = nodes.len() / 4 - 1;
    tree_table::status_at(nodes, last) != tree_table::FREE
}

// Why a proposal is refused, by the row "last" of the place table.
fn check_proposal(tally: Tally, messages: &[u8], nodes: &[u64]) -> Result<(), Refusal>
    requires { sized nodes.now ≡ true }
    ensures { number_of result ≡ proposal_number tally (in_memory messages.now nodes.now) }
{
    let no_store_row = no_room_to_send(tally, messages);
    let no_table_row = no_room_to_propose(nodes);
    if no_store_row {
        return Err(Refusal::StoreFull);
    }
    if no_table_row {
        return Err(Refusal::NoFreeRow);
    }
    Ok(())
}

// Each of the three is lent what it writes, and no more.
// A step that sends g: the tally after it. What becomes of the member's record goes by the answer: whoever holds the records sees to it.
pub fn send(messages: &mut [u8], tally: Tally, g: Message) -> Result<Tally, Refusal>
    requires { CountsFit tally × (message_in_range g ≡ true) }
    ensures { SendEffect tally g messages.old (effect_of tally result) messages.new }
{
    if no_room_to_send(tally, messages) {
        Err(Refusal::StoreFull)
    } else {
        play_store::store_message(messages, tally.sent, g);
        Ok(counted(tally, 1, 0, 0, 0))
    }
}

// A step that sends `sent` and names add(round, value, parent).
pub fn propose(
    messages: &mut [u8],
    nodes: &mut [u64],
    tally: Tally,
    sent: Message,
    round: Round,
    value: u64,
    parent: Round,
) -> Result<Tally, Refusal>
    requires { CountsFit tally × (message_in_range sent ≡ true) × TreeTable true nodes.old }
    ensures { ProposalEffect tally sent (add round.0 value parent.0) (in_memory messages.old nodes.old)
        (effect_of tally result) (in_memory messages.new nodes.new) }
{
    check_proposal(tally, messages, nodes)?;
    play_store::store_message(messages, tally.sent, sent);
    let ghosts = tree::add_in_tree(nodes, round, value, parent).unwrap_or(0);
    Ok(counted(tally, 1, 1, 0, ghosts))
}

// A step that names commit(round): the tally after it. It is never refused.
pub fn decide(nodes: &mut [u64], tally: Tally, round: Round) -> Tally
    requires { CountsFit tally × TreeTable true nodes.old }
    ensures { DecisionEffect tally (commit round.0) nodes.old (accepted_event result) nodes.new }
{
    let _ = tree::commit_in_tree(nodes, round);
    counted(tally, 0, 0, 1, 0)
}
