// Play (01, "Play"; 02, ticket 6): a list of events over a whole office, in lent memory.
#![tactic(auto)]

ghost use Rattle.play_run.specs.Lent.{as_lent};
ghost use Rattle.play.specs.Promise.{answer_of, Given};

use numbers::Refusal;
use play_run::Played;

// Plays a list of events over an office: list, store, tables and answers are lent. `nodes` holds the tables of the eight slots one after another, and
// `lengths` how many words each has.
pub fn play(
    list: &[u8],
    messages: &mut [u8],
    nodes: &mut [u64],
    lengths: &[usize; 8],
    answered: &mut [u8],
) -> Result<Played, Refusal>
    ensures { Given list.now lengths.now (as_lent messages.old nodes.old answered.old) (answer_of result)
        (as_lent messages.new nodes.new answered.new) }
{
    if !play_events::list_fits(list) {
        return Err(Refusal::ListShape);
    }
    let head = play_events::read_head(list);
    if !member_record::is_allowed(head.members) {
        return Err(Refusal::OfficeSize);
    }
    if !play_store::has_store_length(messages) {
        return Err(Refusal::StoreOrAnswers);
    }
    if answered.len() < head.count as usize {
        return Err(Refusal::StoreOrAnswers);
    }
    play_tables::check_lengths(lengths, nodes)?;
    play_tables::fresh_tables(nodes, lengths);
    play_store::clear(messages);
    Ok(play_run::run(list, messages, nodes, lengths, answered))
}
