// The C functions that the host calls: play, the message reader and the calls of both kinds of trees, thin over the proved crates. A slice passes as
// a pointer and a count of elements. A number is 0 for OK, else a refusal. Results are structs of numbers and each kind of tree has its names, as C wants them.
#![tactic(auto)]

ghost use Rattle.std.specs.Prelude.{◌≡◌, true, false};
ghost use Rattle.numbers.specs.Numbers.{refusal_number};
ghost use Rattle.tree_theory.specs.Machine.{add, commit};
ghost use Rattle.tree_theory.specs.Table.{fresh_number, fresh_table};
ghost use Rattle.tree.specs.Promises.{CalledOnTable, CountedOnTable, Previewed, PathGiven};
ghost use Rattle.ids.specs.Ranges.{no_slot};
ghost use Rattle.message.specs.Kinds.{kind_number};
ghost use Rattle.message.specs.Reading.{reading};
ghost use Rattle.play_run.specs.Lent.{as_lent};
ghost use Rattle.play.specs.Promise.{answer_of, Given};
ghost use Rattle.exports.specs.Results.{as_play_answer, AddIs, voteless, message_result, refused_result, read_result};

use ids::{Member, Round, Slot};
use message::{Body, Kind, Message};
use numbers::Refusal;
use play_run::Played;

// The version of the C functions, one number for both archives. It goes up with each change that a caller of either sees.
const VERSION: u32 = 6;

#[unsafe(no_mangle)]
pub extern "C" fn kalebasin_version() -> u32
    ensures { result ≡ 6 }
{
    VERSION
}

// With a refusal each count is 0.
#[repr(C)]
#[derive(Clone, Copy, Debug, PartialEq, Eq)]
pub struct PlayResult {
    pub number: u32,
    pub accepted: u32,
    pub messages: u32,
    pub proposals: u32,
    pub decisions: u32,
    pub ghosts: u32,
}

impl From<Result<Played, Refusal>> for PlayResult {
    ghost from_gives = { λ answer r. as_play_answer r ≡ answer_of answer };

    fn from(answer: Result<Played, Refusal>) -> PlayResult {
        match answer {
            Ok(p) => PlayResult {
                number: 0,
                accepted: p.accepted,
                messages: p.messages,
                proposals: p.proposals,
                decisions: p.decisions,
                ghosts: p.ghosts,
            },
            Err(refusal) => PlayResult {
                number: u32::from(refusal),
                accepted: 0,
                messages: 0,
                proposals: 0,
                decisions: 0,
                ghosts: 0,
            },
        }
    }
}

// Plays a list of events over an office: list, store, tables and answers are lent. `nodes` holds the tables of the eight slots one after another, and
// `lengths` how many words each has.
#[unsafe(no_mangle)]
pub extern "C" fn kalebasin_play(
    list: &[u8],
    messages: &mut [u8],
    nodes: &mut [u64],
    lengths: &[usize; 8],
    answered: &mut [u8],
) -> PlayResult
    ensures { Given list.now lengths.now (as_lent messages.old nodes.old answered.old)
        (as_play_answer result) (as_lent messages.new nodes.new answered.new) }
{
    PlayResult::from(play::play(list, messages, nodes, lengths, answered))
}

// A field that the kind doesn't have is 0; with a refusal all but the number.
#[repr(C)]
#[derive(Clone, Copy)]
pub struct MessageResult {
    pub number: u32,
    pub slot: u32,
    // 1 START, 2 JOIN, 3 PROPOSE, 4 VOTE.
    pub kind: u32,
    pub round: u32,
    pub sender: u32,
    // 1 for a JOIN with a vote.
    pub present: u32,
    pub voted: u32,
    pub value: u64,
}

// A message that tells no vote.
fn voteless(slot: Slot, kind: Kind, round: Round, sender: Member, value: u64) -> MessageResult
    ensures { result ≡ voteless slot (kind_number kind) round sender value }
{
    MessageResult {
        number: 0,
        slot: slot.0,
        kind: u32::from(kind),
        round: round.0,
        sender: sender.0,
        present: 0,
        voted: 0,
        value,
    }
}

// The fields of a message.
fn message_result(m: Message) -> MessageResult
    ensures { result ≡ message_result m }
{
    let slot = m.slot;
    match m.body {
        Body::Start { round, sender } => voteless(slot, Kind::Start, round, sender, 0),
        Body::Join { round, sender } => voteless(slot, Kind::Join, round, sender, 0),
        Body::JoinVoted {
            round,
            sender,
            voted,
            value,
        } => MessageResult {
            number: 0,
            slot: slot.0,
            kind: u32::from(Kind::Join),
            round: round.0,
            sender: sender.0,
            present: 1,
            voted: voted.0,
            value,
        },
        Body::Propose {
            round,
            sender,
            value,
        } => voteless(slot, Kind::Propose, round, sender, value),
        Body::Vote { round, sender } => voteless(slot, Kind::Vote, round, sender, 0),
    }
}

// A refusal's number alone.
fn refused_result(refusal: Refusal) -> MessageResult
    ensures { result ≡ refused_result (refusal_number refusal) }
{
    MessageResult {
        number: u32::from(refusal),
        slot: 0,
        kind: 0,
        round: 0,
        sender: 0,
        present: 0,
        voted: 0,
        value: 0,
    }
}

// Reads one message, neither more nor fewer bytes, of any slot that there is.
#[unsafe(no_mangle)]
pub extern "C" fn kalebasin_read_message(s: &[u8]) -> MessageResult
    ensures { result ≡ read_result (reading no_slot s.now) }
{
    match message_reader::read_message(s) {
        Ok(m) => message_result(m),
        Err(refusal) => refused_result(refusal),
    }
}

// Makes a table fresh, for either kind of tree.
#[unsafe(no_mangle)]
pub extern "C" fn kalebasin_tree_fresh(nodes: &mut [u64]) -> u32
    ensures number { result ≡ fresh_number nodes.old }
    ensures left { nodes.new ≡ fresh_table nodes.old }
{
    numbers::number_of(tree::fresh(nodes))
}

// How many rounds are ADDED before an add and GHOST after it, of a preview before and after the add that it shows; 0 with a refusal.
#[repr(C)]
#[derive(Clone, Copy, Debug, PartialEq, Eq)]
pub struct AddResult {
    pub number: u32,
    pub ghosts: u32,
}

impl From<Result<u32, Refusal>> for AddResult {
    ghost from_gives = { AddIs };

    fn from(answer: Result<u32, Refusal>) -> AddResult {
        AddResult {
            number: numbers::number_of(answer),
            ghosts: answer.unwrap_or(0),
        }
    }
}

// add(round, value, parent) of either kind of tree.
fn add_result<const VALUED: bool>(
    nodes: &mut [u64],
    round: u32,
    value: u64,
    parent: u32,
) -> AddResult
    ensures { CountedOnTable VALUED nodes.old (add round value parent) result.number result.ghosts nodes.new }
{
    let added = tree::add::<VALUED>(nodes, Round(round), value, Round(parent));
    AddResult::from(added)
}

#[unsafe(no_mangle)]
pub extern "C" fn kalebasin_tree_add(
    nodes: &mut [u64],
    round: u32,
    value: u64,
    parent: u32,
) -> AddResult
    ensures { CountedOnTable true nodes.old (add round value parent) result.number result.ghosts nodes.new }
{
    add_result::<true>(nodes, round, value, parent)
}

// What add(round, value, parent) would make of a table of either kind, made in a second one (02, ticket 5).
fn preview_result<const VALUED: bool>(
    nodes: &[u64],
    second: &mut [u64],
    round: u32,
    value: u64,
    parent: u32,
) -> AddResult
    ensures { Previewed VALUED nodes.now second.old (add round value parent) result.number result.ghosts
        nodes.now second.new }
{
    let shown = tree::preview::<VALUED>(nodes, second, Round(round), value, Round(parent));
    AddResult::from(shown)
}

#[unsafe(no_mangle)]
pub extern "C" fn kalebasin_tree_preview(
    nodes: &[u64],
    second: &mut [u64],
    round: u32,
    value: u64,
    parent: u32,
) -> AddResult
    ensures { Previewed true nodes.now second.old (add round value parent) result.number result.ghosts
        nodes.now second.new }
{
    preview_result::<true>(nodes, second, round, value, parent)
}

#[unsafe(no_mangle)]
pub extern "C" fn kalebasin_tree_commit(nodes: &mut [u64], round: u32) -> u32
    ensures { CalledOnTable true nodes.old (commit round) result nodes.new }
{
    numbers::number_of(tree::commit::<true>(nodes, Round(round)))
}

#[unsafe(no_mangle)]
pub extern "C" fn kalebasin_command_add(
    nodes: &mut [u64],
    round: u32,
    value: u64,
    parent: u32,
) -> AddResult
    ensures { CountedOnTable false nodes.old (add round value parent) result.number result.ghosts nodes.new }
{
    add_result::<false>(nodes, round, value, parent)
}

#[unsafe(no_mangle)]
pub extern "C" fn kalebasin_command_preview(
    nodes: &[u64],
    second: &mut [u64],
    round: u32,
    value: u64,
    parent: u32,
) -> AddResult
    ensures { Previewed false nodes.now second.old (add round value parent) result.number result.ghosts
        nodes.now second.new }
{
    preview_result::<false>(nodes, second, round, value, parent)
}

#[unsafe(no_mangle)]
pub extern "C" fn kalebasin_command_commit(nodes: &mut [u64], round: u32) -> u32
    ensures { CalledOnTable false nodes.old (commit round) result nodes.new }
{
    numbers::number_of(tree::commit::<false>(nodes, Round(round)))
}

// With a refusal the count is 0.
#[repr(C)]
#[derive(Clone, Copy)]
pub struct PathResult {
    pub number: u32,
    pub count: u32,
}

// path(round) of either kind of tree: the rounds from the root to this one, written from the first word.
#[tactic(auto, using(crate::proofs::PathCount::count_fits))]
fn path_result<const VALUED: bool>(nodes: &[u64], round: u32, out: &mut [u64]) -> PathResult
    ensures { PathGiven VALUED nodes.now round out.old result.number result.count out.new }
{
    let given = tree::path::<VALUED>(nodes, Round(round), out);
    PathResult {
        number: numbers::number_of(given),
        count: given.unwrap_or(0) as u32,
    }
}

#[unsafe(no_mangle)]
pub extern "C" fn kalebasin_tree_path(nodes: &[u64], round: u32, out: &mut [u64]) -> PathResult
    ensures { PathGiven true nodes.now round out.old result.number result.count out.new }
{
    path_result::<true>(nodes, round, out)
}

#[unsafe(no_mangle)]
pub extern "C" fn kalebasin_command_path(nodes: &[u64], round: u32, out: &mut [u64]) -> PathResult
    ensures { PathGiven false nodes.now round out.old result.number result.count out.new }
{
    path_result::<false>(nodes, round, out)
}
