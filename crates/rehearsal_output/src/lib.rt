// What the rehearsal prints (01, "Play" and "Cases from the rig"; 02, ticket 6), put into lent bytes.
#![tactic(auto)]

ghost use Rattle.std.specs.Prelude.{◌≡◌, [], ◌∷◌, ◌++◌, ◌+◌, ◌*◌, ◌≤◌, ◌<◌, length, take};
ghost use Rattle.ids.specs.Ranges.{SLOTS};
ghost use Rattle.numbers.specs.Numbers.{refusal_number};
ghost use Rattle.decimal.specs.Text.{PutText};
ghost use Rattle.tree_theory.specs.Table.{row, used};
ghost use Rattle.tree_theory.specs.Table.{nodes as nodes-of};
ghost use Rattle.rehearsal_output.specs.Output.{LINE_FEED, in_line, line, node_line, node_lines, slot_nodes, slots_lines};
ghost use Rattle.rehearsal_output.specs.Promise.{ROOM_FOR_ANSWER, ROOM_FOR_NUMBER, ROOM_FOR_NODE, ROOM_FOR_SLOT, ROOM_FOR_SLOTS, PutWithin};
ghost use Rattle.rehearsal_output.specs.Promise.{Printed, RehearsalLent, SlotFits, SlotsFit, TakenFits};

use decimal::Page;
use ids::SLOTS;
use numbers::Refusal;
use play_events::MOST_EVENTS;
use play_store::ROW_LENGTH;

const LINE_FEED: u8 = 10;

// The store's rows, and their bytes.
const STORE_ROWS: usize = 1000;

const STORE_BYTES: usize = ROW_LENGTH * STORE_ROWS;

// The rows of each slot's table, their words, and the words of all tables.
const TABLE_ROWS: usize = 64;

const TABLE_WORDS: usize = 4 * TABLE_ROWS;

const ALL_WORDS: usize = TABLE_WORDS * SLOTS;

// Room for an answer: a blank, and the three digits of a byte.
const ROOM_FOR_ANSWER: usize = 4;

// Room for a number of 64 bits: a blank, and its 20 digits.
const ROOM_FOR_NUMBER: usize = 21;

// Room for a node: four numbers and a line feed.
const ROOM_FOR_NODE: usize = 4 * ROOM_FOR_NUMBER + 1;

// Room for the nodes of a slot.
const ROOM_FOR_SLOT: usize = ROOM_FOR_NODE * TABLE_ROWS;

// Room for any output: the answers, a line feed, the nodes of all slots.
pub const ROOM_FOR_OUTPUT: usize = ROOM_FOR_ANSWER * MOST_EVENTS + 1 + ROOM_FOR_SLOT * SLOTS;

// A number of a line: the first, or behind a blank.
fn put_in_line(page: &mut Page, n: u64, first: bool)
    requires { page.old.at + length (in_line first n) ≤ length page.old.out.now }
    ensures text { PutText page.old.out.now page.old.at (in_line first n) page.new.at page.new.out.now }
    ensures same_buffer { page.new.out.ghost_name ≡ page.old.out.ghost_name }
{
    if !first {
        page.put_byte(decimal::BLANK);
    }
    page.put_decimal(n);
}

fn end_line(page: &mut Page)
    requires { page.old.at < length page.old.out.now }
    ensures text { PutText page.old.out.now page.old.at (LINE_FEED ∷ []) page.new.at page.new.out.now }
    ensures same_buffer { page.new.out.ghost_name ≡ page.old.out.ghost_name }
{
    page.put_byte(LINE_FEED);
}

// The answers on a line; an empty line where there are none.
fn put_answers(page: &mut Page, answered: &[u8])
    requires { page.old.at + ROOM_FOR_ANSWER * length answered.now < length page.old.out.now }
    ensures text { PutWithin page.old.out.now page.old.at (line answered.now) page.new.at page.new.out.now
        (ROOM_FOR_ANSWER * length answered.now + 1) }
    ensures same_buffer { page.new.out.ghost_name ≡ page.old.out.ghost_name }
{
    for i in 0..answered.len() {
        put_in_line(page, u64::from(answered[i]), i == 0);
    }
    end_line(page);
}

// Numbers on a line. Apart from the answers: one function for both needs a trait with a meaning and two impls, which is longer than this loop.
fn put_line(page: &mut Page, numbers: &[u64])
    requires { page.old.at + ROOM_FOR_NUMBER * length numbers.now < length page.old.out.now }
    ensures text { PutWithin page.old.out.now page.old.at (line numbers.now) page.new.at page.new.out.now
        (ROOM_FOR_NUMBER * length numbers.now + 1) }
    ensures same_buffer { page.new.out.ghost_name ≡ page.old.out.ghost_name }
{
    for i in 0..numbers.len() {
        put_in_line(page, numbers[i], i == 0);
    }
    end_line(page);
}

// A node on a line.
fn put_node(page: &mut Page, nodes: &[u64], i: usize)
    requires { (4 * i + 4 ≤ length nodes.now) × (page.old.at + ROOM_FOR_NODE ≤ length page.old.out.now) }
    ensures text { PutWithin page.old.out.now page.old.at (node_line (row nodes.now i)) page.new.at page.new.out.now ROOM_FOR_NODE }
    ensures same_buffer { page.new.out.ghost_name ≡ page.old.out.ghost_name }
{
    let round = tree_table::round_at(nodes, i);
    let parent = tree_table::parent_at(nodes, i);
    let value = tree_table::value_at(nodes, i);
    let status = tree_table::status_at(nodes, i);
    put_line(page, &[round, parent, value, status]);
}

// A line for each node.
fn put_nodes(page: &mut Page, nodes: &[u64])
    requires { page.old.at + ROOM_FOR_NODE * used nodes.now ≤ length page.old.out.now }
    ensures text { PutWithin page.old.out.now page.old.at (node_lines (nodes-of nodes.now)) page.new.at page.new.out.now
        (ROOM_FOR_NODE * used nodes.now) }
    ensures same_buffer { page.new.out.ghost_name ≡ page.old.out.ghost_name }
{
    for i in 0..tree_table::used_rows(nodes) {
        put_node(page, nodes, i);
    }
}

// The nodes of slot s, from the tables of all slots.
fn put_slot(page: &mut Page, nodes: &[u64], s: usize)
    requires { SlotFits nodes.now s page.old.at page.old.out.now }
    ensures text { PutWithin page.old.out.now page.old.at (node_lines (slot_nodes nodes.now s)) page.new.at page.new.out.now ROOM_FOR_SLOT }
    ensures same_buffer { page.new.out.ghost_name ≡ page.old.out.ghost_name }
{
    let from = TABLE_WORDS * s;
    let to = from + TABLE_WORDS;
    put_nodes(page, &nodes[from..to]);
}

// The nodes of all slots, slot after slot.
fn put_slots(page: &mut Page, nodes: &[u64])
    requires { SlotsFit nodes.now page.old.at page.old.out.now }
    ensures text { PutWithin page.old.out.now page.old.at (slots_lines (slot_nodes nodes.now) SLOTS) page.new.at page.new.out.now ROOM_FOR_SLOTS }
    ensures same_buffer { page.new.out.ghost_name ≡ page.old.out.ghost_name }
{
    for s in 0..SLOTS {
        put_slot(page, nodes, s);
    }
}

// A line with only a number.
fn put_refusal(page: &mut Page, refusal: Refusal)
    requires { page.old.at + ROOM_FOR_NUMBER < length page.old.out.now }
    ensures text { PutText page.old.out.now page.old.at (line (refusal_number refusal ∷ [])) page.new.at page.new.out.now }
    ensures same_buffer { page.new.out.ghost_name ≡ page.old.out.ghost_name }
{
    let number = u64::from(u32::from(refusal));
    put_line(page, &[number]);
}

// The answers, then the nodes of all slots.
fn put_taken(page: &mut Page, count: usize, answered: &[u8], nodes: &[u64])
    requires { TakenFits count answered.now nodes.now page.old.at page.old.out.now }
    ensures text { PutText page.old.out.now page.old.at
        (line (take count answered.now) ++ slots_lines (slot_nodes nodes.now) SLOTS) page.new.at page.new.out.now }
    ensures same_buffer { page.new.out.ghost_name ≡ page.old.out.ghost_name }
{
    put_answers(page, &answered[0..count]);
    put_slots(page, nodes);
}

// Plays the list in what is lent, and puts what is printed of it.
fn put_played(
    list: &[u8],
    messages: &mut [u8],
    nodes: &mut [u64],
    answered: &mut [u8],
    out: &mut [u8],
) -> usize
    requires { RehearsalLent messages.old nodes.old answered.old out.old }
    ensures { Printed list.now out.old result out.new }
{
    let lengths = [TABLE_WORDS; SLOTS];
    let mut page = Page { out, at: 0 };
    if let Err(refusal) = play::play(list, messages, nodes, &lengths, answered) {
        put_refusal(&mut page, refusal);
        return page.at;
    }
    let count = play_events::read_head(list).count as usize;
    put_taken(&mut page, count, answered, nodes);
    page.at
}

// Plays the list with 64 table rows for each slot and 1,000 store rows: puts what is printed at the front of `out`, and answers its length.
pub fn rehearse(list: &[u8], out: &mut [u8; ROOM_FOR_OUTPUT]) -> usize
    ensures { Printed list.now out.old result out.new }
{
    let mut messages = [0u8; STORE_BYTES];
    let mut nodes = [0u64; ALL_WORDS];
    let mut answered = [0u8; MOST_EVENTS];
    put_played(list, &mut messages, &mut nodes, &mut answered, out)
}
