// The tables of the eight slots (02, ticket 6): one slice of 64-bit words holds them one after another in slot order, and each has its length.
#![tactic(auto)]

ghost use Rattle.std.specs.Prelude.{◌≡◌, ◌<◌, replicate};
ghost use Rattle.ids.specs.Ranges.{SLOTS};
ghost use Rattle.numbers.specs.Numbers.{number_of};
ghost use Rattle.tree_theory.specs.Table.{fresh_table};
ghost use Rattle.play_tables.specs.Tables.{length_at, table_at, with_table, fresh_tables, first_unsized, slot_told, tables_number};
ghost use Rattle.play_tables.specs.Tables.{AllSized, StartsAt, TablesFit};

use ids::SLOTS;
use numbers::Refusal;
use tree_steps::fresh::write_root;

// The first slot, in slot order, whose length is no table's, if there is one.
#[tactic(auto, using(crate::proofs::Sizes::unsized_stop, crate::proofs::Sizes::unsized_go), unfolding(crate::specs::Tables::unsized_from))]
pub fn first_unsized(lengths: &[usize; 8]) -> Option<usize>
    ensures { result ≡ slot_told (first_unsized lengths.now) }
{
    for s in 0..SLOTS {
        if !tree_check::is_table_length(lengths[s]) {
            return Some(s);
        }
    }
    None
}

// Where each table starts.
#[tactic(auto, using(crate::proofs::Starts::starts_more, crate::proofs::Starts::starts_all, crate::proofs::Parts::start_next, crate::proofs::Sizes::start_most), unfolding(crate::specs::Tables::start_of))]
pub fn starts_of(lengths: &[usize; 8]) -> [usize; 8]
    requires { AllSized lengths.now }
    ensures { StartsAt lengths.now result }
{
    let mut starts = [0; 8];
    let mut a = 0;
    for i in 0..SLOTS {
        starts[i] = a;
        a += lengths[i];
    }
    starts
}

// 1 where a length, taken in slot order, is no table's, or where all eight don't fill the slice.
#[tactic(auto, using(crate::proofs::Sizes::all_sized, crate::proofs::Sizes::start_most, crate::proofs::Starts::last_end), unfolding(crate::specs::Tables::tables_number))]
pub fn check_lengths(lengths: &[usize; 8], nodes: &[u64]) -> Result<(), Refusal>
    ensures { number_of result ≡ tables_number lengths.now nodes.now }
{
    if first_unsized(lengths).is_some() {
        return Err(Refusal::TableLength);
    }
    let starts = starts_of(lengths);
    if starts[7] + lengths[7] != nodes.len() {
        return Err(Refusal::TableLength);
    }
    Ok(())
}

// Makes the table of one slot fresh, of words that are zeros there.
fn fresh_slot(nodes: &mut [u64], lengths: &[usize; 8], starts: &[usize; 8], s: usize)
    requires { (s < SLOTS) × TablesFit lengths.now nodes.old × StartsAt lengths.now starts.now × (table_at lengths.now nodes.old s ≡ replicate (length_at lengths.now s) 0) }
    ensures { nodes.new ≡ with_table lengths.now nodes.old s (fresh_table (table_at lengths.now nodes.old s)) }
{
    let from = starts[s];
    let to = from + lengths[s];
    write_root(&mut nodes[from..to]);
}

// Makes each table fresh: all words are cleared at once, then each table gets its root.
#[tactic(auto, using(crate::proofs::Parts::fit_kept, crate::proofs::Fresh::fresh_none, crate::proofs::Fresh::zeros_next, crate::proofs::Fresh::fresh_more, crate::proofs::Fresh::fresh_all))]
pub fn fresh_tables(nodes: &mut [u64], lengths: &[usize; 8])
    requires { TablesFit lengths.now nodes.old }
    ensures { nodes.new ≡ fresh_tables lengths.now nodes.old }
{
    nodes.fill(0);
    let starts = starts_of(lengths);
    for slot in 0..SLOTS {
        fresh_slot(nodes, lengths, &starts, slot);
    }
}
