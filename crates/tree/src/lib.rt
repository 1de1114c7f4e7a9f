// The quorum tree in lent memory (01, "The tree"): fresh, add, preview, commit and path over a slice of 64-bit words, four a row. VALUED says which
// kind of tree it is: true for a value tree, 01's, whose values are compared; false for a command tree (02, ticket 1), whose aren't. Below these calls, and
// in those named `_on_table`, it is an argument, `valued`, so that the code of a step is there once.
#![tactic(auto)]

ghost use Rattle.std.specs.Prelude.{◌≡◌, true};
ghost use Rattle.numbers.specs.Numbers.{number_of};
ghost use Rattle.tree_theory.specs.Machine.{add, commit};
ghost use Rattle.tree_theory.specs.Table.{TreeTable, fresh_number, fresh_table};
ghost use Rattle.tree_steps.specs.Planned.{call_of, call_written};
ghost use Rattle.tree.specs.Promises.{CalledOnTable, CalledOnTree, CountedOnTable, CountedOnTree, Previewed, PathGiven, counted_of};
ghost use Rattle.tree.specs.Carried.{CanWrite, CanShow};

use ids::Round;
use numbers::Refusal;
use tree_steps::call::{Plan, TreeCall};

// Makes the table fresh, for either kind of tree: the root 0, 0, 0, 3 and zeros all else. It checks the length only.
pub fn fresh(t: &mut [u64]) -> Result<(), Refusal>
    ensures number { number_of result ≡ fresh_number t.old }
    ensures left { t.new ≡ fresh_table t.old }
{
    if !tree_check::has_table_length(t) {
        return Err(Refusal::TableLength);
    }
    tree_steps::fresh::write_fresh(t);
    Ok(())
}

// Carries out an accepted call's plan, and answers how many rounds that made GHOST.
fn carry_out(t: &mut [u64], call: TreeCall, plan: Plan) -> u32
    requires { CanWrite t.old (call_of call) plan }
    ensures ghosts { result ≡ plan.strikes }
    ensures left { t.new ≡ call_written t.old (call_of call) plan.row plan.status }
{
    tree_steps::call::write_call(t, call, plan);
    plan.strikes as u32
}

// add or commit on a tree: how many rounds it made GHOST (02, ticket 3), those that were ADDED before it. A commit makes none.
fn call_on_tree(valued: bool, t: &mut [u64], call: TreeCall) -> Result<u32, Refusal>
    requires { TreeTable valued t.old }
    ensures { CountedOnTree valued t.old (call_of call) (number_of result) (counted_of result) t.new }
{
    let plan = tree_steps::call::plan_call(valued, t, call)?;
    Ok(carry_out(t, call, plan))
}

// add or commit on any table.
fn call_on_table(valued: bool, t: &mut [u64], call: TreeCall) -> Result<u32, Refusal>
    ensures { CountedOnTable valued t.old (call_of call) (number_of result) (counted_of result) t.new }
{
    tree_check::check_table(valued, t)?;
    call_on_tree(valued, t, call)
}

// add on any table of the kind that `valued` says: how many rounds it made GHOST. That of a command tree is 01's without check 7.
pub fn add_on_table(valued: bool, t: &mut [u64], r: Round, v: u64, p: Round) -> Result<u32, Refusal>
    ensures { CountedOnTable valued t.old (add r.0 v p.0) (number_of result) (counted_of result) t.new }
{
    let call = TreeCall::Add {
        round: r,
        value: v,
        parent: p,
    };
    call_on_table(valued, t, call)
}

pub fn add<const VALUED: bool>(t: &mut [u64], r: Round, v: u64, p: Round) -> Result<u32, Refusal>
    ensures { CountedOnTable VALUED t.old (add r.0 v p.0) (number_of result) (counted_of result) t.new }
{
    add_on_table(VALUED, t, r, v, p)
}

// add on a table that is a tree already: the same step without the check of the table.
pub fn add_in_tree(t: &mut [u64], r: Round, v: u64, p: Round) -> Result<u32, Refusal>
    requires { TreeTable true t.old }
    ensures { CountedOnTree true t.old (add r.0 v p.0) (number_of result) (counted_of result) t.new }
{
    let call = TreeCall::Add {
        round: r,
        value: v,
        parent: p,
    };
    call_on_tree(true, t, call)
}

// What a call would make of a tree, made in a second table of its length: all rows are copied first, and none where the call is refused.
fn preview_on_tree(
    valued: bool,
    first: &[u64],
    second: &mut [u64],
    call: TreeCall,
) -> Result<u32, Refusal>
    requires { CanShow valued first.now second.old }
    ensures { Previewed valued first.now second.old (call_of call) (number_of result) (counted_of result) first.now second.new }
{
    let shown = tree_steps::call::plan_call(valued, first, call)?;
    tree_table::copy_rows(first, second, first.len() / 4);
    Ok(carry_out(second, call, shown))
}

// What add would make of any table, made in a second one (02, ticket 5), and how many rounds it would make GHOST.
pub fn preview_on_table(
    valued: bool,
    first: &[u64],
    second: &mut [u64],
    r: Round,
    v: u64,
    p: Round,
) -> Result<u32, Refusal>
    ensures { Previewed valued first.now second.old (add r.0 v p.0) (number_of result) (counted_of result) first.now second.new }
{
    tree_check::check_tables(valued, first, second)?;
    let call = TreeCall::Add {
        round: r,
        value: v,
        parent: p,
    };
    preview_on_tree(valued, first, second, call)
}

pub fn preview<const VALUED: bool>(
    t: &[u64],
    second: &mut [u64],
    r: Round,
    v: u64,
    p: Round,
) -> Result<u32, Refusal>
    ensures { Previewed VALUED t.now second.old (add r.0 v p.0) (number_of result) (counted_of result) t.now second.new }
{
    preview_on_table(VALUED, t, second, r, v, p)
}

pub fn commit<const VALUED: bool>(t: &mut [u64], r: Round) -> Result<(), Refusal>
    ensures { CalledOnTable VALUED t.old (commit r.0) (number_of result) t.new }
{
    call_on_table(VALUED, t, TreeCall::Commit { round: r })?;
    Ok(())
}

// commit on a table that is a tree already: the same step without the check of the table.
pub fn commit_in_tree(t: &mut [u64], r: Round) -> Result<(), Refusal>
    requires { TreeTable true t.old }
    ensures { CalledOnTree true t.old (commit r.0) (number_of result) t.new }
{
    call_on_tree(true, t, TreeCall::Commit { round: r })?;
    Ok(())
}

// path(r): the rounds from the root to r, written from the first word, and how many they are.
pub fn path_on_table(valued: bool, t: &[u64], r: Round, out: &mut [u64]) -> Result<usize, Refusal>
    ensures { PathGiven valued t.now r.0 out.old (number_of result) (counted_of result) out.new }
{
    tree_check::check_table(valued, t)?;
    let round = r.0 as u64;
    if ids::above_range(round) {
        return Err(Refusal::RoundRange);
    }
    let n = tree_table::used_rows(t);
    let present = tree_table::find_row(t, n, round).is_some();
    if !present {
        return Err(Refusal::RoundAbsent);
    }
    let Some(count) = tree_steps::path::path_into(t, n, round, out, 0) else {
        return Err(Refusal::PathTooLong);
    };
    Ok(count)
}

pub fn path<const VALUED: bool>(t: &[u64], r: Round, out: &mut [u64]) -> Result<usize, Refusal>
    ensures { PathGiven VALUED t.now r.0 out.old (number_of result) (counted_of result) out.new }
{
    path_on_table(VALUED, t, r, out)
}
