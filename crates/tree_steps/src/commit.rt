// What a commit decides on a tree (01, "The tree"; the rows round and commit of the place table).
ghost use Rattle.std.specs.Prelude.{◌≡◌, true, IfOk};
ghost use Rattle.numbers.specs.Numbers.{number_of};
ghost use Rattle.tree_theory.specs.Machine.{commit, answer};
ghost use Rattle.tree_theory.specs.Table.{rows, rows_of, TreeTable};
ghost use Rattle.tree_table.specs.Rows.{row_place};
ghost use Rattle.tree_steps.specs.Planned.{Planned};

use crate::call::Plan;
use ids::Round;
use numbers::Refusal;

// Whether commit(r) is refused; the row of r among all rows where it isn't. No cause of a commit looks at values.
fn check_commit(t: &[u64], r: Round) -> Result<usize, Refusal>
    ensures number { number_of result ≡ answer true (rows t.now) (rows_of t.now (rows t.now)) (commit r.0) }
    ensures row { IfOk result (λ k. Some k ≡ row_place r.0 (rows_of t.now (rows t.now))) }
{
    if !ids::in_range(r) {
        return Err(Refusal::RoundRange);
    }
    let Some(k) = tree_table::find_row(t, t.len() / 4, r.0 as u64) else {
        return Err(Refusal::RoundAbsent);
    };
    let s = tree_table::status_at(t, k);
    if s == tree_table::COMMITTED {
        return Err(Refusal::IsCommitted);
    }
    if s == tree_table::GHOST {
        return Err(Refusal::IsGhost);
    }
    Ok(k)
}

// Free rows have round 0, so that a search over all rows finds a used one. `valued` only says of which kind the tree is.
pub fn plan_commit(valued: bool, t: &[u64], r: Round) -> Result<Plan, Refusal>
    requires { TreeTable valued t.now }
    ensures { Planned valued t.now (commit r.0) result }
{
    let row = check_commit(t, r)?;
    Ok(Plan {
        row,
        status: tree_table::COMMITTED,
        strikes: 0,
    })
}
