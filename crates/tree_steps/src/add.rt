// What an add decides on a tree (01, "The tree"; the rows round, add and last of the place table).
ghost use Rattle.std.specs.Prelude.{◌≡◌, cond};
ghost use Rattle.numbers.specs.Numbers.{number_of};
ghost use Rattle.tree_theory.specs.Machine.{GHOST, ADDED, add, answer};
ghost use Rattle.tree_theory.specs.Table.{rows, nodes, TreeTable};
ghost use Rattle.tree_crossing.specs.Looked.{look_of};
ghost use Rattle.tree_steps.specs.Planned.{Planned};

use crate::call::Plan;
use ids::Round;
use numbers::Refusal;
use tree_crossing::look::Look;

// Whether add(r, v, p) is refused, by what the rows said.
fn check_add(valued: bool, t: &[u64], l: Look, r: Round, v: u64, p: Round) -> Result<(), Refusal>
    requires { l ≡ look_of r.0 p.0 (nodes t.now) }
    ensures { number_of result ≡ answer valued (rows t.now) (nodes t.now) (add r.0 v p.0) }
{
    if !ids::in_range(r) {
        return Err(Refusal::RoundRange);
    }
    if l.present {
        return Err(Refusal::RoundPresent);
    }
    let Some(k) = l.parent else {
        return Err(Refusal::ParentAbsent);
    };
    if r <= p {
        return Err(Refusal::ParentNotBelow);
    }
    if tree_table::other_value(valued, v, p.0 as u64, tree_table::value_at(t, k)) {
        return Err(Refusal::ValueDiffers);
    }
    if l.blocked {
        return Err(Refusal::CrossesCommitted);
    }
    if numbers::no_row_left(t.len() / 4, l.used) {
        return Err(Refusal::NoFreeRow);
    }
    Ok(())
}

// The status of a new node: GHOST if any round above its own is present, else ADDED.
fn new_status(above: bool) -> u64
    ensures { result ≡ cond above GHOST ADDED }
{
    if above {
        return tree_table::GHOST;
    }
    tree_table::ADDED
}

// The node takes the first free row.
pub fn plan_add(valued: bool, t: &[u64], r: Round, v: u64, p: Round) -> Result<Plan, Refusal>
    requires { TreeTable valued t.now }
    ensures { Planned valued t.now (add r.0 v p.0) result }
{
    let l = tree_crossing::look::look_over(t, r.0 as u64, p.0 as u64);
    check_add(valued, t, l, r, v, p)?;
    Ok(Plan {
        row: l.used,
        status: new_status(l.above),
        strikes: l.strikes,
    })
}
