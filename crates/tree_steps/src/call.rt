// add and commit on a tree: what each decides, and what an accepted one writes.
ghost use Rattle.std.specs.Prelude.{◌≡◌, ◌+◌, ◌*◌, ◌≤◌, length};
ghost use Rattle.tree_theory.specs.Table.{TreeTable};
ghost use Rattle.tree_steps.specs.Planned.{call_of, call_written, call_strikes, Planned};

use ids::Round;
use numbers::Refusal;

// An enum and no closure: a call is planned with the table lent to be read, and written with it lent to be written.
#[derive(Clone, Copy)]
pub enum TreeCall {
    Add {
        round: Round,
        value: u64,
        parent: Round,
    },
    Commit {
        round: Round,
    },
}

// What an accepted call comes to: the row that it writes, the status that it writes there, and how many others it strikes.
#[derive(Clone, Copy)]
pub struct Plan {
    pub row: usize,
    pub status: u64,
    pub strikes: usize,
}

// Decides a call, and writes nothing. `valued` says whether the tree's values are compared.
pub fn plan_call(valued: bool, t: &[u64], call: TreeCall) -> Result<Plan, Refusal>
    requires { TreeTable valued t.now }
    ensures { Planned valued t.now (call_of call) result }
{
    match call {
        TreeCall::Add {
            round,
            value,
            parent,
        } => crate::add::plan_add(valued, t, round, value, parent),
        TreeCall::Commit { round } => crate::commit::plan_commit(valued, t, round),
    }
}

// Writes an accepted call: an add strikes the ADDED rows that its edge crosses and puts its node into the row, a commit sets the row's status.
pub fn write_call(t: &mut [u64], call: TreeCall, plan: Plan)
    requires { (4 * plan.row + 4 ≤ length t.old) × (plan.strikes ≡ call_strikes t.old (call_of call) plan.row) }
    ensures { t.new ≡ call_written t.old (call_of call) plan.row plan.status }
{
    match call {
        TreeCall::Add {
            round,
            value,
            parent,
        } => {
            let (r, p) = (round.0 as u64, parent.0 as u64);
            tree_crossing::strike_if(t, plan.row, r, p, plan.strikes);
            tree_table::put_row(t, plan.row, r, p, value, plan.status);
        }
        TreeCall::Commit { round: _ } => {
            tree_table::set_status(t, plan.row, plan.status);
        }
    }
}
