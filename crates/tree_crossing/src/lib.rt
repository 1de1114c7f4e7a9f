// Edges that cross (01, "The tree"): an edge (r, p) is a node r > 0 with parent p, and crosses c if p < c < r. It is two numbers here, as its meaning
// has it: a struct would be made and taken apart at each call.
#![tactic(auto)]

pub mod look;

ghost use Rattle.std.specs.Prelude.{◌≡◌, cond, ◌++◌, map, ◌+◌, ◌*◌, ◌≤◌, length, set, drop};
ghost use Rattle.laws.specs.Lists.{how_many};
ghost use Rattle.tree_theory.specs.Machine.{ADDED, GHOST, crosses, crossed_with, strike_crossed};
ghost use Rattle.tree_theory.specs.Table.{row, rows_of, words};
ghost use Rattle.tree_theory.specs.Check.{crossed};

// Whether the edge (r, p) crosses c.
fn crosses(r: u64, p: u64, c: u64) -> bool
    ensures { result ≡ crosses r p c }
{
    if p < c {
        return c < r;
    }
    false
}

// Whether row i has status s and the edge (r, p) crosses it.
fn crossed_at(t: &[u64], i: usize, s: u64, r: u64, p: u64) -> bool
    requires { 4 * i + 4 ≤ length t.now }
    ensures { result ≡ crossed_with s r p (row t.now i) }
{
    if tree_table::status_at(t, i) == s {
        return crosses(r, p, tree_table::round_at(t, i));
    }
    false
}

// Whether one of the first n rows has an edge that crosses c.
pub fn any_edge_crosses(t: &[u64], n: usize, c: u64) -> bool
    requires { 4 * n ≤ length t.now }
    ensures { result ≡ crossed c (rows_of t.now n) }
{
    for i in 0..n {
        if crosses(tree_table::round_at(t, i), tree_table::parent_at(t, i), c) {
            return true;
        }
    }
    false
}

// Makes row i GHOST if it is ADDED and the edge (r, p) crosses it.
fn strike_row(t: &mut [u64], i: usize, r: u64, p: u64)
    requires { 4 * i + 4 ≤ length t.old }
    ensures { t.new ≡ cond (crossed_with ADDED r p (row t.old i)) (set t.old (4 * i + 3) GHOST) t.old }
{
    if crossed_at(t, i, tree_table::ADDED, r, p) {
        tree_table::set_status(t, i, tree_table::GHOST);
    }
}

// Makes GHOST each ADDED one of the first n rows that the edge (r, p) crosses.
fn strike(t: &mut [u64], n: usize, r: u64, p: u64)
    requires { 4 * n ≤ length t.old }
    ensures { t.new ≡ words (map (strike_crossed r p) (rows_of t.old n)) ++ drop (4 * n) t.old }
{
    for i in 0..n {
        strike_row(t, i, r, p);
    }
}

// The same, told how many ADDED ones of them it crosses: where it crosses none, no row is walked.
pub fn strike_if(t: &mut [u64], n: usize, r: u64, p: u64, strikes: usize)
    requires { (4 * n ≤ length t.old) × (strikes ≡ how_many (crossed_with ADDED r p) (rows_of t.old n)) }
    ensures { t.new ≡ words (map (strike_crossed r p) (rows_of t.old n)) ++ drop (4 * n) t.old }
{
    if 0 < strikes {
        strike(t, n, r, p);
        return;
    }
}
