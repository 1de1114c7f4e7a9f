// Whether a row of a node table, one behind the root's, fits the others (01, "The tree"). `valued` says whether the tree's values are compared.
ghost use Rattle.std.specs.Prelude.{◌≡◌, ◌*◌, ◌+◌, ◌≤◌, ◌<◌, length};
ghost use Rattle.tree_theory.specs.Table.{row, rows_of};
ghost use Rattle.tree_theory.specs.Check.{round_fits, status_fits, fits};

// Whether the round of row i is in range and no earlier row's.
fn round_fits(t: &[u64], i: usize) -> bool
    requires { 4 * i + 4 ≤ length t.now }
    ensures { result ≡ round_fits (rows_of t.now i) (row t.now i) }
{
    let r = tree_table::round_at(t, i);
    if !ids::number_in_range(r) {
        return false;
    }
    tree_table::find_row(t, i, r).is_none()
}

// Whether row i is GHOST where an edge crosses its round, else ADDED or COMMITTED.
fn status_fits(t: &[u64], n: usize, i: usize) -> bool
    requires { (i < n) × (4 * n ≤ length t.now) }
    ensures { result ≡ status_fits (rows_of t.now n) (row t.now i) }
{
    let s = tree_table::status_at(t, i);
    if tree_crossing::any_edge_crosses(t, n, tree_table::round_at(t, i)) {
        return s == tree_table::GHOST;
    }
    if s == tree_table::ADDED {
        return true;
    }
    s == tree_table::COMMITTED
}

// Whether row i of n used rows fits those before it and all of them.
pub fn row_fits(valued: bool, t: &[u64], n: usize, i: usize) -> bool
    requires { (i < n) × (4 * n ≤ length t.now) }
    ensures { result ≡ fits valued (rows_of t.now i) (rows_of t.now n) (row t.now i) }
{
    if !round_fits(t, i) {
        return false;
    }
    let p = tree_table::parent_at(t, i);
    let Some(k) = tree_table::find_row(t, i, p) else {
        return false;
    };
    if tree_table::round_at(t, i) <= p {
        return false;
    }
    if tree_table::other_value(
        valued,
        tree_table::value_at(t, i),
        p,
        tree_table::value_at(t, k),
    ) {
        return false;
    }
    status_fits(t, n, i)
}
