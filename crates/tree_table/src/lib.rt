// The rows of a node table, four 64-bit words a row: round, parent, value, status (01, "The tree"). Their words, searches over them, copies of
// them, and the test of a value against the parent's. A table is words that C lends, so a row is no struct; its first n rows are given by n, and not
// as a part, so that each promise is of one table.
#![tactic(auto)]

ghost use Rattle.std.specs.Prelude.{◌≡◌, ◌&&◌, not, ◌∷◌, ◌++◌, ◌+◌, ◌*◌, ◌≤◌, eqb, length, set, take, drop};
ghost use Rattle.tree_theory.specs.Table.{used, row, rows_of};
ghost use Rattle.tree_table.specs.Rows.{row_place};

// Statuses, as words of a table: in lent memory any word may stand, so they are numbers and no enum. FREE is that of a row that no node has taken.
pub const FREE: u64 = 0;

pub const ADDED: u64 = 1;

pub const GHOST: u64 = 2;

pub const COMMITTED: u64 = 3;

pub fn round_at(t: &[u64], i: usize) -> u64
    requires { 4 * i + 4 ≤ length t.now }
    ensures { result ≡ (row t.now i).round }
{
    t[4 * i]
}

pub fn parent_at(t: &[u64], i: usize) -> u64
    requires { 4 * i + 4 ≤ length t.now }
    ensures { result ≡ (row t.now i).parent }
{
    t[4 * i + 1]
}

pub fn value_at(t: &[u64], i: usize) -> u64
    requires { 4 * i + 4 ≤ length t.now }
    ensures { result ≡ (row t.now i).value }
{
    t[4 * i + 2]
}

pub fn status_at(t: &[u64], i: usize) -> u64
    requires { 4 * i + 4 ≤ length t.now }
    ensures { result ≡ (row t.now i).status }
{
    t[4 * i + 3]
}

pub fn set_status(t: &mut [u64], i: usize, s: u64)
    requires { 4 * i + 4 ≤ length t.old }
    ensures { t.new ≡ set t.old (4 * i + 3) s }
{
    t[4 * i + 3] = s;
}

pub fn put_row(t: &mut [u64], i: usize, r: u64, p: u64, v: u64, s: u64)
    requires { 4 * i + 4 ≤ length t.old }
    ensures { t.new ≡ take (4 * i) t.old ++ r ∷ p ∷ v ∷ s ∷ drop (4 * i + 4) t.old }
{
    let at = 4 * i;
    t[at] = r;
    t[at + 1] = p;
    t[at + 2] = v;
    t[at + 3] = s;
}

// Copies the first n rows into another table.
pub fn copy_rows(t: &[u64], to: &mut [u64], n: usize)
    requires { (4 * n ≤ length t.now) × (4 * n ≤ length to.old) }
    ensures { to.new ≡ take (4 * n) t.now ++ drop (4 * n) to.old }
{
    let end = 4 * n;
    // Word by word: `copy_from_slice` asks the host for `memmove`.
    for word in 0..end {
        to[word] = t[word];
    }
}

// How many rows stand before the first free one.
pub fn used_rows(t: &[u64]) -> usize
    ensures { result ≡ used t.now }
{
    let rows = t.len() / 4;
    for i in 0..rows {
        if status_at(t, i) == FREE {
            return i;
        }
    }
    rows
}

// The first of the first n rows that has round r.
pub fn find_row(t: &[u64], n: usize, r: u64) -> Option<usize>
    requires { 4 * n ≤ length t.now }
    ensures { result ≡ row_place r (rows_of t.now n) }
{
    for i in 0..n {
        if round_at(t, i) == r {
            return Some(i);
        }
    }
    None
}

// What `find_row` gives with one row more, from what it gives for the first i rows.
pub fn find_row_more(t: &[u64], i: usize, r: u64, k: Option<usize>) -> Option<usize>
    requires { (4 * i + 4 ≤ length t.now) × (k ≡ row_place r (rows_of t.now i)) }
    ensures { result ≡ row_place r (rows_of t.now (i + 1)) }
{
    if k.is_some() {
        return k;
    }
    if round_at(t, i) == r {
        return Some(i);
    }
    None
}

// Whether values are compared, the parent p isn't the root, and v is not the parent's value w.
pub fn other_value(valued: bool, v: u64, p: u64, w: u64) -> bool
    ensures { result ≡ (valued && (not (eqb p 0) && not (eqb v w))) }
{
    if valued {
        if p != 0 {
            return v != w;
        }
    }
    false
}
