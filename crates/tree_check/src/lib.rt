// Whether a lent slice of 64-bit words is a node table that some list of calls leaves (01, "The tree"; numbers 1 and 2 of the place table), and
// whether one can be previewed in another. `valued` says whether the tree's values are compared. The check takes time in the square of the used
// rows.
#![tactic(auto)]

mod rows;

ghost use Rattle.std.specs.Prelude.{◌≡◌, true, ◌*◌, ◌≤◌, ◌<◌, eqb, length};
ghost use Rattle.std.specs.List.{list_all};
ghost use Rattle.laws.specs.First.{first};
ghost use Rattle.numbers.specs.Numbers.{number_of};
ghost use Rattle.tree_theory.specs.Table.{row, sized_length, sized, is_tree, table_causes};
ghost use Rattle.tree_theory.specs.Preview.{tables_causes};
ghost use Rattle.tree_theory.specs.Check.{is_root, fits_to, zeros_to};

use numbers::Refusal;

// A multiple of 4 from 4 to 1,024.
pub fn is_table_length(n: usize) -> bool
    ensures { result ≡ sized_length n }
{
    if n % 4 != 0 {
        return false;
    }
    if n < 4 {
        return false;
    }
    n <= 1024
}

// Whether a slice has such a length.
pub fn has_table_length(t: &[u64]) -> bool
    ensures { result ≡ sized t.now }
{
    is_table_length(t.len())
}

// Whether row 0 is the root's.
fn root_fits(t: &[u64]) -> bool
    requires { 4 ≤ length t.now }
    ensures { result ≡ is_root (row t.now 0) }
{
    if tree_table::round_at(t, 0) != 0 {
        return false;
    }
    if tree_table::parent_at(t, 0) != 0 {
        return false;
    }
    if tree_table::value_at(t, 0) != 0 {
        return false;
    }
    tree_table::status_at(t, 0) == tree_table::COMMITTED
}

// Whether all n used rows fit: the root's, and each behind it.
fn rows_fit(valued: bool, t: &[u64], n: usize) -> bool
    requires { (0 < n) × (4 * n ≤ length t.now) }
    ensures { result ≡ fits_to valued t.now n n }
{
    if !root_fits(t) {
        return false;
    }
    for i in 1..n {
        if !crate::rows::row_fits(valued, t, n, i) {
            return false;
        }
    }
    true
}

// Whether words are all zero.
fn all_zero(words: &[u64]) -> bool
    ensures { result ≡ list_all (λ w. eqb w 0) words.now }
{
    words.iter().all(|word| *word == 0)
}

// Whether every word from a place on is zero.
fn zeros_from(t: &[u64], from: usize) -> bool
    requires { from ≤ length t.now }
    ensures { result ≡ zeros_to t.now from (length t.now) }
{
    all_zero(&t[from..])
}

// Whether some list of calls from fresh leaves the table.
fn is_tree(valued: bool, t: &[u64]) -> bool
    requires { sized t.now ≡ true }
    ensures { result ≡ is_tree valued t.now }
{
    let n = tree_table::used_rows(t);
    if n == 0 {
        return false;
    }
    if !rows_fit(valued, t, n) {
        return false;
    }
    zeros_from(t, 4 * n)
}

// The row "table" of the place table: 1, 2, or OK of a tree.
pub fn check_table(valued: bool, t: &[u64]) -> Result<(), Refusal>
    ensures { number_of result ≡ first (table_causes valued t.now) }
{
    if !has_table_length(t) {
        return Err(Refusal::TableLength);
    }
    if !is_tree(valued, t) {
        return Err(Refusal::NotATree);
    }
    Ok(())
}

// The row "table" of a table to be previewed in a second one (02, ticket 5): 1, 31, 2, or OK. Of the second only the length is asked.
pub fn check_tables(valued: bool, t: &[u64], second: &[u64]) -> Result<(), Refusal>
    ensures { number_of result ≡ first (tables_causes valued t.now second.now) }
{
    let long = has_table_length(t);
    let alike = second.len() == t.len();
    if !long {
        return Err(Refusal::TableLength);
    }
    if !alike {
        return Err(Refusal::LengthsDiffer);
    }
    check_table(valued, t)
}
