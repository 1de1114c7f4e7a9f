// What `tree::fresh` writes (01, "The tree"): the root 0, 0, 0, 3 and zeros all else.
ghost use Rattle.std.specs.Prelude.{◌≡◌, ◌≤◌, length, replicate};
ghost use Rattle.tree_theory.specs.Machine.{fresh};
ghost use Rattle.tree_theory.specs.Table.{table};

// The root, in a table of zeros.
pub fn write_root(t: &mut [u64])
    requires { (4 ≤ length t.old) × (t.old ≡ replicate (length t.old) 0) }
    ensures { t.new ≡ table (length t.old) fresh }
{
    tree_table::set_status(t, 0, tree_table::COMMITTED);
}

pub fn write_fresh(t: &mut [u64])
    requires { 4 ≤ length t.old }
    ensures { t.new ≡ table (length t.old) fresh }
{
    t.fill(0);
    write_root(t);
}
