// The recursion by which `tree::path` writes (01, "The tree": any other path is the path of the parent with the round put after it).
ghost use Rattle.tree_steps.specs.Climbed.{PathOf, PathWritten};

// Writes the path of round r, which one of the n rows has, into `out` if that has room for it and for `behind` more rounds, and answers how many
// it wrote; else it writes nothing. The round falls at each call.
pub fn path_into(t: &[u64], n: usize, r: u64, out: &mut [u64], behind: usize) -> Option<usize>
    requires { PathOf t.now n r behind }
    ensures { PathWritten t.now r behind out.old result out.new }
{
    if r == 0 {
        if out.len() <= behind {
            return None;
        }
        out[0] = 0;
        return Some(1);
    }
    let row = tree_table::find_row(t, n, r)?;
    let parent = tree_table::parent_at(t, row);
    let k = path_into(t, n, parent, out, behind + 1)?;
    out[k] = r;
    Some(k + 1)
}
