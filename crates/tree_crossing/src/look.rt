// All that an add asks of the rows, in one walk over those that are used.
ghost use Rattle.std.specs.Prelude.{◌≡◌, ◌+◌, ◌*◌, ◌≤◌, length};
ghost use Rattle.tree_theory.specs.Table.{rows_of, nodes};
ghost use Rattle.tree_crossing.specs.Looked.{look_of};

// What the rows say of an edge (r, p): how many they are, whether one has round r, the first that has round p, whether one has a round above r,
// whether the edge crosses a COMMITTED one, and how many ADDED ones it crosses.
#[derive(Clone, Copy)]
pub struct Look {
    pub used: usize,
    pub present: bool,
    pub parent: Option<usize>,
    pub above: bool,
    pub blocked: bool,
    pub strikes: usize,
}

// One row more. An edge crosses rounds between p and r alone, so the status of any other row doesn't count.
fn look_on(l: Look, t: &[u64], r: u64, p: u64) -> Look
    requires { (4 * l.used + 4 ≤ length t.now) × (l ≡ look_of r p (rows_of t.now l.used)) }
    ensures { result ≡ look_of r p (rows_of t.now (l.used + 1)) }
{
    let i = l.used;
    let round = tree_table::round_at(t, i);
    let parent = tree_table::find_row_more(t, i, p, l.parent);
    if r <= round {
        return Look {
            used: i + 1,
            parent,
            present: l.present | (round == r),
            above: l.above | (r < round),
            ..l
        };
    }
    if round <= p {
        return Look {
            used: i + 1,
            parent,
            ..l
        };
    }
    let status = tree_table::status_at(t, i);
    if status == tree_table::ADDED {
        return Look {
            used: i + 1,
            parent,
            strikes: l.strikes + 1,
            ..l
        };
    }
    Look {
        used: i + 1,
        parent,
        blocked: l.blocked | (status == tree_table::COMMITTED),
        ..l
    }
}

// The whole walk: it ends at the first free row.
pub fn look_over(t: &[u64], r: u64, p: u64) -> Look
    ensures { result ≡ look_of r p (nodes t.now) }
{
    let rows = t.len() / 4;
    let mut l = Look {
        used: 0,
        present: false,
        parent: None,
        above: false,
        blocked: false,
        strikes: 0,
    };
    for i in 0..rows {
        if tree_table::status_at(t, i) == tree_table::FREE {
            return l;
        }
        l = look_on(l, t, r, p);
    }
    l
}
