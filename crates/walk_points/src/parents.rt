// The parents of regions: a table of the work slice with a word for each of 128 regions. It is filled in one pass over the nodes, from the last
// to the first, so that a region's first parent stays.
ghost use Rattle.std.specs.Prelude.{◌≡◌, ◌≤◌, ◌<◌, length};
ghost use Rattle.func.specs.Decode.{func_of};
ghost use Rattle.work.specs.Layout.{parents_at, parents_end};
ghost use Rattle.work.specs.Aside.{Aside};
ghost use Rattle.walk_roots.specs.Tables.{RegionsNamed};
ghost use Rattle.walk_points.specs.Parents.{Parents, Adopted};

use func_look::Function;
use work::{PARENTS, PARENTS_END, clear};

// Node n is the parent of its children.
fn adopt(func: &Function, n: usize, work: &mut [u32])
    requires regions_named { RegionsNamed (func_of func.now) }
    requires n_in_bounds { (n < length (func_of func.now).nodes) × (parents_end ≤ length work.old) }
    ensures adopted { Adopted (func_of func.now) n work.old work.new }
    ensures aside { Aside parents_at parents_end work.old work.new }
    ensures work_len_unchanged { length work.new ≡ length work.old }
{
    func.known();
    for i in (0..func.node_child_count(n)).rev() {
        let r = func.node_child(n, i);
        work[PARENTS + r] = (n + 1) as u32;
    }
}

// The table of parents stands.
pub fn parents(func: &Function, work: &mut [u32])
    requires regions_named { RegionsNamed (func_of func.now) }
    requires parents_end_in_bounds { parents_end ≤ length work.old }
    ensures parents { Parents (func_of func.now) work.new }
    ensures aside { Aside parents_at parents_end work.old work.new }
    ensures work_len_unchanged { length work.new ≡ length work.old }
{
    func.known();
    clear(work, PARENTS, PARENTS_END);
    for i in (0..func.node_total()).rev() {
        adopt(func, i, work);
    }
}
