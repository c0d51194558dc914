// Use counts of the visited points, and the kept blocks as runs of neighbouring visited points.
#![tactic(auto)]

ghost use Rattle.std.specs.Prelude.{◌≡◌, ◌≤◌, ◌<◌, length};
ghost use Rattle.func.specs.Decode.{func_of};
ghost use Rattle.work.specs.Layout.{work_need};
ghost use Rattle.walk_points.specs.Walk.{Walkable};
ghost use Rattle.check_text.specs.Same.{Stands};
ghost use Rattle.terminators.specs.Visited.{Visited};
ghost use Rattle.block_uses.specs.Uses.{Counted};
ghost use Rattle.block_absorbs.specs.Absorbs.{AbsorbWords};
ghost use Rattle.blocks.specs.Words.{LayWords, BlockWords};

use block_absorbs::absorb;
use block_uses::count_uses;
use func_look::Function;
use walk_points::walk;
use work::{CHILDREN, LINES, POINTS, clear};

// The walk, the use counts and the words of the kept blocks stand: how many points are visited.
fn lay_out(func: &Function, work: &mut [u32]) -> usize
    requires walkable { Walkable (func_of func.now) }
    requires work_need_in_bounds { work_need ≤ length work.old }
    ensures visited { Visited func.now work.new result }
    ensures counted { Counted (func_of func.now) work.new }
    ensures absorb_words { AbsorbWords (func_of func.now) result work.new }
    ensures lay_words { LayWords (func_of func.now) work.old work.new }
    ensures work_len_unchanged { length work.new ≡ length work.old }
{
    func.known();
    let m = walk(func, work);
    count_uses(func, work, m);
    absorb(func, work, m);
    m
}

// The kept blocks of a function with a body stand in the work slice: how many points are visited. That the function passes its checks (`Stands`) is asked
// here and of what follows until an `Emission` holds it. What only the walks needed is cleared, but for the
// table of ctrl lines, which the ways out go by.
pub fn blocks(func: &Function, work: &mut [u32]) -> usize
    requires stands { Stands (func_of func.now) func.now }
    requires regions_nonzero { 0 < length (func_of func.now).regions }
    requires work_need_in_bounds { work_need ≤ length work.old }
    ensures visited { Visited func.now work.new result }
    ensures block_words { BlockWords (func_of func.now) work.old work.new }
    ensures work_len_unchanged { length work.new ≡ length work.old }
{
    let m = lay_out(func, work);
    clear(work, 0, LINES);
    clear(work, CHILDREN, POINTS);
    m
}
