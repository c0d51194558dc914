// Refusal 5: whether the regions, nodes and ops of the function slice form a tree: no reference stands twice, and no region lies around itself.
#![tactic(auto)]

ghost use Rattle.std.specs.Prelude.{◌≡◌, ◌≤◌, length};
ghost use Rattle.work.specs.Layout.{work_need};
ghost use Rattle.check_marks.specs.Test.{tree_test, TreeSafe};

use check_cycles::{Listed, no_cycle};
use check_once::{Lined, children_once, stands_once};
use func_pools::Pool;

// The text in the function slice passes refusal 5.
#[tactic(auto, unfolding(check_marks::specs::Test::tree_test))]
pub fn is_tree(func: &[u32], work: &mut [u32]) -> bool
    requires tree_safe { TreeSafe func.now }
    requires work_need_in_bounds { work_need ≤ length work.old }
    ensures value { result ≡ tree_test func.now }
    ensures work_len_unchanged { length work.new ≡ length work.old }
{
    stands_once(func, Pool::NodeRefs, Pool::Nodes, work)
        && stands_once(func, Pool::OpRefs, Pool::Ops, work)
        && children_once(&Lined { words: func }, work)
        && no_cycle(&Listed { words: func }, work)
}
