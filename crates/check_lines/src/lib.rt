// What refusal 4 asks of the numbers of nodes, ops and regions: each names a line.
#![tactic(auto)]

ghost use Rattle.std.specs.Prelude.{◌≡◌, ◌≤◌, length};
ghost use Rattle.func.specs.Layout.{func_need};
ghost use Rattle.func_pools.specs.Pools.{pool_number};
ghost use Rattle.check_lines.specs.Test.{below_test, regions_test};

use func_pools::{Pool, count, most};

// The numbers of pool k name lines of pool p.
pub fn all_below(func: &[u32], k: Pool, p: Pool) -> bool
    requires { func_need ≤ length func.now }
    ensures { result ≡ below_test (pool_number k) (pool_number p) func.now }
{
    count(func, k) == 0 || most(func, k) < count(func, p)
}

// The numbers of regions name regions: of children, of ctrl lines, of their targets and their entries.
#[tactic(auto, unfolding(crate::specs::Test::regions_test))]
pub fn regions_below(func: &[u32]) -> bool
    requires { func_need ≤ length func.now }
    ensures { result ≡ regions_test func.now }
{
    all_below(func, Pool::ChildRefs, Pool::Regions)
        && all_below(func, Pool::Ctrls, Pool::Regions)
        && all_below(func, Pool::Targets, Pool::Regions)
        && all_below(func, Pool::Entries, Pool::Regions)
}
