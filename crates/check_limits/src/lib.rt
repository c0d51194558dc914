// Refusal 3, judged by the function slice, in which the text stands that was read (crate func).
#![tactic(auto)]

ghost use Rattle.std.specs.Prelude.{◌≡◌, ◌≤◌, leb, length};
ghost use Rattle.func.specs.Layout.{func_need};
ghost use Rattle.func.specs.Store.{count};
ghost use Rattle.func_pools.specs.Pools.{pool_number};
ghost use Rattle.check_limits.specs.Limits.{LimitsReady, limits_test};

use func_pools::{Pool, count};
use refusals::limits::{
    MAX_CONSTS, MAX_DECLS, MAX_IMMEDIATES, MAX_NODES, MAX_OPS, MAX_PARAMS, MAX_REGIONS,
    MAX_TARGETS, MAX_VALUES,
};

// A function slice of which each pool that refusal 3 bounds is within its room.
#[derive(Clone, Copy)]
pub struct Bounded<'a> {
    pub words: &'a [u32],
    pub ghost ready: { LimitsReady words.now },
}

// Pool k was given at most n entries.
fn at_most(func: &[u32], k: Pool, n: u32) -> bool
    requires { func_need ≤ length func.now }
    ensures { result ≡ leb (count (pool_number k) func.now) n }
{
    count(func, k) <= n
}

// The text passes 3.
#[tactic(auto, unfolding(crate::specs::Limits::limits_test))]
pub fn limits(func: &[u32]) -> bool
    requires { func_need ≤ length func.now }
    ensures { result ≡ limits_test func.now }
{
    at_most(func, Pool::Regions, MAX_REGIONS)
        && at_most(func, Pool::Nodes, MAX_NODES)
        && at_most(func, Pool::Ops, MAX_OPS)
        && at_most(func, Pool::Consts, MAX_CONSTS)
        && at_most(func, Pool::Params, MAX_PARAMS)
        && at_most(func, Pool::Values, MAX_VALUES)
        && at_most(func, Pool::Decls, MAX_DECLS)
        && at_most(func, Pool::Imms, MAX_IMMEDIATES)
        && at_most(func, Pool::Targets, MAX_TARGETS)
}
