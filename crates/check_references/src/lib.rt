// Refusal 4, judged by the function slice, in which the text stands that was read (crate func).
#![tactic(auto)]

ghost use Rattle.std.specs.Prelude.{◌≡◌, true, ◌&&◌, ◌≤◌, ◌<◌, length};
ghost use Rattle.func.specs.Layout.{func_need};
ghost use Rattle.check_limits.specs.Limits.{limits_test};
ghost use Rattle.check_references.specs.Test.{ids_test, insts_test, references_test};

use check_const_ids::consts_distinct;
use check_limits::Bounded;
use check_lines::{all_below, regions_below};
use check_rules::{Rule, all_hold};
use func_pools::Pool;
use func_rows::{head_ret, head_type};

// No id is 0 that must not be.
#[tactic(auto, unfolding(crate::specs::Test::ids_test))]
fn ids_given(func: &Bounded) -> bool
    ensures { result ≡ ids_test func.now.words.now }
{
    0 < head_ret(func.words)
        && 0 < head_type(func.words)
        && all_hold(func, Rule::ConstId)
        && all_hold(func, Rule::ParamType)
        && all_hold(func, Rule::DeclType)
        && all_hold(func, Rule::Callee)
}

// Immediates and the opcodes of nodes' and ops' INSTs fit.
#[tactic(auto, unfolding(crate::specs::Test::insts_test))]
fn insts_fit(func: &Bounded) -> bool
    ensures { result ≡ insts_test func.now.words.now }
{
    all_hold(func, Rule::ImmFits) && all_hold(func, Rule::NodeInst) && all_hold(func, Rule::OpInst)
}

// The text passes 4, where `ctrls` says whether the opcodes of its ctrl lines fit.
#[tactic(auto, using(check_limits::specs::Limits::ready), unfolding(crate::specs::Test::references_test))]
pub fn references(func: &[u32], ctrls: bool) -> bool
    requires { (func_need ≤ length func.now) × (limits_test func.now ≡ true) }
    ensures { result ≡ (references_test func.now && ctrls) }
{
    let bounded = Bounded { words: func };
    all_hold(&bounded, Rule::Named)
        && all_below(func, Pool::NodeRefs, Pool::Nodes)
        && all_below(func, Pool::OpRefs, Pool::Ops)
        && regions_below(func)
        && ids_given(&bounded)
        && consts_distinct(&bounded)
        && all_hold(&bounded, Rule::ConstOpcode)
        && all_hold(&bounded, Rule::NodeControl)
        && insts_fit(&bounded)
        && ctrls
}
