// Refusals 3 to 7 and 13, in their order, of the text that stands in the function slice. Each test may look only at what those before it have shown
// to be there.
#![tactic(auto)]

ghost use Rattle.std.specs.Prelude.{◌≡◌, ◌≤◌, length};
ghost use Rattle.func.specs.Layout.{func_need};
ghost use Rattle.work.specs.Layout.{work_need};
ghost use Rattle.check_text.specs.Test.{few_test, checks_test, ChecksSafe};

use check_control::control;
use check_counts::counts;
use check_limits::limits;
use check_references::references;
use check_targets::targets_differ;
use check_tree::is_tree;
use func_look::Function;
use func_pools::{Pool, count};
use refusals::Refusal;
use refusals::limits::{MAX_REGIONS, MAX_TARGETS};

// There are no more ctrl lines and entries than the slice has room for. Refusal 3 bounds neither, and a text with more fails 7.
#[tactic(auto, unfolding(crate::specs::Test::few_test))]
fn few(func: &[u32]) -> bool
    requires { func_need ≤ length func.now }
    ensures { result ≡ few_test func.now }
{
    count(func, Pool::Ctrls) <= MAX_REGIONS && count(func, Pool::Entries) <= MAX_TARGETS
}

// The first refusal of 3 to 7 and 13, if there is one. `opcodes` and `edges` say whether the opcodes and the edges of ctrl lines fit, for 4 and 6: the
// reader judges these, since there may be more lines than the slice has room for.
#[tactic(auto, unfolding(crate::specs::Test::checks_test))]
pub fn checks(func: &[u32], work: &mut [u32], opcodes: bool, edges: bool) -> Result<(), Refusal>
    requires checks_safe { ChecksSafe func.now opcodes }
    requires work_need_in_bounds { work_need ≤ length work.old }
    ensures value { result ≡ checks_test func.now opcodes edges }
    ensures work_len_unchanged { length work.new ≡ length work.old }
{
    if !limits(func) {
        return Err(Refusal::Limits);
    }
    if !references(func, opcodes) {
        return Err(Refusal::References);
    }
    if !is_tree(func, work) {
        return Err(Refusal::Tree);
    }
    if !(counts(func) && edges) {
        return Err(Refusal::Counts);
    }
    if !few(func) {
        return Err(Refusal::Control);
    }
    let function = Function::new(func);
    if !control(&function, work) {
        return Err(Refusal::Control);
    }
    if !targets_differ(&function) {
        return Err(Refusal::Targets);
    }
    Ok(())
}
