// Refusal 13: whether a `bool` ctrl of the function slice, reached or not, has two equal targets.
#![tactic(auto)]

ghost use Rattle.std.specs.Prelude.{◌≡◌, true, ◌<◌, length};
ghost use Rattle.lifting.specs.Control.{control_fits, targets_differ};
ghost use Rattle.func.specs.Decode.{func_of};
ghost use Rattle.func.specs.Tables.{ctrl_line_of};
ghost use Rattle.check_targets.specs.Lines.{line_counts, line_differs};

use func::CtrlKind;
use func_look::Function;

// Line c, whose counts fit its kind, does not name one target twice by `bool`.
fn line_differs(func: &Function, c: usize) -> bool
    requires c_in_bounds { c < length (func_of func.now).ctrls }
    requires c_value { line_counts (ctrl_line_of (func_of func.now) c) ≡ true }
    ensures { result ≡ line_differs (ctrl_line_of (func_of func.now) c) }
{
    func.ctrl_kind(c) != CtrlKind::Bool || func.target(c, 0) != func.target(c, 1)
}

// The text in the function slice, which passes refusal 7, passes 13.
pub fn targets_differ(func: &Function) -> bool
    requires func_value { control_fits (func_of func.now) ≡ true }
    ensures { result ≡ targets_differ (func_of func.now) }
{
    let k = func.ctrl_total();
    (0..k).all(|i| line_differs(func, i))
}
