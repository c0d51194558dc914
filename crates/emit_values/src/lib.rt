// Whether every value of the text has an id, in one pass over their pool. Where each has one, refusal 10 cannot hold, and the list need not be counted.
#![tactic(auto)]

ghost use Rattle.std.specs.Prelude.{◌≡◌, ◌≤◌, ◌<◌, length};
ghost use Rattle.lifting.specs.Limits.{highest_id};
ghost use Rattle.func.specs.Decode.{func_of};
ghost use Rattle.work.specs.Layout.{ids_end};
ghost use Rattle.check_text.specs.Same.{Stands};
ghost use Rattle.emit_names.specs.Ids.{Ids};
ghost use Rattle.emit_values.specs.Given.{all_given};

use emit_value_ids::value_id;
use func_look::Function;

// Every value of the text has an id.
pub fn all_given(func: &Function, work: &[u32], first: u32) -> bool
    requires stands { Stands (func_of func.now) func.now }
    requires regions_nonzero { 0 < length (func_of func.now).regions }
    requires ids { Ids (func_of func.now) first work.now }
    requires ids_end_in_bounds { (ids_end ≤ length work.now) × (first ≤ highest_id) }
    ensures { result ≡ all_given (func_of func.now) first }
{
    for i in 0..func.value_total() {
        if value_id(func, work, first, func.value_at(i)) == 0 {
            return false;
        }
    }
    true
}
