// The points that the way out of a visited point names: its targets and its merge labels.
#![tactic(auto)]

ghost use Rattle.std.specs.Prelude.{◌<◌};
ghost use Rattle.lifting.specs.Absorb.{merge_labels};
ghost use Rattle.func.specs.Decode.{func_of};
ghost use Rattle.terminators.specs.At.{visited_block};
ghost use Rattle.print_bytes.specs.Prints.{Prints};
ghost use Rattle.print_lines.specs.Lines.{points_bytes};

use print_bytes::Printer;
use print_points::put_point;
use print_points::shown::Shown;
use term_labels::{label, merge_count, target, target_count};

// The targets of the point at position i.
pub fn put_targets(shown: &Shown, i: usize, out: &mut Printer)
    requires { i < shown.now.visits.count }
    ensures { Prints out.old (points_bytes (visited_block (func_of shown.now.visits.func.now) i).term.targets) out.new }
{
    let n = target_count(&shown.visits, i);
    for k in 0..n {
        put_point(out, target(&shown.visits, i, k));
    }
}

// Its merge labels. A loop of its own: over both lists it would take a list's count, its element as a closure and what that promises.
pub fn put_merge(shown: &Shown, i: usize, out: &mut Printer)
    requires { i < shown.now.visits.count }
    ensures { Prints out.old (points_bytes (merge_labels (visited_block (func_of shown.now.visits.func.now) i).term.merge)) out.new }
{
    let n = merge_count(&shown.visits, i);
    for k in 0..n {
        put_point(out, label(&shown.visits, i, k));
    }
}
