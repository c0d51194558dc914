// The names of points, a space before each: `r3+`, region 3's entry, `r3-`, its exit, `n2+`, node 2's entry, or `n2-`, its exit. That of one point, and
// those of a block's points, as the work slice shows them.
#![tactic(auto)]

pub mod shown; // shown.rt: what the work slice says of a visited point

ghost use Rattle.std.specs.Prelude.{◌<◌};
ghost use Rattle.func.specs.Decode.{func_of};
ghost use Rattle.walk_points.specs.Numbers.{point_of};
ghost use Rattle.print_bytes.specs.Prints.{Prints};
ghost use Rattle.print_lines.specs.Lines.{point_bytes, points_bytes};
ghost use Rattle.print_lines.specs.Positions.{run_at, side_bytes};

use crate::shown::Shown;
use print_bytes::Printer;
use walk_points::NODE_BASE;

// A point's name, after what it begins with: its region's or node's number, and `+` or `-`.
fn put_side(out: &mut Printer, kind: &[u8], x: usize)
    requires { x < 512 }
    ensures { Prints out.old (side_bytes kind.now x) out.new }
{
    out.put_bytes(kind);
    out.put_number((x / 2) as u32);
    if x % 2 == 0 {
        out.put_byte(b'+');
    } else {
        out.put_byte(b'-');
    }
}

// A point, by its number.
pub fn put_point(out: &mut Printer, p: usize)
    requires { p < 512 }
    ensures { Prints out.old (point_bytes (point_of p)) out.new }
{
    if p < NODE_BASE {
        put_side(out, b" r", p);
    } else {
        put_side(out, b" n", p - NODE_BASE);
    }
}

// The points from position i on, as long as each absorbs the next one.
pub fn put_run(shown: &Shown, i: usize, out: &mut Printer)
    requires { i < shown.now.visits.count }
    ensures { Prints out.old (points_bytes (run_at (func_of shown.now.visits.func.now) i)) out.new }
{
    for j in i..shown.visits.count {
        put_point(out, shown.point(j));
        if !shown.absorbs(j) {
            break;
        }
    }
}
