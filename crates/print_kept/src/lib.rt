// The lines of kept blocks, a line each: `(block P (chain P..) (uses N) (to P..) (merge P..))`, where P is a point.
#![tactic(auto)]

ghost use Rattle.std.specs.Prelude.{◌<◌};
ghost use Rattle.func.specs.Decode.{func_of};
ghost use Rattle.walk_points.specs.Numbers.{point_of};
ghost use Rattle.terminators.specs.At.{point_at, visited_block};
ghost use Rattle.block_absorbs.specs.Absorbs.{absorbed};
ghost use Rattle.print_bytes.specs.Put.{PutBytes};
ghost use Rattle.print_bytes.specs.Prints.{Prints};
ghost use Rattle.print_lines.specs.Lines.{start_bytes, end_bytes, block_lines};
ghost use Rattle.print_lines.specs.Positions.{begin_bytes, line_at};

use print_bytes::Printer;
use print_labels::{put_merge, put_targets};
use print_points::shown::Shown;
use print_points::{put_point, put_run};

// `(block P (chain P..`, of a block that starts at position i.
fn put_start(shown: &Shown, i: usize, out: &mut Printer)
    requires { i < shown.now.visits.count }
    ensures { Prints out.old (start_bytes (func_of shown.now.visits.func.now) (point_at (func_of shown.now.visits.func.now) i)) out.new }
{
    out.put_bytes(b"(block");
    put_point(out, shown.point(i));
    out.put_bytes(b" (chain");
    put_run(shown, i, out);
}

// That, unless the point before absorbs this one.
fn put_begin(shown: &Shown, i: usize, out: &mut Printer)
    requires { i < shown.now.visits.count }
    ensures { Prints out.old (begin_bytes (func_of shown.now.visits.func.now) (absorbed (func_of shown.now.visits.func.now) i) (point_at (func_of shown.now.visits.func.now) i)) out.new }
{
    if shown.joined(i) {
        return;
    }
    put_start(shown, i, out);
}

// `) (uses N) (to P..) (merge P..))`, of the block that starts at the point with number h and ends at position i.
fn put_end(shown: &Shown, h: usize, i: usize, out: &mut Printer)
    requires { (h < 512) × (i < shown.now.visits.count) }
    ensures { Prints out.old (end_bytes (func_of shown.now.visits.func.now) (point_of h) (visited_block (func_of shown.now.visits.func.now) i).term) out.new }
{
    out.put_bytes(b") (uses");
    out.put_field(shown.uses(h));
    out.put_bytes(b") (to");
    put_targets(shown, i, out);
    out.put_bytes(b") (merge");
    put_merge(shown, i, out);
    out.put_bytes(b"))\n");
}

// What the point at position i brings to the lines.
fn put_position(shown: &Shown, i: usize, out: &mut Printer)
    requires { i < shown.now.visits.count }
    ensures { Prints out.old (line_at (func_of shown.now.visits.func.now) i) out.new }
{
    let Some(h) = shown.block(i) else {
        return;
    };
    put_begin(shown, i, out);
    if shown.absorbs(i) {
        return;
    }
    put_end(shown, h, i, out);
}

// The lines of the function.
pub fn put_lines(shown: &Shown, out: &mut [u8]) -> usize
    ensures { PutBytes out.old 0 (block_lines (func_of shown.now.visits.func.now)) out.new result }
{
    let mut lines = Printer { out, at: 0 };
    for i in 0..shown.visits.count {
        put_position(shown, i, &mut lines);
    }
    lines.at
}
