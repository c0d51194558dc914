// The edges of a way out that may carry values into phis: one for each entry, or a sole edge without one.
#![tactic(auto)]

ghost use Rattle.std.specs.Prelude.{◌≡◌, ◌<◌, length, get_or};
ghost use Rattle.lifting.specs.Walk.{line_term};
ghost use Rattle.lifting.specs.Parts.{region_of};
ghost use Rattle.lifting.specs.Points.{region_entry};
ghost use Rattle.func.specs.Decode.{func_of};
ghost use Rattle.func.specs.Tables.{ctrl_line_of};
ghost use Rattle.walk_points.specs.Numbers.{point_number};
ghost use Rattle.walk_points.specs.Walk.{Walkable};
ghost use Rattle.terminators.specs.Edges.{term_edges};
ghost use Rattle.terminators.specs.Kinds.{Known, term_of};
ghost use Rattle.emit_edge_ends.specs.Aimed.{Aimed, any_of, sole_count};

use func_look::Function;
use terminators::{Point, TermKind};

// One, where there is just one target.
fn sole_count(n: usize) -> usize
    ensures { result ≡ sole_count n }
{
    usize::from(n == 1)
}

// How many edges ctrl line c has.
fn line_count(func: &Function, c: usize) -> usize
    requires c_in_bounds { c < length (func_of func.now).ctrls }
    ensures { result ≡ length (term_edges (line_term (ctrl_line_of (func_of func.now) c).1)) }
{
    let n = func.entry_count(c);
    if n != 0 {
        n
    } else {
        sole_count(func.target_count(c))
    }
}

// One, where region r has outputs, which a way back takes along.
fn back_count(func: &Function, r: usize) -> usize
    requires r_in_bounds { r < length (func_of func.now).regions }
    ensures { result ≡ any_of (region_of (func_of func.now) r).outs }
{
    usize::from(func.region_out_count(r) != 0)
}

// How many edges a way out has.
pub fn edge_count(func: &Function, w: TermKind) -> usize
    requires { Known func.now w }
    ensures { result ≡ length (term_edges (term_of (func_of func.now) w)) }
{
    match w {
        TermKind::Return(_) | TermKind::Leave(_) => 0,
        TermKind::Line(c) => line_count(func, c),
        TermKind::Select(n, _) => sole_count(func.node_child_count(n)),
        TermKind::Test(_, r) => back_count(func, r),
        _ => 1,
    }
}

// Where edge k of ctrl line c leads, as a point's number.
fn line_target(func: &Function, c: usize, k: usize) -> usize
    requires walkable { Walkable (func_of func.now) × Aimed (func_of func.now) }
    requires c_in_bounds { c < length (func_of func.now).ctrls }
    requires k_in_bounds { k < length (term_edges (line_term (ctrl_line_of (func_of func.now) c).1)) }
    ensures value { result ≡ point_number (get_or (term_edges (line_term (ctrl_line_of (func_of func.now) c).1)) k (region_entry 0, 0)).0 }
    ensures upper_bound { result < 512 }
{
    if func.entry_count(c) == 0 {
        return Point::RegionEntry(func.target(c, 0)).number();
    }
    Point::RegionEntry(func.entry_region(c, k)).number()
}

// Where edge k leads.
pub fn edge_target(func: &Function, w: TermKind, k: usize) -> usize
    requires known { Known func.now w }
    requires aimed { Aimed (func_of func.now) }
    requires k_in_bounds { k < length (term_edges (term_of (func_of func.now) w)) }
    ensures value { result ≡ point_number (get_or (term_edges (term_of (func_of func.now) w)) k (region_entry 0, 0)).0 }
    ensures upper_bound { result < 512 }
{
    match w {
        TermKind::Straight(q) => q,
        TermKind::Return(_) | TermKind::Leave(_) => 0,
        TermKind::Line(c) => line_target(func, c, k),
        TermKind::Select(n, _) => Point::RegionEntry(func.node_child(n, 0)).number(),
        TermKind::Loop(_, b, _) => Point::RegionEntry(b).number(),
        TermKind::Join(n, _) => Point::NodeExit(n).number(),
        // apart from the next one, since under one pattern for both the proof does not learn which it was
        TermKind::Repeat(n, _) => Point::NodeEntry(n).number(),
        TermKind::Test(n, _) => Point::NodeEntry(n).number(),
    }
}
