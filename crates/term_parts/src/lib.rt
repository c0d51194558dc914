// The parts of a terminator: its merge labels, its targets, and the only target that can be absorbed. Labels are numbers of points. A function
// and its way out stay two parameters: a visited point answers with the way out alone, and of a value that holds both each use would have to show
// that its function is the caller's.
#![tactic(auto)]

ghost use Rattle.std.specs.Prelude.{◌≡◌, [], ◌∷◌, ◌≤◌, ◌<◌, length, get_or};
ghost use Rattle.lifting.specs.Walk.{line_term};
ghost use Rattle.lifting.specs.Parts.{region_of};
ghost use Rattle.lifting.specs.Points.{region_entry};
ghost use Rattle.lifting.specs.Absorb.{merge_labels, sole_target};
ghost use Rattle.func.specs.Decode.{func_of};
ghost use Rattle.func.specs.Tables.{ctrl_line_of};
ghost use Rattle.walk_points.specs.Numbers.{Small, point_number};
ghost use Rattle.walk_points.specs.Walk.{Walkable};
ghost use Rattle.terminators.specs.Kinds.{Known, as_point, as_sole, bare_sole, merge_control, merge_of, term_of};

use func::CtrlKind;
use func_look::Function;
use terminators::{Point, TermKind};

// How many merge labels a way out has.
pub fn merges(w: TermKind) -> usize
    ensures { result ≡ length (merge_labels (merge_of w)) }
{
    match w {
        TermKind::Select(_, _) => 1,
        TermKind::Loop(_, _, _) => 2,
        _ => 0,
    }
}

// The control number of its merge, 0 without one: the text's own number for none.
pub fn merge_control(w: TermKind) -> u32
    ensures { result ≡ merge_control (merge_of w) }
{
    match w {
        TermKind::Select(_, u) => u,
        TermKind::Loop(_, _, u) => u,
        _ => 0,
    }
}

// The number of point p for k = 0, and of point q for k = 1.
fn either(p: Point, q: Point, k: usize) -> usize
    requires small { Small (as_point p) × Small (as_point q) }
    requires k_bound { k < 2 }
    ensures { result ≡ point_number (get_or (as_point p ∷ as_point q ∷ []) k (region_entry 0)) }
{
    if k == 0 { p.number() } else { q.number() }
}

// Merge label k: where a node is left, and for a loop then where the way back begins.
pub fn merge(func: &Function, w: TermKind, k: usize) -> usize
    requires known { Known func.now w }
    requires k_in_bounds { k < length (merge_labels (merge_of w)) }
    ensures { result ≡ point_number (get_or (merge_labels (merge_of w)) k (region_entry 0)) }
{
    match w {
        TermKind::Select(n, _) => Point::NodeExit(n).number(),
        TermKind::Loop(n, b, _) => either(Point::NodeExit(n), Point::RegionExit(b), k),
        _ => 0,
    }
}

// How many targets it has.
pub fn targets(func: &Function, w: TermKind) -> usize
    requires { Known func.now w }
    ensures value { result ≡ length (term_of (func_of func.now) w).targets }
    ensures upper_bound { result ≤ 4095 }
{
    match w {
        TermKind::Return(_) => 0,
        TermKind::Line(c) => func.target_count(c),
        TermKind::Leave(_) => 0,
        TermKind::Select(n, _) => func.node_child_count(n),
        TermKind::Test(_, _) => 2,
        _ => 1,
    }
}

// Target k.
pub fn target_at(func: &Function, w: TermKind, k: usize) -> usize
    requires known { Known func.now w }
    requires k_in_bounds { k < length (term_of (func_of func.now) w).targets }
    ensures { result ≡ point_number (get_or (term_of (func_of func.now) w).targets k (region_entry 0)) }
{
    match w {
        TermKind::Straight(q) => q,
        TermKind::Line(c) => Point::RegionEntry(func.target(c, k)).number(),
        TermKind::Select(n, _) => Point::RegionEntry(func.node_child(n, k)).number(),
        TermKind::Loop(_, b, _) => Point::RegionEntry(b).number(),
        TermKind::Join(n, _) => Point::NodeExit(n).number(),
        TermKind::Repeat(n, _) => Point::NodeEntry(n).number(),
        TermKind::Test(n, _) => either(Point::NodeEntry(n), Point::NodeExit(n), k),
        _ => 0,
    }
}

// The only target of ctrl line c.
fn line_sole(func: &Function, c: usize) -> Option<usize>
    requires walkable { Walkable (func_of func.now) }
    requires c_in_bounds { c < length (func_of func.now).ctrls }
    ensures { result ≡ as_sole (sole_target (line_term (ctrl_line_of (func_of func.now) c).1)) }
{
    if func.ctrl_attrs(c) == 0
        && func.ctrl_kind(c) == CtrlKind::Branch
        && func.ctrl_in_count(c) == 0
        && func.entry_count(c) == 0
        && func.target_count(c) == 1
    {
        return Some(Point::RegionEntry(func.target(c, 0)).number());
    }
    None
}

// Point q, if region r has no outputs.
fn bare(func: &Function, r: usize, q: usize) -> Option<usize>
    requires r_in_bounds { r < length (func_of func.now).regions }
    ensures { result ≡ bare_sole q (region_of (func_of func.now) r).outs }
{
    if func.region_out_count(r) == 0 {
        return Some(q);
    }
    None
}

// The only target, if it can be absorbed.
pub fn sole(func: &Function, w: TermKind) -> Option<usize>
    requires { Known func.now w }
    ensures { result ≡ as_sole (sole_target (term_of (func_of func.now) w)) }
{
    match w {
        TermKind::Straight(q) => Some(q),
        TermKind::Line(c) => line_sole(func, c),
        TermKind::Join(n, r) => bare(func, r, Point::NodeExit(n).number()),
        TermKind::Repeat(n, r) => bare(func, r, Point::NodeEntry(n).number()),
        _ => None,
    }
}
