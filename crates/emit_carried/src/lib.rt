// The phis of a visited point: what each has for attributes and type, and what moves into it along an edge.
#![tactic(auto, using(terminators::specs::Plain::visited_plain))]

ghost use Rattle.std.specs.Prelude.{◌≡◌, ◌<◌, length, get_or};
ghost use Rattle.lifting.specs.Walk.{line_term};
ghost use Rattle.lifting.specs.Ast.{const};
ghost use Rattle.func.specs.Decode.{func_of};
ghost use Rattle.func.specs.Tables.{ctrl_line_of};
ghost use Rattle.func.specs.Kinds.{decl_of_slot, as_value, decl_from};
ghost use Rattle.terminators.specs.At.{visited_block};
ghost use Rattle.terminators.specs.Edges.{values_along};
ghost use Rattle.terminators.specs.Kinds.{Known, term_of};
ghost use Rattle.emit_lists.specs.Phis.{Carries, OutsCarried};

use emit_lists::Carried;
use func::{Slot, Val};
use func_look::Function;
use term_kinds::visits::Visits;
use terminators::{Point, TermKind};

// Phi j of the i-th visited point.
pub fn phi_decl(visits: &Visits, i: usize, j: usize) -> Slot
    requires i_in_bounds { i < visits.now.count }
    requires j_in_bounds { j < length (visited_block (func_of visits.now.func.now) i).keys }
    ensures { decl_of_slot result ≡ get_or (visited_block (func_of visits.now.func.now) i).decls j (decl_from 0 0) }
{
    match visits.point(i) {
        Point::RegionEntry(r) => visits.func.region_in(r, j),
        Point::RegionExit(_) => Slot { attrs: 0, ty: 0 },
        Point::NodeEntry(n) => visits.func.region_in(visits.func.node_child(n, 0), j),
        Point::NodeExit(n) => visits.func.node_out(n, j),
    }
}

// The values of ctrl line c's entries, if it has any.
fn line_carries(func: &Function, c: usize) -> Carried
    requires c_in_bounds { c < length (func_of func.now).ctrls }
    ensures { Carries (func_of func.now) (line_term (ctrl_line_of (func_of func.now) c).1).vals result }
{
    if func.entry_count(c) == 0 {
        return Carried::Defaults;
    }
    Carried::Entries(c)
}

// The outputs of region r, if it has any. Apart from the line's: it promises of edges to any point what that promises of the line's own.
fn outs_carry(func: &Function, r: usize) -> Carried
    requires r_in_bounds { r < length (func_of func.now).regions }
    ensures { OutsCarried (func_of func.now) r result }
{
    if func.region_out_count(r) == 0 {
        return Carried::Defaults;
    }
    Carried::Outputs(r)
}

// The values along the edges of a way out.
fn carries(func: &Function, w: TermKind) -> Carried
    requires { Known func.now w }
    ensures { Carries (func_of func.now) (term_of (func_of func.now) w).vals result }
{
    match w {
        TermKind::Line(c) => line_carries(func, c),
        // three arms, since under one pattern for all the proof does not learn which it was
        TermKind::Join(_, r) => outs_carry(func, r),
        TermKind::Repeat(_, r) => outs_carry(func, r),
        TermKind::Test(_, r) => outs_carry(func, r),
        _ => Carried::Defaults,
    }
}

// What phi j of the i-th visited point takes along an edge without values: an init of the loop that begins there.
fn default_value(visits: &Visits, i: usize, j: usize) -> Val
    requires i_in_bounds { i < visits.now.count }
    requires j_in_bounds { j < length (visited_block (func_of visits.now.func.now) i).defaults }
    ensures { as_value result ≡ get_or (visited_block (func_of visits.now.func.now) i).defaults j (const 0) }
{
    match visits.point(i) {
        Point::NodeEntry(n) => visits.func.node_value(n, 1 + j),
        _ => Val::Const(0),
    }
}

// What moves into phi j of the i-th visited point along the edge of entry e from the p-th.
pub fn edge_value(visits: &Visits, i: usize, p: usize, e: usize, j: usize) -> Val
    requires i_in_bounds { (i < visits.now.count) × (p < visits.now.count) }
    requires j_in_bounds { j < length (values_along (visited_block (func_of visits.now.func.now) p).term.vals e (visited_block (func_of visits.now.func.now) i).defaults) }
    ensures { as_value result ≡ get_or (values_along (visited_block (func_of visits.now.func.now) p).term.vals e (visited_block (func_of visits.now.func.now) i).defaults) j (const 0) }
{
    match carries(visits.func, visits.term_kind(p)) {
        Carried::Entries(c) => visits.func.entry_value(c, e, j),
        Carried::Outputs(r) => visits.func.region_out(r, j),
        Carried::Defaults => default_value(visits, i, j),
    }
}
