// The kind of the terminator at a visited point, and how many phis the entries of regions and nodes have.
#![tactic(auto, using(terminators::specs::Plain::visited_plain))]

ghost use Rattle.std.specs.Prelude.{◌≡◌, true, SomeIff, ◌-◌, ◌≤◌, ◌<◌, length};
ghost use Rattle.lifting.specs.Ast.{const};
ghost use Rattle.lifting.specs.Parts.{node_of, children_of};
ghost use Rattle.lifting.specs.Walk.{always, entry_keys, exit_term, in_block, top};
ghost use Rattle.func.specs.Decode.{func_of};
ghost use Rattle.func.specs.Kinds.{as_value};
ghost use Rattle.general_laws.specs.Members.{In};
ghost use Rattle.work.specs.Layout.{parents_end};
ghost use Rattle.lifting_blocks.specs.Follow.{goes_on};
ghost use Rattle.walk_points.specs.Parents.{Parents, parent_word};
ghost use Rattle.walk_points.specs.Walk.{Walkable};
ghost use Rattle.terminators.specs.At.{visited_block, place_in, point_at};
ghost use Rattle.terminators.specs.Kinds.{TermIs, as_point, is_loop, out_of};

pub mod visits;

use crate::visits::Visits;
use func::{NodeKind, Val};
use func_look::Function;
use opcodes::{InstKind, opcode};
use terminators::{Point, TermKind};
use walk_roots::tables::ctrl_at;
use work::{PARENTS, POINTS, number};

impl Visits<'_> {
    // The i-th visited point.
    pub fn point(&self, i: usize) -> Point
        requires { i < self.now.count }
        ensures { as_point result ≡ point_at (func_of self.now.func.now) i }
    {
        Point::from(number(self.work, POINTS, i))
    }

    // Straight on to the next visited point, from the entry of a region and the exit of a node.
    fn onward(&self, i: usize) -> TermKind
        requires i_in_bounds { i < self.now.count }
        requires i_value { goes_on (func_of self.now.func.now) (point_at (func_of self.now.func.now) i) ≡ true }
        ensures { TermIs (func_of self.now.func.now) (visited_block (func_of self.now.func.now) i).term result }
    {
        TermKind::Straight(number(self.work, POINTS, i + 1))
    }

    // Out of root r: by its ctrl line, or a return.
    fn root_exit(&self, r: usize) -> TermKind
        requires { r < length (func_of self.now.func.now).regions }
        ensures { TermIs (func_of self.now.func.now) (exit_term (func_of self.now.func.now) r top) result }
    {
        match ctrl_at(self.work, r) {
            Some(c) => TermKind::Line(c),
            None => TermKind::Return(r),
        }
    }

    // Out of region r.
    fn region_exit(&self, r: usize) -> TermKind
        requires { r < length (func_of self.now.func.now).regions }
        ensures { TermIs (func_of self.now.func.now) (exit_term (func_of self.now.func.now) r (place_in (func_of self.now.func.now) r)) result }
    {
        match parent(self.func, self.work, r) {
            Some(n) => child_exit(self.func, n, r),
            None => self.root_exit(r),
        }
    }

    // Into node n.
    fn node_entry(&self, n: usize) -> TermKind
        requires { n < length (func_of self.now.func.now).nodes }
        ensures { TermIs (func_of self.now.func.now) (in_block (func_of self.now.func.now) (node_of (func_of self.now.func.now) n) n).term result }
    {
        match self.func.node_kind(n) {
            NodeKind::Block => TermKind::Straight(Point::NodeExit(n).number()),
            NodeKind::SelectBool | NodeKind::SelectInst => {
                TermKind::Select(n, self.func.node_control(n))
            }
            NodeKind::Loop => TermKind::Loop(
                n,
                self.func.node_child(n, 0),
                self.func.node_control(n),
            ),
            NodeKind::Exit => TermKind::Leave(n),
        }
    }

    // The way out of the i-th visited point. Inlined, since it would be handed over in memory.
    #[inline(always)]
    pub fn term_kind(&self, i: usize) -> TermKind
        requires { i < self.now.count }
        ensures { TermIs (func_of self.now.func.now) (visited_block (func_of self.now.func.now) i).term result }
    {
        match self.point(i) {
            Point::RegionEntry(_) | Point::NodeExit(_) => self.onward(i),
            Point::RegionExit(r) => self.region_exit(r),
            Point::NodeEntry(n) => self.node_entry(n),
        }
    }
}

// Node n is a loop.
fn is_loop(func: &Function, n: usize) -> bool
    requires n_in_bounds { n < length (func_of func.now).nodes }
    ensures { result ≡ is_loop (node_of (func_of func.now) n) }
{
    func.node_kind(n) == NodeKind::Loop
}

// Constant k is true. A number that names no constant has opcode 0.
fn is_true(func: &Function, k: usize) -> bool
    ensures { result ≡ always (func_of func.now) (const k) }
{
    k < func.const_total() && func.constant(k).opcode == opcode(InstKind::ConstantTrue)
}

// A loop with the condition v never ends.
fn unconditional(func: &Function, v: Val) -> bool
    ensures { result ≡ always (func_of func.now) (as_value v) }
{
    match v {
        Val::Const(k) => is_true(func, k as usize),
        _ => false,
    }
}

// Out of the body r of loop n.
fn body_exit(func: &Function, n: usize, r: usize) -> TermKind
    requires n_in_bounds { (n < length (func_of func.now).nodes) × (r < length (func_of func.now).regions) }
    requires n_value { is_loop (node_of (func_of func.now) n) ≡ true }
    ensures { TermIs (func_of func.now) (out_of (func_of func.now) n r) result }
{
    if unconditional(func, func.node_value(n, 0)) {
        TermKind::Repeat(n, r)
    } else {
        TermKind::Test(n, r)
    }
}

// Out of region r of node n, a loop or a select.
fn child_exit(func: &Function, n: usize, r: usize) -> TermKind
    requires n_in_bounds { (n < length (func_of func.now).nodes) × (r < length (func_of func.now).regions) }
    requires fact { In r (children_of (node_of (func_of func.now) n)) }
    ensures { TermIs (func_of func.now) (out_of (func_of func.now) n r) result }
{
    if is_loop(func, n) {
        body_exit(func, n, r)
    } else {
        TermKind::Join(n, r)
    }
}

// The node around region r, if there is one. The table says so; the contract names the function.
fn parent(func: &Function, work: &[u32], r: usize) -> Option<usize>
    requires parents { Parents (func_of func.now) work.now }
    requires r_bound { (r < 128) × (parents_end ≤ length work.now) }
    ensures { SomeIff result (1 ≤ parent_word (func_of func.now) r) (parent_word (func_of func.now) r - 1) }
{
    number(work, PARENTS, r).checked_sub(1)
}

// How many phis the entry of region r has: the inputs of a root but the body.
pub fn entry_phis(func: &Function, work: &[u32], r: usize) -> usize
    requires parents { Parents (func_of func.now) work.now }
    requires r_in_bounds { (r < length (func_of func.now).regions) × (r < 128) × (parents_end ≤ length work.now) }
    ensures { result ≡ length (entry_keys (func_of func.now) r (place_in (func_of func.now) r)) }
{
    if r == 0 {
        return 0;
    }
    match parent(func, work, r) {
        Some(_) => 0,
        None => func.region_in_count(r),
    }
}

// How many the entry of node n has: the inputs of a loop's body.
pub fn in_phis(func: &Function, n: usize) -> usize
    requires walkable { Walkable (func_of func.now) }
    requires n_in_bounds { n < length (func_of func.now).nodes }
    ensures { result ≡ length (in_block (func_of func.now) (node_of (func_of func.now) n) n).keys }
{
    if is_loop(func, n) {
        func.region_in_count(func.node_child(n, 0))
    } else {
        0
    }
}
