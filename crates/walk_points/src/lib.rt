// The walk over a checked function: the region walk and the node walk call each other, and each point that they visit is appended to the order,
// as a number in the work slice. Below a region stand its nodes, below a node its regions, and the checked tree ends the walk. Function and work slice are
// two parameters, since only the second is written.
#![tactic(auto)]

pub mod parents;

ghost use Rattle.std.specs.Prelude.{◌≡◌, ◌+◌, ◌-◌, ◌≤◌, ◌<◌, length, get_or, set};
ghost use Rattle.std.proofs.lemmas.List.Edits.{sets};
ghost use Rattle.lifting.specs.Order.{roots};
ghost use Rattle.lifting.specs.Points.{points};
ghost use Rattle.lifting.specs.Walk.{walk_of};
ghost use Rattle.func.specs.Decode.{func_of};
ghost use Rattle.work.specs.Layout.{roots_end, points_at, points_end, work_need};
ghost use Rattle.walk_roots.specs.Tables.{Indexed};
ghost use Rattle.walk_roots.specs.Visit.{last_roots};
ghost use Rattle.walk_points.specs.Numbers.{visited};
ghost use Rattle.walk_points.specs.Below.{region_words, node_words};
ghost use Rattle.walk_points.specs.Parents.{Parents};
ghost use Rattle.walk_points.specs.Walk.{Walkable, PointsReady, Walked};
ghost use Rattle.walk_points.specs.Words.{WalkWords};

use crate::parents::parents;
use func_look::Function;
use walk_roots::walk::reached;
use work::{POINTS, ROOTS_END};

pub const NODE_BASE: usize = 256;

// Point p is visited after m others: how many there are then.
fn put(work: &mut [u32], m: usize, p: usize) -> usize
    requires { (m < 512) × (p < 512) × (points_end ≤ length work.old) }
    ensures value { result ≡ m + 1 }
    ensures work_after { work.new ≡ set work.old (points_at + m) p }
    ensures work_len_unchanged { length work.new ≡ length work.old }
{
    work[POINTS + m] = p as u32;
    m + 1
}

// The points of region r are visited after m others: how many there are then.
#[cycle(walk_node_walk_region)]
fn walk_region(func: &Function, work: &mut [u32], r: usize, m: usize) -> usize
    requires points_ready { PointsReady func.now work.old m (length (region_words (func_of func.now) r)) }
    requires r_in_bounds { r < length (func_of func.now).regions }
    ensures value { result ≡ m + length (region_words (func_of func.now) r) }
    ensures work_after { work.new ≡ sets work.old (points_at + m) (region_words (func_of func.now) r) }
    ensures work_len_unchanged { length work.new ≡ length work.old }
{
    let mut at = put(work, m, 2 * r);
    for i in 0..func.region_node_count(r) {
        at = walk_node(func, work, func.region_node(r, i), at);
    }
    put(work, at, 2 * r + 1)
}

// The points of node n are visited after m others: how many there are then.
#[cycle(walk_node_walk_region)]
fn walk_node(func: &Function, work: &mut [u32], n: usize, m: usize) -> usize
    requires points_ready { PointsReady func.now work.old m (length (node_words (func_of func.now) n)) }
    requires n_in_bounds { n < length (func_of func.now).nodes }
    ensures value { result ≡ m + length (node_words (func_of func.now) n) }
    ensures work_after { work.new ≡ sets work.old (points_at + m) (node_words (func_of func.now) n) }
    ensures work_len_unchanged { length work.new ≡ length work.old }
{
    let mut at = put(work, m, NODE_BASE + 2 * n);
    for i in 0..func.node_child_count(n) {
        at = walk_region(func, work, func.node_child(n, i), at);
    }
    put(work, at, NODE_BASE + 2 * n + 1)
}

// Root i of the n roots that stand at the end of their table.
fn root(work: &[u32], n: usize, i: usize) -> usize
    requires { (n ≤ roots_end) × (i < n) × (roots_end ≤ length work.now) }
    ensures { result ≡ get_or work.now (roots_end - n + i) 0 }
{
    work[ROOTS_END - n + i] as usize
}

// The points of the n roots that stand at the end of their table: how many there are.
fn walk_roots(func: &Function, work: &mut [u32], n: usize) -> usize
    requires walkable { Walkable (func_of func.now) }
    requires points_end_in_bounds { points_end ≤ length work.old }
    requires n_value { (last_roots work.old n ≡ roots (func_of func.now)) × (n ≤ length (func_of func.now).regions) }
    ensures walked { Walked (func_of func.now) work.old work.new result }
    ensures work_len_unchanged { length work.new ≡ length work.old }
{
    func.known();
    let mut at = 0;
    for i in 0..n {
        at = walk_region(func, work, root(work, n, i), at);
    }
    at
}

// The points in the order of the walk: how many they are. Their numbers stand in the work slice, with the parents of regions and the
// ctrl lines by region. Behind the tables of the control-flow walk no other word is written.
pub fn walk(func: &Function, work: &mut [u32]) -> usize
    requires walkable { Walkable (func_of func.now) }
    requires work_need_in_bounds { work_need ≤ length work.old }
    ensures value { result ≡ length (walk_of (func_of func.now)) }
    ensures result_after { visited work.new result ≡ points (walk_of (func_of func.now)) }
    ensures upper_bound { result ≤ 512 }
    ensures parents { Parents (func_of func.now) work.new }
    ensures indexed { Indexed (func_of func.now) work.new }
    ensures walk_words { WalkWords (func_of func.now) work.old work.new }
    ensures work_len_unchanged { length work.new ≡ length work.old }
{
    func.known();
    let n = reached(func, work);
    parents(func, work);
    walk_roots(func, work, n)
}
