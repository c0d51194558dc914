// The labels, targets and phis of a visited point, by its position.
#![tactic(auto, using(terminators::specs::Plain::visited_plain))]

ghost use Rattle.std.specs.Prelude.{◌≡◌, ◌≤◌, ◌<◌, length, get_or};
ghost use Rattle.lifting.specs.Points.{region_entry};
ghost use Rattle.lifting.specs.Absorb.{labels, merge_labels, sole_target};
ghost use Rattle.func.specs.Decode.{func_of};
ghost use Rattle.walk_points.specs.Numbers.{point_number};
ghost use Rattle.terminators.specs.At.{visited_block};
ghost use Rattle.terminators.specs.Kinds.{as_sole};

use term_kinds::visits::Visits;
use term_kinds::{entry_phis, in_phis};
use term_parts::{merge, merges, sole, target_at, targets};
use terminators::Point;

// How many merge labels the i-th visited point has.
pub fn merge_count(visits: &Visits, i: usize) -> usize
    requires { i < visits.now.count }
    ensures { result ≡ length (merge_labels (visited_block (func_of visits.now.func.now) i).term.merge) }
{
    merges(visits.term_kind(i))
}

// How many targets it has.
pub fn target_count(visits: &Visits, i: usize) -> usize
    requires { i < visits.now.count }
    ensures { result ≡ length (visited_block (func_of visits.now.func.now) i).term.targets }
{
    targets(visits.func, visits.term_kind(i))
}

// Its target k.
pub fn target(visits: &Visits, i: usize, k: usize) -> usize
    requires i_in_bounds { i < visits.now.count }
    requires k_in_bounds { k < length (visited_block (func_of visits.now.func.now) i).term.targets }
    ensures { result ≡ point_number (get_or (visited_block (func_of visits.now.func.now) i).term.targets k (region_entry 0)) }
{
    target_at(visits.func, visits.term_kind(i), k)
}

// How many labels it has, merges and targets.
pub fn label_count(visits: &Visits, i: usize) -> usize
    requires { i < visits.now.count }
    ensures value { result ≡ length (labels (visited_block (func_of visits.now.func.now) i).term) }
    ensures upper_bound { result ≤ 4097 }
{
    let w = visits.term_kind(i);
    merges(w) + targets(visits.func, w)
}

// Its label k: the merges, then the targets.
pub fn label(visits: &Visits, i: usize, k: usize) -> usize
    requires i_in_bounds { i < visits.now.count }
    requires k_in_bounds { k < length (labels (visited_block (func_of visits.now.func.now) i).term) }
    ensures { result ≡ point_number (get_or (labels (visited_block (func_of visits.now.func.now) i).term) k (region_entry 0)) }
{
    let w = visits.term_kind(i);
    let c = merges(w);
    if k < c {
        merge(visits.func, w, k)
    } else {
        target_at(visits.func, w, k - c)
    }
}

// Its only target, if it can be absorbed.
pub fn sole_target(visits: &Visits, i: usize) -> Option<usize>
    requires { i < visits.now.count }
    ensures { result ≡ as_sole (sole_target (visited_block (func_of visits.now.func.now) i).term) }
{
    sole(visits.func, visits.term_kind(i))
}

// How many phis it has.
pub fn phi_count(visits: &Visits, i: usize) -> usize
    requires { i < visits.now.count }
    ensures { result ≡ length (visited_block (func_of visits.now.func.now) i).keys }
{
    match visits.point(i) {
        Point::RegionEntry(r) => entry_phis(visits.func, visits.work, r),
        Point::RegionExit(_) => 0,
        Point::NodeEntry(n) => in_phis(visits.func, n),
        Point::NodeExit(n) => visits.func.node_out_count(n),
    }
}
