// The ids of one visited point: of its phis, of its results and of its label, each kind as a run from a given id on. The work slice is written, so
// that the layout is said of it before and after (crate emit_ids).
#![tactic(auto, using(terminators::specs::Plain::visited_plain))]

ghost use Rattle.std.specs.Prelude.{◌≡◌, ◌+◌, ◌≤◌, ◌<◌, length};
ghost use Rattle.lifting.specs.Parts.{block_ops, node_of};
ghost use Rattle.func.specs.Decode.{func_of};
ghost use Rattle.work.specs.Layout.{ids_end, work_need};
ghost use Rattle.terminators.specs.At.{point_at};
ghost use Rattle.blocks.specs.Laid.{Laid};
ghost use Rattle.emit_names.specs.Names.{key_word, label_names, op_names, ops_names, phi_names, result_names};
ghost use Rattle.emit_names.specs.Numbered.{GivesIds};

use emit_names::{first_child, give, has_result};
use func_look::Function;
use term_kinds::visits::Visits;
use term_labels::phi_count;
use terminators::Point;
use work::{INPUT_IDS, LABEL_IDS, OUTPUT_IDS, POINTS, RESULT_IDS, STATUSES, number, word};

// The word of the ids of the i-th visited point's phis.
fn phi_word(visits: &Visits, i: usize) -> usize
    requires { i < visits.now.count }
    ensures value { result ≡ key_word (func_of visits.now.func.now) (point_at (func_of visits.now.func.now) i) }
    ensures upper_bound { result < ids_end }
{
    match visits.point(i) {
        Point::RegionEntry(r) => INPUT_IDS + r,
        Point::RegionExit(_) => INPUT_IDS,
        Point::NodeEntry(n) => INPUT_IDS + first_child(visits.func, n),
        Point::NodeExit(n) => OUTPUT_IDS + n,
    }
}

// The phis of the i-th visited point get their ids, from k on: the next id.
pub fn phi_ids(func: &Function, work: &mut [u32], m: usize, i: usize, k: u32) -> u32
    requires laid { Laid func.now work.old m }
    requires i_lt_m { (i < m) × (k ≤ 4000000000) }
    ensures { GivesIds (phi_names (func_of func.now) i) k work.old result work.new }
{
    let visits = Visits {
        func: &*func,
        work,
        count: m,
    };
    let n = phi_count(&visits, i);
    let s = phi_word(&visits, i);
    give(work, s, k, n)
}

// The result of op o gets its id.
fn result_id(func: &Function, work: &mut [u32], o: usize, k: u32) -> u32
    requires work_need_in_bounds { (work_need ≤ length work.old) × (k < 4294967295) }
    ensures { GivesIds (op_names (func_of func.now) o) k work.old result work.new }
{
    func.known();
    if has_result(func, o) {
        return give(work, RESULT_IDS + o, k, 1);
    }
    k
}

// The results of the ops of node n do.
fn op_ids(func: &Function, work: &mut [u32], n: usize, first: u32) -> u32
    requires n_in_bounds { n < length (func_of func.now).nodes }
    requires work_need_in_bounds { (work_need ≤ length work.old) × (first ≤ 4000000000) }
    ensures { GivesIds (ops_names (func_of func.now) (block_ops (node_of (func_of func.now) n))) first work.old result work.new }
{
    func.known();
    let mut k = first;
    for j in 0..func.node_op_count(n) {
        k = result_id(func, work, func.node_op(n, j), k);
    }
    k
}

// The results of the i-th visited point do, where it stands in a kept block.
pub fn result_ids(func: &Function, work: &mut [u32], m: usize, i: usize, k: u32) -> u32
    requires laid { Laid func.now work.old m }
    requires i_lt_m { (i < m) × (k ≤ 4000000000) }
    ensures { GivesIds (result_names (func_of func.now) i) k work.old result work.new }
{
    if word(work, STATUSES, i) == 0 {
        return k;
    }
    let visits = Visits {
        func: &*func,
        work,
        count: m,
    };
    match visits.point(i) {
        Point::NodeEntry(n) => op_ids(func, work, n, k),
        _ => k,
    }
}

// The label of the i-th visited point gets its id, where a kept block starts with it.
pub fn label_ids(func: &Function, work: &mut [u32], m: usize, i: usize, k: u32) -> u32
    requires laid { Laid func.now work.old m }
    requires i_lt_m { (i < m) × (k ≤ 4000000000) }
    ensures { GivesIds (label_names (func_of func.now) i) k work.old result work.new }
{
    let q = number(work, POINTS, i);
    if number(work, STATUSES, i) == q + 1 {
        return give(work, LABEL_IDS + q, k, 1);
    }
    k
}
