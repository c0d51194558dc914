// The roots that ctrl lines reach, in reverse post-order: a depth-first walk from region 0 that takes targets last to first. It calls itself for
// each target that is not marked. Roots that are done stand at the end of their table, the last one first.
ghost use Rattle.std.specs.Prelude.{◌≡◌, [], ◌+◌, ◌-◌, ◌≤◌, ◌<◌, length, get_or, set};
ghost use Rattle.lifting.specs.Order.{roots};
ghost use Rattle.func.specs.Decode.{func_of};
ghost use Rattle.work.specs.Layout.{roots_end, marks_at, tables_end, work_need};
ghost use Rattle.work.specs.Aside.{Aside};
ghost use Rattle.walk_roots.specs.Tables.{RegionsNamed, Indexed, RegionsMarked};
ghost use Rattle.walk_roots.specs.Visit.{ways, last_roots, RootsLow, WalkReady, RootsVisited};

use crate::tables::{ctrl_at, index};
use func_look::Function;
use work::{MARKS, ROOTS_END, word};

// How many targets root r has.
fn way_count(func: &Function, work: &[u32], r: usize) -> usize
    requires indexed { Indexed (func_of func.now) work.now }
    requires r_bound { (r < 128) × (tables_end ≤ length work.now) }
    ensures { result ≡ length (ways (func_of func.now) r) }
{
    match ctrl_at(work, r) {
        Some(c) => func.target_count(c),
        None => 0,
    }
}

// Target i of root r.
fn way(func: &Function, work: &[u32], r: usize, i: usize) -> usize
    requires indexed { Indexed (func_of func.now) work.now }
    requires r_bound { (r < 128) × (tables_end ≤ length work.now) }
    requires i_in_bounds { i < length (ways (func_of func.now) r) }
    ensures { result ≡ get_or (ways (func_of func.now) r) i 0 }
{
    match ctrl_at(work, r) {
        Some(c) => func.target(c, i),
        None => 0,
    }
}

// Root r is marked.
fn set_mark(work: &mut [u32], r: usize)
    requires { (r < 128) × (tables_end ≤ length work.old) }
    ensures { work.new ≡ set work.old (marks_at + r) 1 }
{
    work[MARKS + r] = 1;
}

// Root r is done, after n others.
fn leave(work: &mut [u32], n: usize, r: usize) -> usize
    requires { (n < 128) × (r < 128) × (tables_end ≤ length work.old) }
    ensures value { result ≡ n + 1 }
    ensures work_after { work.new ≡ set work.old (roots_end - 1 - n) r }
{
    work[ROOTS_END - 1 - n] = r as u32;
    n + 1
}

// Walks from root r, which is not marked, with n roots done: how many are done then.
fn visit(func: &Function, work: &mut [u32], r: usize, n: usize) -> usize
    requires { WalkReady func.now work.old r n }
    ensures roots_visited { RootsVisited (func_of func.now) work.old r n work.new result }
    ensures work_len_unchanged { length work.new ≡ length work.old }
{
    set_mark(work, r);
    let mut at = n;
    for i in (0..way_count(func, work, r)).rev() {
        let t = way(func, work, r, i);
        if word(work, MARKS, t) == 0 {
            at = visit(func, work, t, at);
        }
    }
    leave(work, at, r)
}

// The roots, where the table of ctrl lines stands and none is marked: how many they are.
pub fn order(func: &Function, work: &mut [u32]) -> usize
    requires regions_named { RegionsNamed (func_of func.now) }
    requires regions_nonzero { 0 < length (func_of func.now).regions }
    requires indexed { Indexed (func_of func.now) work.old }
    requires regions_marked { RegionsMarked marks_at [] work.old × (tables_end ≤ length work.old) }
    ensures result_after { last_roots work.new result ≡ roots (func_of func.now) }
    ensures upper_bound { result ≤ length (func_of func.now).regions }
    ensures roots_low { RootsLow (func_of func.now) work.new result }
    ensures indexed_2 { Indexed (func_of func.now) work.new }
    ensures aside { Aside 0 tables_end work.old work.new }
    ensures work_len_unchanged { length work.new ≡ length work.old }
{
    func.known();
    visit(func, work, 0, 0)
}

// The roots: how many they are. They stand at the end of their table, and the ctrl lines by region stand too. Only the tables of the control-flow
// walk are written.
pub fn reached(func: &Function, work: &mut [u32]) -> usize
    requires regions_named { RegionsNamed (func_of func.now) }
    requires regions_nonzero { 0 < length (func_of func.now).regions }
    requires work_need_in_bounds { work_need ≤ length work.old }
    ensures result_after { last_roots work.new result ≡ roots (func_of func.now) }
    ensures upper_bound { result ≤ length (func_of func.now).regions }
    ensures roots_low { RootsLow (func_of func.now) work.new result }
    ensures indexed { Indexed (func_of func.now) work.new }
    ensures aside { Aside 0 tables_end work.old work.new }
    ensures work_len_unchanged { length work.new ≡ length work.old }
{
    index(func, work);
    order(func, work)
}
