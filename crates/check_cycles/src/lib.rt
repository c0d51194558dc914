// Whether a region lies around itself: the second part of refusal 5. A table of parents in the work slice, with one of stamps behind it, tells.
#![tactic(auto)]

ghost use Rattle.std.specs.Prelude.{◌≡◌, ℕ, ◌+◌, ◌≤◌, ◌<◌, length};
ghost use Rattle.func.specs.Layout.{regions};
ghost use Rattle.func.specs.Store.{count};
ghost use Rattle.work.specs.Layout.{stamps_at, work_need};
ghost use Rattle.check_marks.specs.Test.{kids, acyclic, cycle_test, ListsWhole};
ghost use Rattle.check_marks.specs.Marks.{mark_all, parent_table};
ghost use Rattle.check_cycles.specs.Stamps.{parent, Stamped, Climbed};

use check_marks::mark_run;
use func_pools::{Pool, count};
use func_rows::{RowList, row_at, row_count, row_element};
use work::{STAMPS, clear};

// A function slice in which the lists of nodes and of children are there whole.
#[derive(Clone, Copy)]
pub struct Listed<'a> {
    pub words: &'a [u32],
    pub ghost whole: { ListsWhole words.now },
}

// Region r is the parent of its nodes' children: their words are r + 1.
fn adopt(func: &Listed, r: usize, work: &mut [u32])
    requires { (r < count regions func.now.words.now) × (work_need ≤ length work.old) }
    ensures work_after { work.new ≡ mark_all (kids func.now.words.now r) (r + 1) work.old }
    ensures work_len_unchanged { length work.new ≡ length work.old }
{
    let v = (r + 1) as u32;
    let n = row_count(func.words, RowList::RegionNodes, r);
    for i in 0..n {
        let x = row_element(func.words, RowList::RegionNodes, r, i);
        mark_run(
            func.words,
            Pool::ChildRefs,
            row_at(func.words, RowList::NodeChildren, x, 0),
            row_count(func.words, RowList::NodeChildren, x),
            v,
            work,
        );
    }
}

// The table of parents, where the work slice was clear.
fn adopt_all(func: &Listed, n: usize, work: &mut [u32])
    requires { (n ≡ count regions func.now.words.now) × (work_need ≤ length work.old) }
    ensures work_after { work.new ≡ parent_table func.now.words.now n work.old }
    ensures work_len_unchanged { length work.new ≡ length work.old }
{
    for r in 0..n {
        adopt(func, r, work);
    }
}

// No region has a stamp.
fn clear_stamps(work: &mut [u32], n: usize)
    requires { (n ≤ stamps_at) × (work_need ≤ length work.old) × ((c : ℕ) → c < n → parent work.old c ≤ n) }
    ensures stamped { Stamped (parent work.old) n 0 work.new }
    ensures work_len_unchanged { length work.new ≡ length work.old }
{
    clear(work, STAMPS, STAMPS + n);
}

// Climbs outward from region r of n, up to a root or a region that has a stamp, and stamps the regions on the way: whether it comes to one
// that it has stamped itself.
fn climbs_back(work: &mut [u32], r: usize, n: usize) -> bool
    requires r_lt_n { r < n }
    requires stamped { Stamped (parent work.old) n r work.old }
    ensures climbed { Climbed result (parent work.old) n r work.new }
    ensures work_len_unchanged { length work.new ≡ length work.old }
{
    let own = (r + 1) as u32;
    let mut at = r;
    while work[STAMPS + at] == 0 {
        work[STAMPS + at] = own;
        let p = work[at] as usize;
        if p == 0 {
            return false;
        }
        at = p - 1;
    }
    work[STAMPS + at] == own
}

// No region lies around itself. Each is stamped once, and a climb looks at one more than it stamps: so all climbs together take at most two
// steps for each region.
fn none_around(work: &mut [u32], n: usize) -> bool
    requires { Stamped (parent work.old) n 0 work.old }
    ensures value { result ≡ acyclic (parent work.old) n }
    ensures work_len_unchanged { length work.new ≡ length work.old }
{
    for r in 0..n {
        if climbs_back(work, r, n) {
            return false;
        }
    }
    true
}

// The same, of the regions in the function slice.
pub fn no_cycle(func: &Listed, work: &mut [u32]) -> bool
    requires { work_need ≤ length work.old }
    ensures value { result ≡ cycle_test func.now.words.now }
    ensures work_len_unchanged { length work.new ≡ length work.old }
{
    let n = count(func.words, Pool::Regions) as usize;
    clear(work, 0, n);
    adopt_all(func, n, work);
    clear_stamps(work, n);
    none_around(work, n)
}
