// Whether a reference stands twice: the first part of refusal 5. Counts are compared first, since a pool of references that is over its room
// cannot pass; then marks in the work slice tell whether a reference stands twice.
#![tactic(auto)]

ghost use Rattle.std.specs.Prelude.{◌≡◌, ◌≤◌, ◌<◌, length};
ghost use Rattle.func.specs.Layout.{func_need, entry_words, entry_room, child_refs};
ghost use Rattle.func.specs.Store.{count};
ghost use Rattle.work.specs.Layout.{work_need};
ghost use Rattle.func_pools.specs.Pools.{pool_number};
ghost use Rattle.check_marks.specs.Test.{pool_numbers, refs, once_test, child_fit, child_test, Refs, TreeSafe};
ghost use Rattle.check_marks.specs.Marks.{Run, fresh_marks};

use func_pools::{Pool, count};
use func_rows::{RowList, row_count, row_element, row_ref};
use work::clear;

// None of the first n numbers of pool k stands twice or names a marked word. Their words are marked.
fn all_fresh(func: &[u32], k: Pool, n: usize, work: &mut [u32]) -> bool
    requires { Run (pool_number k) func.now 0 n (length work.old) }
    ensures value { result ≡ fresh_marks (pool_numbers (pool_number k) func.now 0 n) work.old }
    ensures work_len_unchanged { length work.new ≡ length work.old }
{
    for i in 0..n {
        let x = row_ref(func, k, i);
        if work[x] == 1 {
            return false;
        }
        work[x] = 1;
    }
    true
}

// Each line of pool p stands once in pool k.
pub fn stands_once(func: &[u32], k: Pool, p: Pool, work: &mut [u32]) -> bool
    requires func_need_in_bounds { (func_need ≤ length func.now) × (work_need ≤ length work.old) }
    requires k_refers { (0 < entry_words (pool_number k)) × Refs (pool_number k) (pool_number p) func.now }
    ensures value { result ≡ once_test (pool_number k) (pool_number p) func.now }
    ensures work_len_unchanged { length work.new ≡ length work.old }
{
    let n = count(func, p);
    if count(func, k) != n {
        return false;
    }
    clear(work, 0, n as usize);
    all_fresh(func, k, n as usize, work)
}

// A function slice in which each reference names a line, and each list of nodes or children lies in its pool.
#[derive(Clone, Copy)]
pub struct Lined<'a> {
    pub words: &'a [u32],
    pub ghost safe: { TreeSafe words.now },
}

// Goes through the nodes and their child regions, up to the first region that has a parent already: its word is marked.
fn one_parent(func: &Lined, work: &mut [u32]) -> bool
    requires { (count child_refs func.now.words.now ≤ entry_room child_refs) × (work_need ≤ length work.old) }
    ensures value { result ≡ fresh_marks (refs child_refs func.now.words.now) work.old }
    ensures work_len_unchanged { length work.new ≡ length work.old }
{
    let total = count(func.words, Pool::Nodes) as usize;
    let mut once = true;
    'nodes: for n in 0..total {
        let m = row_count(func.words, RowList::NodeChildren, n);
        'children: for i in 0..m {
            let c = row_element(func.words, RowList::NodeChildren, n, i);
            if work[c] == 1 {
                once = false;
                break 'nodes;
            }
            work[c] = 1;
        }
    }
    once
}

// Of n regions c can be children, where there are k ctrl lines.
fn child_fit(n: u32, c: u32, k: u32) -> bool
    requires { c < 4294967295 }
    ensures { result ≡ child_fit n c k }
{
    if n == 0 {
        return c == 0;
    }
    if k == 0 {
        return c + 1 == n;
    }
    c < n
}

// No region is child of two places, and the first of none; without ctrl lines each other one is a child.
pub fn children_once(func: &Lined, work: &mut [u32]) -> bool
    requires { work_need ≤ length work.old }
    ensures value { result ≡ child_test func.now.words.now }
    ensures work_len_unchanged { length work.new ≡ length work.old }
{
    let n = count(func.words, Pool::Regions);
    let c = count(func.words, Pool::ChildRefs);
    if n < c || !child_fit(n, c, count(func.words, Pool::Ctrls)) {
        return false;
    }
    clear(work, 0, n as usize);
    work[0] = 1;
    one_parent(func, work)
}
