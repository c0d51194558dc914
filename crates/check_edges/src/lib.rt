// What refusal 6 asks of the edges of a ctrl line, as it is read: each entry has as many values as its region has inputs, and a target without an
// entry has none. A region that has an entry in a line is marked with the line's number.
#![tactic(auto)]

ghost use Rattle.std.specs.Prelude.{◌≡◌, ◌+◌, ◌≤◌, ◌<◌, eqb, length};
ghost use Rattle.lifting.specs.Limits.{max_targets};
ghost use Rattle.func.specs.Layout.{func_need, values, targets};
ghost use Rattle.func.specs.Store.{count};
ghost use Rattle.work.specs.Layout.{work_need};
ghost use Rattle.check_edges.specs.Edges.{ins_of, mark_entry, target_entered, targets_fit};

use func_look::reference;
use func_pools::{Pool, count};
use func_rows::{RowList, row_count};
use refusals::limits::{MAX_REGIONS, MAX_TARGETS};
use work::{ENTERED, word};

// How many inputs region r has.
#[tactic(auto, unfolding(crate::specs::Edges::ins_of))]
fn ins_of(func: &[u32], r: usize) -> usize
    requires { func_need ≤ length func.now }
    ensures { (result ≡ ins_of func.now r) × (result ≤ 4095) }
{
    let n = count(func, Pool::Regions);
    if MAX_REGIONS < n || n as usize <= r {
        return 0;
    }
    row_count(func, RowList::RegionIns, r)
}

// Region r has an entry in this line.
#[tactic(auto, unfolding(crate::specs::Edges::mark_entry))]
pub fn mark(work: &mut [u32], line: u32, r: u32)
    requires { work_need ≤ length work.old }
    ensures work_after { work.new ≡ mark_entry line r work.old }
    ensures work_len_unchanged { length work.new ≡ length work.old }
{
    if r < MAX_REGIONS {
        work[ENTERED + r as usize] = line;
    }
}

// The values that were stored since there were n are as many as region r has inputs.
pub fn values_fit(func: &[u32], n: u32, r: u32) -> bool
    requires { func_need ≤ length func.now }
    ensures { result ≡ eqb (n + ins_of func.now r) (count values func.now) }
{
    let ins = ins_of(func, r as usize);
    n as usize + ins == count(func, Pool::Values) as usize
}

// Target i of all has an entry in this line, or its region has no inputs.
#[tactic(auto, using(crate::proofs::Laws::ins_low), unfolding(crate::specs::Edges::target_entered))]
fn target_fits(func: &[u32], work: &[u32], line: u32, i: usize) -> bool
    requires func_need_in_bounds { (func_need ≤ length func.now) × (work_need ≤ length work.now) }
    requires func_bound { (count targets func.now ≤ max_targets) × (i < count targets func.now) }
    ensures { result ≡ target_entered func.now work.now line i }
{
    let t = reference(func, Pool::Targets, i);
    ins_of(func, t) == 0 || word(work, ENTERED, t) == line
}

// So does each target of this line, the first of which is target `from` of all.
#[tactic(auto, unfolding(crate::specs::Edges::targets_fit))]
pub fn targets_fit(func: &[u32], work: &[u32], line: u32, from: u32) -> bool
    requires { (func_need ≤ length func.now) × (work_need ≤ length work.now) }
    ensures { result ≡ targets_fit func.now work.now line from }
{
    let n = count(func, Pool::Targets);
    MAX_TARGETS < n || (from as usize..n as usize).all(|i| target_fits(func, work, line, i))
}
