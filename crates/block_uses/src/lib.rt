// Use counts: a table of the work slice with a word for each of 512 points, by number. The first point counts one, and so does each label. The slice is
// written, so that the visited points are said of it before and after; where they are only read they are `Visits`.
#![tactic(auto)]

ghost use Rattle.std.specs.Prelude.{◌≡◌, ◌+◌, ◌≤◌, ◌<◌, length, get_or, set};
ghost use Rattle.lifting.specs.Walk.{walk_of};
ghost use Rattle.func.specs.Decode.{func_of};
ghost use Rattle.work.specs.Layout.{uses_at, uses_end};
ghost use Rattle.work.specs.Aside.{Aside};
ghost use Rattle.lifting_blocks.specs.Totals.{uses_of};
ghost use Rattle.terminators.specs.Visited.{Visited};
ghost use Rattle.block_uses.specs.Uses.{Counted, Tallied, Tally};

use func_look::Function;
use term_kinds::visits::Visits;
use term_labels::{label, label_count};
use work::{USES, USES_END, clear};

// One more use of point q.
fn bump(work: &mut [u32], q: usize)
    requires q_bound { (q < 512) × (uses_end ≤ length work.old) }
    requires q_bound_2 { get_or work.old (uses_at + q) 0 < 4000000 }
    ensures work_after { work.new ≡ set work.old (uses_at + q) (get_or work.old (uses_at + q) 0 + 1) }
    ensures work_len_unchanged { length work.new ≡ length work.old }
{
    work[USES + q] += 1;
}

// The labels of the i-th visited point are counted.
fn count_labels(func: &Function, work: &mut [u32], m: usize, i: usize)
    requires visited { Visited func.now work.old m }
    requires tallied { Tallied (func_of func.now) i work.old }
    requires i_lt_m { i < m }
    ensures tallied_2 { Tallied (func_of func.now) (i + 1) work.new }
    ensures aside { Aside uses_at uses_end work.old work.new }
    ensures work_len_unchanged { length work.new ≡ length work.old }
{
    let visits = Visits {
        func: &*func,
        work,
        count: m,
    };
    for j in 0..label_count(&visits, i) {
        let visits = Visits {
            func: &*func,
            work,
            count: m,
        };
        let q = label(&visits, i, j);
        bump(work, q);
    }
}

// The labels of all visited points are.
fn count_all(func: &Function, work: &mut [u32], m: usize)
    requires visited { Visited func.now work.old m }
    requires tallied { Tallied (func_of func.now) 0 work.old }
    ensures tally { Tally (uses_of (walk_of (func_of func.now))) work.new }
    ensures aside { Aside uses_at uses_end work.old work.new }
    ensures work_len_unchanged { length work.new ≡ length work.old }
{
    for i in 0..m {
        count_labels(func, work, m, i);
    }
}

// The use counts stand. The first point is the body's entry, whose number is 0.
pub fn count_uses(func: &Function, work: &mut [u32], m: usize)
    requires { Visited func.now work.old m }
    ensures counted { Counted (func_of func.now) work.new }
    ensures visited { Visited func.now work.new m }
    ensures aside { Aside uses_at uses_end work.old work.new }
    ensures work_len_unchanged { length work.new ≡ length work.old }
{
    clear(work, USES, USES_END);
    bump(work, 0);
    count_all(func, work, m);
}
