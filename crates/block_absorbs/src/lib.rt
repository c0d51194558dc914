// The kept blocks as runs of visited points: one pass forward says of each position in which block it stands, and whether its point absorbs the
// next one.
#![tactic(auto)]

ghost use Rattle.std.specs.Prelude.{◌≡◌, ◌+◌, ◌≤◌, ◌<◌, length, set};
ghost use Rattle.func.specs.Decode.{func_of};
ghost use Rattle.work.specs.Layout.{statuses_at, absorbs_at, absorbs_end};
ghost use Rattle.work.specs.Aside.{Aside};
ghost use Rattle.terminators.specs.At.{point_at};
ghost use Rattle.terminators.specs.Visited.{Visited};
ghost use Rattle.block_uses.specs.Uses.{Counted};
ghost use Rattle.block_absorbs.specs.Absorbs.{Beyond, AbsorbWords, absorbed, absorbs, alone_word, absorb_word, joinable, stands, status_word};

use func_look::Function;
use term_kinds::visits::Visits;
use term_labels::{phi_count, sole_target};
use work::{ABSORBS, POINTS, STATUSES, USES, number, word};

// Visited points of which the work slice says how often each is used.
#[derive(Clone, Copy)]
struct Used<'a> {
    visits: Visits<'a>,
    ghost counted: { Counted (func_of visits.func.now) visits.work.now },
}

impl Used<'_> {
    // The word of the point at i where it is absorbed by none: it starts a block if it is used. A word, and no Option, since the table holds it as it is.
    #[tactic(auto, using(terminators::specs::Plain::visited_plain, crate::proofs::AbsorbPass::number_small))]
    fn alone(&self, i: usize) -> u32
        requires i_in_bounds { i < self.now.visits.count }
        ensures { result ≡ alone_word (func_of self.now.visits.func.now) i }
    {
        let q = number(self.visits.work, POINTS, i);
        if word(self.visits.work, USES, q) == 0 {
            0
        } else {
            (q + 1) as u32
        }
    }

    // The word of the point at i, which the one before it absorbs or not.
    #[tactic(auto, using(terminators::specs::Plain::visited_plain, crate::proofs::AbsorbPass::status_before, crate::proofs::AbsorbPass::status_new))]
    fn status(&self, i: usize, joined: bool) -> u32
        requires absorb_words { AbsorbWords (func_of self.now.visits.func.now) i self.now.visits.work.now }
        requires i_in_bounds { (i < self.now.visits.count) × (joined ≡ absorbed (func_of self.now.visits.func.now) i) }
        ensures { result ≡ status_word (stands (func_of self.now.visits.func.now) i) (point_at (func_of self.now.visits.func.now) i) }
    {
        if joined {
            word(self.visits.work, STATUSES, i - 1)
        } else {
            self.alone(i)
        }
    }

    // The point at k has number t, one use and no phis.
    #[tactic(auto, using(terminators::specs::Plain::visited_plain, crate::proofs::AbsorbPass::number_small, crate::proofs::AbsorbPass::join_uses, crate::proofs::AbsorbPass::join_all))]
    fn joins(&self, k: usize, t: usize) -> bool
        requires k_in_bounds { k < self.now.visits.count }
        ensures { result ≡ joinable (func_of self.now.visits.func.now) k t }
    {
        let q = number(self.visits.work, POINTS, k);
        if t != q {
            return false;
        }
        word(self.visits.work, USES, q) == 1 && phi_count(&self.visits, k) == 0
    }

    // The point at i absorbs the next one.
    #[tactic(auto, using(terminators::specs::Plain::visited_plain, crate::proofs::AbsorbPass::absorb_end, crate::proofs::AbsorbPass::absorb_none))]
    fn absorbs_next(&self, i: usize) -> bool
        requires i_in_bounds { i < self.now.visits.count }
        ensures { result ≡ absorbs (func_of self.now.visits.func.now) i }
    {
        if i + 1 == self.visits.count {
            return false;
        }
        match sole_target(&self.visits, i) {
            Some(t) => self.joins(i + 1, t),
            None => false,
        }
    }
}

// The words of position i.
fn put(work: &mut [u32], i: usize, s: u32, b: bool)
    requires { (i < 512) × (absorbs_end ≤ length work.old) }
    ensures work_after { work.new ≡ set (set work.old (statuses_at + i) s) (absorbs_at + i) (absorb_word b) }
    ensures work_len_unchanged { length work.new ≡ length work.old }
{
    work[STATUSES + i] = s;
    work[ABSORBS + i] = u32::from(b);
}

// The words of all positions stand.
pub fn absorb(func: &Function, work: &mut [u32], m: usize)
    requires visited { Visited func.now work.old m }
    requires counted { Counted (func_of func.now) work.old }
    ensures absorb_words { AbsorbWords (func_of func.now) m work.new }
    ensures counted_2 { Counted (func_of func.now) work.new }
    ensures visited_2 { Visited func.now work.new m }
    ensures aside { Aside statuses_at absorbs_end work.old work.new }
    ensures beyond { Beyond m work.old work.new }
    ensures work_len_unchanged { length work.new ≡ length work.old }
{
    let mut joined = false;
    for i in 0..m {
        let visits = Visits {
            func: &*func,
            work,
            count: m,
        };
        let used = Used { visits };
        let s = used.status(i, joined);
        joined = used.absorbs_next(i);
        put(work, i, s, joined);
    }
}
