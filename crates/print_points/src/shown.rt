// Visited points of which the work slice says how often each is used, and in which kept block it stands.
ghost use Rattle.func.specs.Decode.{func_of};
ghost use Rattle.block_uses.specs.Uses.{Counted};
ghost use Rattle.block_absorbs.specs.Absorbs.{AbsorbWords};

use term_kinds::visits::Visits;
use work::{ABSORBS, POINTS, STATUSES, USES, number, word};

#[derive(Clone, Copy)]
pub struct Shown<'a> {
    pub visits: Visits<'a>,
    ghost counted: { Counted (func_of visits.func.now) visits.work.now },
    ghost absorbing: { AbsorbWords (func_of visits.func.now) visits.count visits.work.now },
}

impl Shown<'_> {
    ghost use Rattle.std.specs.Prelude.{◌≡◌, ◌-◌, ◌≤◌, ◌<◌, SomeIff};
    ghost use Rattle.lifting.specs.Walk.{walk_of};
    ghost use Rattle.lifting.specs.Absorb.{use_count};
    ghost use Rattle.walk_points.specs.Numbers.{point_number, point_of};
    ghost use Rattle.terminators.specs.At.{point_at};
    ghost use Rattle.block_absorbs.specs.Absorbs.{absorbed, absorbs, stands, status_word};

    // The number of the point at position i.
    pub fn point(&self, i: usize) -> usize
        requires { i < self.now.visits.count }
        ensures { (result ≡ point_number (point_at (func_of self.now.visits.func.now) i)) × (result < 512) }
    {
        number(self.visits.work, POINTS, i)
    }

    // How often the point with number q is used.
    pub fn uses(&self, q: usize) -> u32
        requires { q < 512 }
        ensures { result ≡ use_count (walk_of (func_of self.now.visits.func.now)) (point_of q) }
    {
        word(self.visits.work, USES, q)
    }

    // The number of the point at which the block of position i starts, if it stands in one: the word is 0, or 1 + that number.
    pub fn block(&self, i: usize) -> Option<usize>
        requires { i < self.now.visits.count }
        ensures { SomeIff result (1 ≤ status_word (stands (func_of self.now.visits.func.now) i) (point_at (func_of self.now.visits.func.now) i)) (status_word (stands (func_of self.now.visits.func.now) i) (point_at (func_of self.now.visits.func.now) i) - 1) }
    {
        number(self.visits.work, STATUSES, i).checked_sub(1)
    }

    // Does the point at position i absorb the next one?
    pub fn absorbs(&self, i: usize) -> bool
        requires { i < self.now.visits.count }
        ensures { result ≡ absorbs (func_of self.now.visits.func.now) i }
    {
        word(self.visits.work, ABSORBS, i) == 1
    }

    // Does the one before it absorb it?
    pub fn joined(&self, i: usize) -> bool
        requires { i < self.now.visits.count }
        ensures { result ≡ absorbed (func_of self.now.visits.func.now) i }
    {
        if i == 0 {
            return false;
        }
        self.absorbs(i - 1)
    }
}
