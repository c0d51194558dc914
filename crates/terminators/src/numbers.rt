// The numbers of points.
ghost use Rattle.std.specs.Prelude.{◌≡◌};
ghost use Rattle.walk_points.specs.Numbers.{Small, point_number, point_of};
ghost use Rattle.terminators.specs.Kinds.{as_point};

use crate::Point;
use walk_points::NODE_BASE;

impl Point {
    // Its number.
    pub fn number(self) -> usize
        requires { Small (as_point self) }
        ensures { result ≡ point_number (as_point self) }
    {
        match self {
            Point::RegionEntry(r) => 2 * r,
            Point::RegionExit(r) => 2 * r + 1,
            Point::NodeEntry(n) => NODE_BASE + 2 * n,
            Point::NodeExit(n) => NODE_BASE + 2 * n + 1,
        }
    }
}

// The point of a number: each number is one's.
impl From<usize> for Point {
    #[tactic(auto, using(crate::specs::Laws::low_even, crate::specs::Laws::low_odd, crate::specs::Laws::high_even, crate::specs::Laws::high_odd))]
    fn from(x: usize) -> Point
        ensures { as_point result ≡ point_of x }
    {
        if x < NODE_BASE {
            if x % 2 == 0 {
                Point::RegionEntry(x / 2)
            } else {
                Point::RegionExit(x / 2)
            }
        } else {
            let y = x - NODE_BASE;
            if y % 2 == 0 {
                Point::NodeEntry(y / 2)
            } else {
                Point::NodeExit(y / 2)
            }
        }
    }
}
