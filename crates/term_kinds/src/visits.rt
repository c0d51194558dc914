// The visited points of a function, as the work slice has them.
ghost use Rattle.terminators.specs.Visited.{Visited};

use func_look::Function;

// The function, the work slice that names its visited points, and how many there are. The fact is truncated, since a struct's has one proof at most;
// `visited_plain` gives it back whole.
#[derive(Clone, Copy)]
pub struct Visits<'a> {
    pub func: &'a Function<'a>,
    pub work: &'a [u32],
    pub count: usize,
    ghost visited: { ∥ Visited func.now work.now count ∥₁ },
}
