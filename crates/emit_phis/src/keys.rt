// What a phi sets.
ghost use Rattle.std.specs.Prelude.{◌≡◌, ◌<◌, get_or, length};
ghost use Rattle.lifting.specs.Ast.{const};
ghost use Rattle.func.specs.Decode.{func_of};
ghost use Rattle.func.specs.Kinds.{as_value};
ghost use Rattle.terminators.specs.At.{visited_block};

use func::Val;
use term_kinds::visits::Visits;
use terminators::Point;

// The value that phi j of the i-th visited point sets: an input of the root that begins there or of the body of the loop that begins there, or
// an output of the node that ends there.
pub fn phi_value(visits: &Visits, i: usize, j: usize) -> Val
    requires i_in_bounds { i < visits.now.count }
    requires j_in_bounds { j < length (visited_block (func_of visits.now.func.now) i).keys }
    ensures { as_value result ≡ get_or (visited_block (func_of visits.now.func.now) i).keys j (const 0) }
{
    match visits.point(i) {
        Point::RegionEntry(r) => Val::Input(r as u32, j as u32),
        Point::RegionExit(_) => Val::Const(0),
        Point::NodeEntry(n) => Val::Input(visits.func.node_child(n, 0) as u32, j as u32),
        Point::NodeExit(n) => Val::Output(n as u32, j as u32),
    }
}
