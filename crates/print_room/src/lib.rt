// Room for what the programs print.
#![tactic(auto)]

ghost use Rattle.std.specs.Prelude.{◌≤◌};
ghost use Rattle.print_room.specs.Most.{max_case};

// Room for what is printed of an input or of a case: twelve bytes for each word of a list, and more than any other answer has.
pub const ROOM: usize = 196640;

// So many bytes have room for every answer, and for the line that ends a case.
pub fn room() -> usize
    ensures { max_case ≤ result }
{
    ROOM
}
