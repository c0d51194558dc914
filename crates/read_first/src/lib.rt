// The line `(first N)` that an input has before its text.
#![tactic(auto)]

ghost use Rattle.read_cursor.specs.Read.{Reads};
ghost use Rattle.read_first.specs.Opening.{first_line_form, first_answer};

use read_cursor::Cursor;
use read_fields::one;

// The line `(first N)` with which the input begins: the first id and the place where the text starts.
pub fn first_line(input: &[u8]) -> Option<(u32, usize)>
    ensures { Reads first_line_form.read input.now 0 (first_answer result) }
{
    let start = Cursor { text: input, at: 0 };
    let a = start.word(b"(first")?;
    let (n, b) = one(a)?;
    let c = b.word(b"\n")?;
    Some((n, c.at))
}
