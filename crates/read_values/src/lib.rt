// Reads a value, from the part of the text between its brackets.
#![tactic(auto)]

ghost use Rattle.std.specs.Prelude.{◌≡◌};
ghost use Rattle.lifting.specs.Whole.{read_whole};
ghost use Rattle.lifting.specs.Codec.{seq};
ghost use Rattle.lifting.specs.Grammar.{field, value_codec};
ghost use Rattle.read_cursor.specs.Answers.{ReadsAs, ReadsOn};
ghost use Rattle.func.specs.Kinds.{as_value};
ghost use Rattle.read_values.specs.Answers.{form_of, part_answer};
ghost use Rattle.read_values.specs.Part.{value_parts, value_part};

use func::Val;
use read_cursor::Cursor;
use read_fields::{field, pair};
use read_forms::form;

// Two numbers behind a word. Not inlined, so that `and_then` is, and calls nothing where the word is another.
#[inline(never)]
fn numbers(from: Cursor<'_>) -> Option<((u32, u32), Cursor<'_>)>
    ensures { ReadsOn (seq field field).read from.entry result }
{
    pair(from)
}

// What stands between a value's brackets: `c N`, `r R I`, `n N I` or `d I`.
#[tactic(auto, using(read_cursor::specs::Chains::choices), unfolding(crate::specs::Part::value_parts))]
fn words(from: Cursor<'_>) -> Option<(Val, Cursor<'_>)>
    ensures { ReadsAs form_of value_parts.read from.entry result }
{
    if let Some((n, c)) = from.word(b"c").and_then(field) {
        return Some((Val::Const(n), c));
    }
    if let Some(((m, n), c)) = from.word(b"r").and_then(numbers) {
        return Some((Val::Input(m, n), c));
    }
    if let Some(((m, n), c)) = from.word(b"n").and_then(numbers) {
        return Some((Val::Output(m, n), c));
    }
    let (n, c) = field(from.word(b"d")?)?;
    Some((Val::Result(n), c))
}

// The value that a part holds, which must be the whole of it.
fn value_in(part: &[u8]) -> Option<Val>
    ensures { read_whole value_part part.now ≡ part_answer result }
{
    let start = Cursor { text: part, at: 0 };
    let Some((v, c)) = words(start) else {
        return None;
    };
    if c.end() {
        return Some(v);
    }
    None
}

// ` V`: the part between its brackets is found first, and read by itself.
pub fn value(from: Cursor<'_>) -> Option<(Val, Cursor<'_>)>
    ensures { ReadsAs as_value value_codec.read from.entry result }
{
    let c = from.word(b" (")?;
    let part = form(c.text, c.at - 1);
    let Some(v) = value_in(part) else {
        return None;
    };
    Some((
        v,
        Cursor {
            text: c.text,
            at: c.at + part.len() + 1,
        },
    ))
}
