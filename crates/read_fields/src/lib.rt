// Reads numbers, each behind a space or a bracket and up to a closing bracket; `(A T)`, and an immediate. The promise of each is
// the grammar's own reader for that form, and a body says what the form's line of the grammar says.
#![tactic(auto, using(read_cursor::specs::Chains::chains))]

ghost use Rattle.lifting.specs.Codec.{seq};
ghost use Rattle.lifting.specs.Grammar.{field, open1, one_codec, two, decl, imm_codec};
ghost use Rattle.read_cursor.specs.Answers.{ReadsOn, ReadsAs};
ghost use Rattle.read_fields.specs.Answers.{as_decl, as_imm};
ghost use Rattle.read_fields.specs.Joins.{Closes, Follows};

use read_cursor::Cursor;

// What was found, where a closing bracket follows.
fn closed<T: Drop>(found: Option<(T, Cursor<'_>)>) -> Option<(T, Cursor<'_>)>
    ensures { Closes found.entry result }
{
    let (x, c) = found?;
    let d = c.close()?;
    Some((x, d))
}

// What was found, and what `next` reads behind it.
fn then<'a, A: Drop, B, F: Fn(Cursor<'a>) -> Option<(B, Cursor<'a>)>>(
    found: Option<(A, Cursor<'a>)>,
    next: F,
) -> Option<((A, B), Cursor<'a>)>
    requires { F.IsAlwaysCallable next }
    ensures { Follows (F.post next) found.entry result }
{
    let (a, c) = found?;
    let (b, d) = next(c)?;
    Some(((a, b), d))
}

// A number after a space. This and the next differ in their byte alone; taking it as an argument, one function would ask of its callers that it
// is no digit, as the grammar's `num` does.
#[tactic(auto, using(read_cursor::specs::Chains::chains), unfolding(lifting::specs::Grammar::field))]
pub fn field(from: Cursor<'_>) -> Option<(u32, Cursor<'_>)>
    ensures { ReadsOn field.read from.entry result }
{
    from.skip_space()?.number()
}

// A number after an opening bracket.
#[tactic(auto, using(read_cursor::specs::Chains::chains), unfolding(lifting::specs::Grammar::open1))]
pub fn opened(from: Cursor<'_>) -> Option<(u32, Cursor<'_>)>
    ensures { ReadsOn open1.read from.entry result }
{
    from.open()?.number()
}

// Two numbers, each after a space. Inlined, since a call hands its answer over in memory, all of it where there is none too.
#[inline(always)]
pub fn pair(from: Cursor<'_>) -> Option<((u32, u32), Cursor<'_>)>
    ensures { ReadsOn (seq field field).read from.entry result }
{
    then(field(from), field)
}

// ` N)`.
#[tactic(auto, using(crate::specs::Joins::closes_reads), unfolding(lifting::specs::Grammar::one_codec))]
pub fn one(from: Cursor<'_>) -> Option<(u32, Cursor<'_>)>
    ensures { ReadsOn one_codec.read from.entry result }
{
    closed(field(from))
}

// ` N N)`. Inlined, as `pair` is.
#[inline(always)]
#[tactic(auto, using(crate::specs::Joins::closes_reads), unfolding(lifting::specs::Grammar::two))]
pub fn two(from: Cursor<'_>) -> Option<((u32, u32), Cursor<'_>)>
    ensures { ReadsOn two.read from.entry result }
{
    closed(pair(from))
}

// ` (A T)`: attributes and type.
#[tactic(auto, using(read_cursor::specs::Chains::chains), unfolding(lifting::specs::Grammar::decl, lifting::specs::Grammar::decl_codec))]
pub fn decl(from: Cursor<'_>) -> Option<((u32, u32), Cursor<'_>)>
    ensures { ReadsAs as_decl decl.read from.entry result }
{
    closed(then(opened(from.skip_space()?), field))
}

// ` (kind operandkind word)`.
#[tactic(auto, using(read_cursor::specs::Chains::chains), unfolding(lifting::specs::Grammar::imm_codec))]
pub fn imm(from: Cursor<'_>) -> Option<((u32, (u32, u32)), Cursor<'_>)>
    ensures { ReadsAs as_imm imm_codec.read from.entry result }
{
    closed(then(opened(from.skip_space()?), pair))
}
