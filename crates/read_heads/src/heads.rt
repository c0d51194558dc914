// Func, const and param lines.
ghost use Rattle.std.specs.Prelude.{◌≡◌, ◌≤◌, length};
ghost use Rattle.func.specs.Layout.{func_need};
ghost use Rattle.func.specs.Keep.{keep_const, keep_param};
ghost use Rattle.lifting.specs.Grammar.{two};
ghost use Rattle.read_cursor.specs.Answers.{ReadsOn};
ghost use Rattle.read_lines.specs.Stores.{Stores};
ghost use Rattle.read_lines.specs.Tails.{const_tail, param_tail, func_tail, ended_by};
ghost use Rattle.read_lines.specs.Keepers.{keep_func_line};

use func_pools::Pool;
use read_cursor::Cursor;
use read_fields::{field, two};

// ` N N)`, which ends its line.
#[tactic(auto, using(read_lines::specs::Laws::ends))]
fn two_end(from: Cursor<'_>) -> Option<((u32, u32), Cursor<'_>)>
    ensures { ReadsOn (ended_by two).read from.entry result }
{
    let (x, c) = two(from)?;
    let d = c.word(b"\n")?;
    Some((x, d))
}

// `(func A R F C)`, behind `(func`.
#[tactic(auto, using(read_lines::specs::Laws::storing), unfolding(read_lines::specs::Tails::func_tail))]
pub fn func_line<'a>(func: &mut [u32], from: Cursor<'a>) -> Option<Cursor<'a>>
    requires { func_need ≤ length func.old }
    ensures stores { Stores func_tail.read keep_func_line from.entry result func.old func.new }
    ensures func_len_unchanged { length func.new ≡ length func.old }
{
    let (a, b) = field(from)?;
    let (r, c) = field(b)?;
    let ((f, k), d) = two_end(c)?;
    func_store::keep_head(func, a, r, f, k);
    Some(d)
}

// `(const ID OP)`, behind `(const`. This and the next differ in what they store alone; what took that as a closure would have to ask of it, for
// every slice, that it may be called and what it stores.
#[tactic(auto, using(read_lines::specs::Laws::storing))]
pub fn const_line<'a>(func: &mut [u32], from: Cursor<'a>) -> Option<Cursor<'a>>
    requires { func_need ≤ length func.old }
    ensures stores { Stores const_tail keep_const from.entry result func.old func.new }
    ensures func_len_unchanged { length func.new ≡ length func.old }
{
    let ((id, opcode), c) = two_end(from)?;
    func_store::keep_pair(func, Pool::Consts, id, opcode);
    Some(c)
}

// `(param A T)`, behind `(param`.
#[tactic(auto, using(read_lines::specs::Laws::storing))]
pub fn param_line<'a>(func: &mut [u32], from: Cursor<'a>) -> Option<Cursor<'a>>
    requires { func_need ≤ length func.old }
    ensures stores { Stores param_tail keep_param from.entry result func.old func.new }
    ensures func_len_unchanged { length func.new ≡ length func.old }
{
    let ((attrs, ty), c) = two_end(from)?;
    func_store::keep_pair(func, Pool::Params, attrs, ty);
    Some(c)
}
