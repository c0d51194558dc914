// Lines of one kind after the other: the head that tells a line of a kind, and one loop for all kinds.
#![tactic(auto)]

ghost use Rattle.std.specs.Prelude.{◌≡◌, ◌≤◌, length};
ghost use Rattle.func.specs.Layout.{func_need};
ghost use Rattle.read_lines.specs.Lines.{Lined};
ghost use Rattle.read_lines.specs.Kinds.{kind_lines, rest_of, keep_kind, LineIs};

use read_cursor::Cursor;
use read_heads::heads::{const_line, param_line};
use read_heads::regions::region_line;
use read_insts::ops::op;
use read_lines::{LineKind, NoLine};
use read_node_words::node_word;
use read_nodes::nodes::node_line;
use read_nodes::ops::op_line;

// The next line, if it is of the kind.
fn line<'a>(func: &mut [u32], kind: LineKind, from: Cursor<'a>) -> Result<Cursor<'a>, NoLine>
    requires { func_need ≤ length func.old }
    ensures line_is { LineIs kind from.entry result func.old func.new }
    ensures func_len_unchanged { length func.new ≡ length func.old }
{
    match kind {
        LineKind::Const => {
            let Some(a) = from.word(b"(const") else {
                return Err(NoLine::Other);
            };
            const_line(func, a).ok_or(NoLine::Refused)
        }
        LineKind::Param => {
            let Some(b) = from.word(b"(param") else {
                return Err(NoLine::Other);
            };
            param_line(func, b).ok_or(NoLine::Refused)
        }
        LineKind::Region => {
            let Some(c) = from.word(b"(region (in") else {
                return Err(NoLine::Other);
            };
            region_line(func, c).ok_or(NoLine::Refused)
        }
        LineKind::Node => {
            let Some((w, d)) = node_word(from) else {
                return Err(NoLine::Other);
            };
            node_line(func, w, d).ok_or(NoLine::Refused)
        }
        LineKind::Op => {
            let Some((o, e)) = op(from) else {
                return Err(NoLine::Other);
            };
            op_line(func, o, e).ok_or(NoLine::Refused)
        }
    }
}

// Lines of a kind, up to the first that is of another.
pub fn lines<'a>(func: &mut [u32], kind: LineKind, from: Cursor<'a>) -> Option<Cursor<'a>>
    requires { (func_need ≤ length func.old) × (from.at ≤ length from.text.now) }
    ensures lined { Lined (kind_lines kind) (rest_of kind) (keep_kind kind) from.entry result func.old func.new }
    ensures func_len_unchanged { length func.new ≡ length func.old }
{
    let mut c = from;
    loop {
        match line(func, kind, c) {
            Ok(d) => c = d,
            Err(NoLine::Other) => return Some(c),
            Err(NoLine::Refused) => return None,
        }
    }
}
