// Reads a whole text into the function slice, line kind by line kind, in one pass: refusal 2, with what refusals 4 and 6 ask of ctrl lines.
#![tactic(auto)]

ghost use Rattle.std.specs.Prelude.{◌≡◌, ◌≤◌, length};
ghost use Rattle.lifting.specs.Limits.{max_bytes};
ghost use Rattle.lifting.specs.Grammar.{rest_lines, region_lines};
ghost use Rattle.func.specs.Layout.{func_need};
ghost use Rattle.work.specs.Layout.{work_need};
ghost use Rattle.read_text.specs.Whole.{BodyIs, TailIs, TextIs};

use read_ctrls::CtrlsFit;
use read_ctrls::line::ctrl_lines;
use read_cursor::Cursor;
use read_heads::heads::func_line;
use read_kinds::lines;
use read_lines::LineKind;

// Regions, nodes, ops and ctrl lines, up to the end of the text.
fn body_lines(func: &mut [u32], work: &mut [u32], from: Cursor<'_>) -> Option<CtrlsFit>
    requires { (func_need ≤ length func.old) × (work_need ≤ length work.old) × (from.at ≤ length from.text.now) × (length from.text.now ≤ max_bytes) }
    ensures body_is { BodyIs region_lines result from.entry.text.now from.entry.at func.old work.old func.new }
    ensures func_len_unchanged { length func.new ≡ length func.old }
    ensures work_len_unchanged { length work.new ≡ length work.old }
{
    let a = lines(func, LineKind::Region, from)?;
    let b = lines(func, LineKind::Node, a)?;
    let c = lines(func, LineKind::Op, b)?;
    ctrl_lines(func, work, c)
}

// What comes after the params: `(imported)` alone, or a body.
fn rest_lines(func: &mut [u32], work: &mut [u32], from: Cursor<'_>) -> Option<CtrlsFit>
    requires { (func_need ≤ length func.old) × (work_need ≤ length work.old) × (from.at ≤ length from.text.now) × (length from.text.now ≤ max_bytes) }
    ensures body_is { BodyIs rest_lines result from.entry.text.now from.entry.at func.old work.old func.new }
    ensures func_len_unchanged { length func.new ≡ length func.old }
    ensures work_len_unchanged { length work.new ≡ length work.old }
{
    if let Some(c) = from.word(b"(imported)\n") {
        if c.end() {
            return Some(CtrlsFit {
                opcodes: true,
                edges: true,
            });
        }
        return None;
    }
    from.word(b"(region (in")?;
    body_lines(func, work, from)
}

// Const and param lines, and what comes after them.
fn tail_lines(func: &mut [u32], work: &mut [u32], from: Cursor<'_>) -> Option<CtrlsFit>
    requires { (func_need ≤ length func.old) × (work_need ≤ length work.old) × (from.at ≤ length from.text.now) × (length from.text.now ≤ max_bytes) }
    ensures tail_is { TailIs result from.entry.text.now from.entry.at func.old work.old func.new }
    ensures func_len_unchanged { length func.new ≡ length func.old }
    ensures work_len_unchanged { length work.new ≡ length work.old }
{
    let a = lines(func, LineKind::Const, from)?;
    let b = lines(func, LineKind::Param, a)?;
    rest_lines(func, work, b)
}

// The whole text: whether it is of the forms, and if so, whether the opcodes and the edges of its ctrl lines fit.
pub fn read_text(func: &mut [u32], work: &mut [u32], text: &[u8]) -> Option<CtrlsFit>
    requires { (func_need ≤ length func.old) × (work_need ≤ length work.old) × (length text.now ≤ max_bytes) }
    ensures text_is { TextIs result text.now func.old work.old func.new }
    ensures func_len_unchanged { length func.new ≡ length func.old }
    ensures work_len_unchanged { length work.new ≡ length work.old }
{
    let from = Cursor { text, at: 0 };
    let a = from.word(b"(func")?;
    let b = func_line(func, a)?;
    tail_lines(func, work, b)
}
