// The heads of an op line and of its X, which is ` (inst OP`, ` (call ID)` or ` (ext ID N)`.
ghost use Rattle.read_cursor.specs.Answers.{ReadsOn};
ghost use Rattle.read_insts.specs.Heads.{inst_head, op_kind_head, op_head};

use crate::Op;
use func::OpKind;
use read_cursor::Cursor;
use read_fields::{field, one, pair, two};

// ` (inst OP`.
#[inline(always)]
#[tactic(auto, using(read_cursor::specs::Chains::chains), unfolding(crate::specs::Heads::inst_head))]
pub fn inst(from: Cursor<'_>) -> Option<(u32, Cursor<'_>)>
    ensures { ReadsOn inst_head.read from.entry result }
{
    field(from.word(b" (inst")?)
}

// X of an op, an INST up to its opcode.
#[tactic(auto, using(read_cursor::specs::Chains::choices), unfolding(crate::specs::Heads::op_kind_head, crate::specs::Heads::op_kind_head_form))]
pub fn op_kind(from: Cursor<'_>) -> Option<(OpKind, Cursor<'_>)>
    ensures { ReadsOn op_kind_head.read from.entry result }
{
    if let Some((n, c)) = inst(from) {
        return Some((OpKind::Inst(n), c));
    }
    if let Some((n, c)) = from.word(b" (call").and_then(one) {
        return Some((OpKind::Call(n), c));
    }
    let ((m, n), c) = two(from.word(b" (ext")?)?;
    Some((OpKind::Ext(m, n), c))
}

// `(op A T X`, the head of an op line.
pub fn op(from: Cursor<'_>) -> Option<(Op, Cursor<'_>)>
    ensures { ReadsOn op_head.read from.entry result }
{
    let ((attrs, ty), c) = pair(from.word(b"(op")?)?;
    let (kind, d) = op_kind(c)?;
    Some((Op { attrs, ty, kind }, d))
}
