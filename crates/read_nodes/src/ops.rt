// Op lines.
ghost use Rattle.std.specs.Prelude.{◌≡◌, ◌≤◌, length};
ghost use Rattle.func.specs.Layout.{func_need};
ghost use Rattle.func.specs.Keep.{keep_op};
ghost use Rattle.read_lines.specs.Stores.{Stores};
ghost use Rattle.read_lines.specs.Tails.{op_rest, op_tail};
ghost use Rattle.read_lines.specs.Keepers.{keep_op_lists};

use func::OpKind;
use read_cursor::Cursor;
use read_insts::Op;
use read_lines::forms::{inst_values, values_end};

// The immediates of X, if it has any, and the operands.
fn op_rest<'a>(
    func: &mut [u32],
    attrs: u32,
    ty: u32,
    kind: OpKind,
    from: Cursor<'a>,
) -> Option<Cursor<'a>>
    requires { func_need ≤ length func.old }
    ensures stores { Stores (op_rest attrs ty kind) keep_op_lists from.entry result func.old func.new }
    ensures func_len_unchanged { length func.new ≡ length func.old }
{
    match kind {
        OpKind::Inst(_) => inst_values(func, from),
        OpKind::Call(_) => values_end(func, from),
        OpKind::Ext(_, _) => values_end(func, from),
    }
}

// `(op A T X V..)`, behind the head that was read.
pub fn op_line<'a>(func: &mut [u32], op: Op, from: Cursor<'a>) -> Option<Cursor<'a>>
    requires { func_need ≤ length func.old }
    ensures stores { Stores (op_tail op) keep_op from.entry result func.old func.new }
    ensures func_len_unchanged { length func.new ≡ length func.old }
{
    let marks = func_store::begin(func);
    let attrs = op.attrs;
    let ty = op.ty;
    let kind = op.kind;
    let c = op_rest(func, attrs, ty, kind, from)?;
    func_store::op_row(func, marks, attrs, ty, kind);
    Some(c)
}
