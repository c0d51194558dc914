// The whole list: function, parameters, the blocks point by point, function end.
#![tactic(auto)]

mod listing;

ghost use Rattle.std.specs.Prelude.{◌≡◌, ◌++◌, ◌<◌, length};
ghost use Rattle.lifting.specs.Instructions.{list_of};
ghost use Rattle.func.specs.Decode.{func_of};
ghost use Rattle.lifting_blocks.specs.Flat.{starts, up_to};
ghost use Rattle.terminators.specs.At.{visited_block, point_at};
ghost use Rattle.block_absorbs.specs.Absorbs.{stands};
ghost use Rattle.emit_words.specs.Put.{Put};
ghost use Rattle.emit_words.specs.Writes.{Writes};
ghost use Rattle.emit_words.specs.Items.{list_items};
ghost use Rattle.emit_insts.specs.Parts.{start_in};
ghost use Rattle.emit_list.specs.Points.{end_at, head_in, last_in, op_items_at, param_in, param_items, phi_items, point_items};

pub use crate::listing::Listing;
use emit_ends::{put_end, put_label};
use emit_insts::{Emission, put_front};
use emit_lists::Imms;
use emit_ops::put_ops;
use emit_phis::put_phis;
use emit_words::{Cursor, Writer};
use func_look::Function;
use opcodes::{InstKind, opcode};
use work::{ABSORBS, POINTS, STATUSES, number, word};

// The operand kind of the function's control word.
const FUNCTION_CONTROL: u32 = 1;

// Appends the function.
fn put_function(e: &Emission, out: &mut Writer)
    ensures { Writes out.old (head_in (func_of e.now.func.now) e.now.first) out.new }
{
    let head = e.func.head();
    put_front(
        e.func,
        out,
        opcode(InstKind::Function),
        head.attrs,
        head.ret,
        e.first,
        Imms::Short(FUNCTION_CONTROL, head.control),
        1,
    );
    out.put_id(head.ty);
}

// Appends parameter i.
fn put_param(e: &Emission, out: &mut Writer, i: usize)
    requires i_in_bounds { i < length (func_of e.now.func.now).params }
    ensures { Writes out.old (param_in (func_of e.now.func.now) e.now.first i) out.new }
{
    let param = e.func.param(i);
    let result = e.first + 1 + i as u32;
    put_front(
        e.func,
        out,
        opcode(InstKind::FunctionParameter),
        param.attrs,
        param.ty,
        result,
        Imms::None,
        0,
    );
}

// Appends the parameters.
fn put_params(e: &Emission, out: &mut Writer)
    ensures { Writes out.old (param_items (func_of e.now.func.now) e.now.first) out.new }
{
    for k in 0..e.func.param_total() {
        put_param(e, out, k);
    }
}

// Appends the function's end.
fn put_last(e: &Emission, out: &mut Writer)
    ensures { Writes out.old (last_in (func_of e.now.func.now) e.now.first) out.new }
{
    put_front(
        e.func,
        out,
        opcode(InstKind::FunctionEnd),
        0,
        0,
        0,
        Imms::None,
        0,
    );
}

// Appends the label and the phis of the block that starts at the i-th visited point.
fn put_start(l: &Listing, out: &mut Writer, i: usize)
    requires i_lt_count { (i < l.now.emission.count) × (stands (func_of l.now.emission.func.now) i ≡ starts) }
    ensures { Writes out.old (start_in (func_of l.now.emission.func.now) l.now.emission.first (point_at (func_of l.now.emission.func.now) i) ++ phi_items (func_of l.now.emission.func.now) l.now.emission.first (point_at (func_of l.now.emission.func.now) i) (visited_block (func_of l.now.emission.func.now) i).keys (visited_block (func_of l.now.emission.func.now) i).decls) out.new }
{
    let q = number(l.emission.work, POINTS, i);
    put_label(&l.emission, out, q);
    put_phis(&l.emission, out, i);
}

// Appends the ops of the i-th visited point, and the end of its block unless it absorbs the next point.
fn put_rest(e: &Emission, out: &mut Writer, i: usize)
    requires i_lt_count { i < e.now.count }
    ensures { Writes out.old (op_items_at (func_of e.now.func.now) e.now.first i ++ end_at (func_of e.now.func.now) e.now.first i) out.new }
{
    put_ops(e, out, i);
    if word(e.work, ABSORBS, i) == 1 {
        return;
    }
    put_end(e, out, i);
}

// Appends what the i-th visited point gives.
fn put_point(l: &Listing, out: &mut Writer, i: usize)
    requires i_lt_count { i < l.now.emission.count }
    ensures { Writes out.old (point_items (func_of l.now.emission.func.now) l.now.emission.first i) out.new }
{
    let s = number(l.emission.work, STATUSES, i);
    if s == 0 {
        return;
    }
    if s == number(l.emission.work, POINTS, i) + 1 {
        put_start(l, out, i);
    }
    put_rest(&l.emission, out, i);
}

// Appends what all visited points give.
fn put_points(l: &Listing, out: &mut Writer)
    ensures { Writes out.old (up_to (point_items (func_of l.now.emission.func.now) l.now.emission.first) l.now.emission.count) out.new }
{
    for k in 0..l.emission.count {
        put_point(l, out, k);
    }
}

// Appends the whole list at a place of the output slice: the place behind it.
pub fn put_list(l: &Listing, out: &mut [u32], c: Cursor) -> Cursor
    ensures { Put out.old c (list_items (list_of (func_of l.now.emission.func.now) l.now.emission.first)) out.new result }
{
    let mut list = Writer { out, cursor: c };
    put_function(&l.emission, &mut list);
    put_params(&l.emission, &mut list);
    put_points(l, &mut list);
    put_last(&l.emission, &mut list);
    list.cursor
}
