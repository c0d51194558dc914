// Ops as instructions: what stands before their ids, what they call, their operands.
#![tactic(auto, using(emit_insts::specs::Emitting::emit_tables))]

ghost use Rattle.std.specs.Prelude.{◌≡◌, ◌+◌, ◌≤◌, ◌<◌, length};
ghost use Rattle.general_laws.specs.Lists.{gather};
ghost use Rattle.lifting.specs.Parts.{block_ops, node_of};
ghost use Rattle.lifting.specs.Instructions.{result_id};
ghost use Rattle.lifting.specs.Walk.{walk_of};
ghost use Rattle.lifting.specs.Absorb.{kept};
ghost use Rattle.func.specs.Decode.{func_of};
ghost use Rattle.terminators.specs.At.{visited_block};
ghost use Rattle.emit_words.specs.Writes.{Writes};
ghost use Rattle.emit_lists.specs.Named.{ids_of_callee};
ghost use Rattle.emit_insts.specs.Parts.{id_each, op_front, op_in};

use emit_elements::value_count;
use emit_insts::{Emission, put_front};
use emit_lists::Values;
use emit_op_parts::{callee, op_imms, op_opcode};
use emit_words::Writer;
use term_kinds::visits::Visits;
use terminators::Point;
use work::{RESULT_IDS, word};

// The result id of op o; where its type is 0, the 0 that the list writes for none.
fn result_of(e: &Emission, o: usize, ty: u32) -> u32
    requires o_in_bounds { o < length (func_of e.now.func.now).ops }
    ensures { result ≡ result_id (func_of e.now.func.now) e.now.first (walk_of (func_of e.now.func.now)) (kept (walk_of (func_of e.now.func.now))) ty o }
{
    if ty == 0 {
        return 0;
    }
    word(e.work, RESULT_IDS, o)
}

// How many ids an op has before its operands.
fn callee_count(x: Option<u32>) -> usize
    ensures value { result ≡ length (ids_of_callee x) }
    ensures upper_bound { result ≤ 1 }
{
    usize::from(x.is_some())
}

// Appends the id that an op calls.
fn put_callee(out: &mut Writer, x: Option<u32>)
    ensures { Writes out.old (id_each (λ n. n) (ids_of_callee x)) out.new }
{
    if let Some(f) = x {
        out.put_id(f);
    }
}

// Appends what stands before the ids of op o.
fn op_front(e: &Emission, out: &mut Writer, o: usize, ids: usize)
    requires o_in_bounds { (o < length (func_of e.now.func.now).ops) × (ids ≤ 65535) }
    ensures { Writes out.old (op_front (func_of e.now.func.now) e.now.first (walk_of (func_of e.now.func.now)) (kept (walk_of (func_of e.now.func.now))) o ids) out.new }
{
    let slot = e.func.op_slot(o);
    let result = result_of(e, o, slot.ty);
    let imms = op_imms(e.func, o);
    put_front(
        e.func,
        out,
        op_opcode(e.func, o),
        slot.attrs,
        slot.ty,
        result,
        imms,
        ids,
    );
}

// Appends op o.
fn put_op(e: &Emission, out: &mut Writer, o: usize)
    requires count_nonzero { (0 < e.now.count) × (o < length (func_of e.now.func.now).ops) }
    ensures { Writes out.old (op_in (func_of e.now.func.now) e.now.first o) out.new }
{
    let called = callee(e.func, o);
    let operands = Values::Operands(o);
    let ids = callee_count(called) + value_count(e.func, operands);
    op_front(e, out, o, ids);
    put_callee(out, called);
    e.put_values(out, operands);
}

// Appends the ops of node n.
fn put_node_ops(e: &Emission, out: &mut Writer, n: usize)
    requires count_nonzero { (0 < e.now.count) × (n < length (func_of e.now.func.now).nodes) }
    ensures { Writes out.old (gather (op_in (func_of e.now.func.now) e.now.first) (block_ops (node_of (func_of e.now.func.now) n))) out.new }
{
    for k in 0..e.func.node_op_count(n) {
        put_op(e, out, e.func.node_op(n, k));
    }
}

// Appends the ops of the i-th visited point.
pub fn put_ops(e: &Emission, out: &mut Writer, i: usize)
    requires i_lt_count { i < e.now.count }
    ensures { Writes out.old (gather (op_in (func_of e.now.func.now) e.now.first) (visited_block (func_of e.now.func.now) i).ops) out.new }
{
    let visits = Visits {
        func: e.func,
        work: e.work,
        count: e.count,
    };
    if let Point::NodeEntry(n) = visits.point(i) {
        put_node_ops(e, out, n);
    }
}
