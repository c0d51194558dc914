// How many elements a list has, and its elements. That a list of immediates fits is a clause of the list and the function, which no type holds both.
#![tactic(auto)]

ghost use Rattle.std.specs.Prelude.{◌≡◌, ◌≤◌, ◌<◌, length, get_or};
ghost use Rattle.lifting.specs.Ast.{const};
ghost use Rattle.lifting.specs.Parts.{node_of, node_values};
ghost use Rattle.func.specs.Decode.{first_value, func_of};
ghost use Rattle.func.specs.Kinds.{as_imm, as_value, imm_from};
ghost use Rattle.emit_lists.specs.Named.{ImmsFit, ValuesFit, listed_imms, values_of};

use emit_lists::{Imms, Values};
use func::{Immediate, Val};
use func_look::Function;

// How many values a list has.
pub fn value_count(func: &Function, l: Values) -> usize
    requires values_fit { ValuesFit (func_of func.now) l }
    ensures value { result ≡ length (values_of (func_of func.now) l) }
    ensures upper_bound { result ≤ 4095 }
{
    func.known();
    match l {
        Values::None => 0,
        Values::Operands(o) => func.operand_count(o),
        Values::Ins(c) => func.ctrl_in_count(c),
        Values::Node(n) => func.node_value_count(n),
        Values::Test(_) => 1,
        Values::Outs(r) => func.region_out_count(r),
    }
}

// The first value of node n; a node without values has constant 0 for it.
fn first_value(func: &Function, n: usize) -> Val
    requires n_in_bounds { n < length (func_of func.now).nodes }
    ensures { as_value result ≡ first_value (node_values (node_of (func_of func.now) n)) }
{
    if func.node_value_count(n) == 0 {
        return Val::Const(0);
    }
    func.node_value(n, 0)
}

// Its value k.
pub fn value_at(func: &Function, l: Values, k: usize) -> Val
    requires values_fit { ValuesFit (func_of func.now) l }
    requires k_in_bounds { k < length (values_of (func_of func.now) l) }
    ensures { as_value result ≡ get_or (values_of (func_of func.now) l) k (const 0) }
{
    match l {
        Values::None => Val::Const(0),
        Values::Operands(o) => func.operand(o, k),
        Values::Ins(c) => func.ctrl_in(c, k),
        Values::Node(n) => func.node_value(n, k),
        Values::Test(n) => first_value(func, n),
        Values::Outs(r) => func.region_out(r, k),
    }
}

// How many immediates a list has. Lists of values and of immediates share no case but the empty one, so a function for both would be no shorter.
pub fn imm_count(func: &Function, l: Imms) -> usize
    requires imms_fit { ImmsFit (func_of func.now) l }
    ensures value { result ≡ length (listed_imms (func_of func.now) l) }
    ensures upper_bound { result ≤ 4095 }
{
    func.known();
    match l {
        Imms::None => 0,
        Imms::Node(n) => func.node_imm_count(n),
        Imms::Op(o) => func.op_imm_count(o),
        Imms::Ctrl(c) => func.ctrl_imm_count(c),
        Imms::Short(_, _) => 1,
    }
}

// Its immediate k.
pub fn imm_at(func: &Function, l: Imms, k: usize) -> Immediate
    requires imms_fit { ImmsFit (func_of func.now) l }
    requires k_in_bounds { k < length (listed_imms (func_of func.now) l) }
    ensures { as_imm result ≡ get_or (listed_imms (func_of func.now) l) k (imm_from 0 0 0) }
{
    match l {
        Imms::None => Immediate {
            kind: 0,
            operand: 0,
            word: 0,
        },
        Imms::Node(n) => func.node_imm(n, k),
        Imms::Op(o) => func.op_imm(o, k),
        Imms::Ctrl(c) => func.ctrl_imm(c, k),
        Imms::Short(a, b) => Immediate {
            kind: 0,
            operand: a,
            word: b,
        },
    }
}
