// The attributes, the opcode, the immediates and the inputs of a terminator.
#![tactic(auto)]

ghost use Rattle.std.specs.Prelude.{◌≡◌, ◌<◌, length};
ghost use Rattle.lifting.specs.Instructions.{term_imms, term_opcode};
ghost use Rattle.func.specs.Decode.{func_of};
ghost use Rattle.func.specs.Tables.{ctrl_line_of};
ghost use Rattle.terminators.specs.declared.TermKind.TheVariants.{Leave};
ghost use Rattle.terminators.specs.Kinds.{Known, term_of};
ghost use Rattle.emit_lists.specs.Named.{ImmsAre, ValuesAre, return_opcode};

use emit_lists::{Imms, Values};
use func::{CtrlKind, NodeKind};
use func_look::Function;
use opcodes::{InstKind, opcode};
use terminators::TermKind;

// The attributes of a way out.
pub fn term_attrs(func: &Function, w: TermKind) -> u32
    requires { Known func.now w }
    ensures { result ≡ (term_of (func_of func.now) w).attrs }
{
    match w {
        TermKind::Line(c) => func.ctrl_attrs(c),
        _ => 0,
    }
}

// The opcode of a return with n inputs.
fn return_opcode(n: usize) -> u32
    ensures { result ≡ return_opcode n }
{
    if n == 0 {
        return opcode(InstKind::Return);
    }
    opcode(InstKind::ReturnValue)
}

// The opcode of ctrl line c.
fn line_opcode(func: &Function, c: usize) -> u32
    requires c_in_bounds { c < length (func_of func.now).ctrls }
    ensures { result ≡ term_opcode (ctrl_line_of (func_of func.now) c).1.kind (ctrl_line_of (func_of func.now) c).1.ins }
{
    match func.ctrl_kind(c) {
        CtrlKind::Unreachable => opcode(InstKind::Unreachable),
        CtrlKind::Return => return_opcode(func.ctrl_in_count(c)),
        CtrlKind::Branch => opcode(InstKind::Branch),
        CtrlKind::Bool => opcode(InstKind::BranchConditional),
        CtrlKind::Inst | CtrlKind::Exit => func.ctrl_opcode(c),
    }
}

// The opcode of the way out of node n's entry.
fn entry_opcode(func: &Function, n: usize) -> u32
    requires n_in_bounds { n < length (func_of func.now).nodes }
    ensures { result ≡ term_opcode (term_of (func_of func.now) (Leave n)).kind (term_of (func_of func.now) (Leave n)).ins }
{
    match func.node_kind(n) {
        NodeKind::Block | NodeKind::Loop => opcode(InstKind::Branch),
        NodeKind::SelectBool => opcode(InstKind::BranchConditional),
        NodeKind::SelectInst | NodeKind::Exit => func.node_opcode(n),
    }
}

// The opcode of a way out: ReturnValue exactly where a return has an input.
pub fn term_opcode(func: &Function, w: TermKind) -> u32
    requires { Known func.now w }
    ensures { result ≡ term_opcode (term_of (func_of func.now) w).kind (term_of (func_of func.now) w).ins }
{
    match w {
        TermKind::Return(r) => return_opcode(func.region_out_count(r)),
        TermKind::Line(c) => line_opcode(func, c),
        TermKind::Leave(n) | TermKind::Select(n, _) => entry_opcode(func, n),
        TermKind::Test(_, _) => opcode(InstKind::BranchConditional),
        _ => opcode(InstKind::Branch),
    }
}

// Its immediates.
pub fn term_imms(func: &Function, w: TermKind) -> Imms
    requires { Known func.now w }
    ensures { ImmsAre (func_of func.now) (term_imms (term_of (func_of func.now) w).kind) result }
{
    match w {
        TermKind::Line(c) => Imms::Ctrl(c),
        TermKind::Leave(n) | TermKind::Select(n, _) => Imms::Node(n),
        _ => Imms::None,
    }
}

// Its inputs.
pub fn term_ins(func: &Function, w: TermKind) -> Values
    requires { Known func.now w }
    ensures { ValuesAre (func_of func.now) (term_of (func_of func.now) w).ins result }
{
    match w {
        TermKind::Return(r) => Values::Outs(r),
        TermKind::Line(c) => Values::Ins(c),
        TermKind::Leave(n) | TermKind::Select(n, _) => Values::Node(n),
        TermKind::Test(n, _) => Values::Test(n),
        _ => Values::None,
    }
}
