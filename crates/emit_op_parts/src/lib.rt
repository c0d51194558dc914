// The opcode, the immediates and the callee of an op.
#![tactic(auto)]

ghost use Rattle.std.specs.Prelude.{◌≡◌, ◌<◌, length};
ghost use Rattle.lifting.specs.Parts.{callee_ids, op_of};
ghost use Rattle.lifting.specs.Instructions.{op_imms, op_opcode};
ghost use Rattle.func.specs.Decode.{func_of};
ghost use Rattle.emit_lists.specs.Named.{ImmsAre, ids_of_callee};

use emit_lists::Imms;
use func::OpKind;
use func_look::Function;
use opcodes::{InstKind, opcode};

// The operand kind of the number that an extended instruction has in its set.
const EXT_INST_INTEGER: u32 = 4;

// The opcode of op o.
pub fn op_opcode(func: &Function, o: usize) -> u32
    requires o_in_bounds { o < length (func_of func.now).ops }
    ensures { result ≡ op_opcode (op_of (func_of func.now) o).kind }
{
    match func.op_kind(o) {
        OpKind::Inst(a) => a,
        OpKind::Call(_) => opcode(InstKind::FunctionCall),
        OpKind::Ext(_, _) => opcode(InstKind::ExtInst),
    }
}

// Its immediates.
pub fn op_imms(func: &Function, o: usize) -> Imms
    requires o_in_bounds { o < length (func_of func.now).ops }
    ensures { ImmsAre (func_of func.now) (op_imms (op_of (func_of func.now) o).kind) result }
{
    match func.op_kind(o) {
        OpKind::Inst(_) => Imms::Op(o),
        OpKind::Call(_) => Imms::None,
        OpKind::Ext(_, n) => Imms::Short(EXT_INST_INTEGER, n),
    }
}

// The id that it calls, a function or a set of extended instructions.
pub fn callee(func: &Function, o: usize) -> Option<u32>
    requires o_in_bounds { o < length (func_of func.now).ops }
    ensures { ids_of_callee result ≡ callee_ids (op_of (func_of func.now) o).kind }
{
    match func.op_kind(o) {
        OpKind::Inst(_) => None,
        OpKind::Call(f) => Some(f),
        OpKind::Ext(s, _) => Some(s),
    }
}
