// What refusal 4 asks of an INST: its opcode and its immediates fit. What an op's kind asks stands beside it.
#![tactic(auto)]

ghost use Rattle.std.specs.Prelude.{◌≡◌};
ghost use Rattle.lifting.specs.References.{imm_fits};
ghost use Rattle.func.specs.Kinds.{as_imm, op_kind_number, op_kind_first};
ghost use Rattle.check_insts.specs.Test.{opcode_fits, callee_test, op_inst_test};

use func::{Immediate, OpKind};
use opcodes::in_table;
use refusals::limits::{MAX_IMM_KIND, MAX_OPCODE};

// An INST's opcode is at most 65,535 and none of the table's.
#[tactic(auto, unfolding(crate::specs::Test::opcode_fits))]
pub fn opcode_fits(n: u32) -> bool
    ensures { result ≡ opcode_fits n }
{
    n <= MAX_OPCODE && !in_table(n)
}

// An immediate's kind is at most 2, and its operand kind is 1 to 65,535.
pub fn imm_fits(m: Immediate) -> bool
    ensures { result ≡ imm_fits (as_imm m) }
{
    m.kind <= MAX_IMM_KIND && 0 < m.operand && m.operand <= MAX_OPCODE
}

// What an op's kind asks of the word beside it: a callee is not 0, and an INST's opcode fits.
pub fn callee_given(kind: OpKind) -> bool
    ensures { result ≡ callee_test (op_kind_number kind) (op_kind_first kind) }
{
    match kind {
        OpKind::Inst(_) => true,
        OpKind::Call(id) => 0 < id,
        OpKind::Ext(set, _) => 0 < set,
    }
}

pub fn op_inst_fits(kind: OpKind) -> bool
    ensures { result ≡ op_inst_test (op_kind_number kind) (op_kind_first kind) }
{
    match kind {
        OpKind::Inst(opcode) => opcode_fits(opcode),
        OpKind::Call(_) => true,
        OpKind::Ext(_, _) => true,
    }
}
