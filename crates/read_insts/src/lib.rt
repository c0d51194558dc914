// Reads the heads of the forms that hold an INST: of an op line, of a selection and of a ctrl. Each ends behind the opcode, whose immediates
// follow.
#![tactic(auto)]

use func::OpKind;

pub mod controls;
pub mod ops;

// X is an INST up to its opcode, whose immediates follow, a call or an ext.
#[derive(Clone, Copy)]
pub struct Op {
    pub attrs: u32,
    pub ty: u32,
    pub kind: OpKind,
}

// What a selection goes by: `bool`, or an INST's opcode, whose immediates follow. Two kinds of selection, so no Option: `bool` is no missing INST.
#[derive(Clone, Copy)]
pub enum Selection {
    Bool,
    Inst(u32),
}

// K of a ctrl. After the opcode of an `Exit` follow its immediates and one more closing bracket.
#[derive(Clone, Copy)]
pub enum Control {
    Unreachable,
    Return,
    Branch,
    Exit(u32),
    Select(Selection),
}
