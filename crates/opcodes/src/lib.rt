// The opcodes that lifting itself writes or tests: document 01's table, from instruction kind to SPIR-V opcode (spirt's spec.rs).
#![tactic(auto)]

ghost use Rattle.std.specs.Prelude.{◌≡◌};
ghost use Rattle.opcodes.specs.Table.{opcode_of, in_table};

// The instruction kinds of the table, under the names of the SPIR-V Specification.
#[derive(Clone, Copy, PartialEq, Eq)]
pub enum InstKind {
    ExtInst,
    ConstantTrue,
    Function,
    FunctionParameter,
    FunctionEnd,
    FunctionCall,
    Phi,
    LoopMerge,
    SelectionMerge,
    Label,
    Branch,
    BranchConditional,
    Return,
    ReturnValue,
    Unreachable,
}

const OPCODES: [u32; 15] = [
    12, 41, 54, 55, 56, 57, 245, 246, 247, 248, 249, 250, 253, 254, 255,
];

// The opcode of a kind.
pub fn opcode(kind: InstKind) -> u32
    ensures { result ≡ opcode_of kind }
{
    OPCODES[kind as usize]
}

// A number is one of the table's opcodes. Most instructions of a text stand in the gap between FunctionCall and Phi.
pub fn in_table(n: u32) -> bool
    ensures { result ≡ in_table n }
{
    if 57 < n && n < 245 {
        return false;
    }
    OPCODES.contains(&n)
}
