// Reads ctrl lines, stores what they hold in the function slice, and judges what refusals 4 and 6 ask of them as they are read: refusal 3 bounds
// neither the lines nor their entries, so that there need not be room for all of them.
#![tactic(auto)]

pub mod entries; // entries.rt: the entries of a line
pub mod kinds; // kinds.rt: the lists behind K of a line
pub mod line; // line.rt: a line, and all lines

use read_insts::Control;

// `(ctrl R A K`, an INST up to its opcode.
#[derive(Clone, Copy)]
pub struct CtrlHead {
    pub region: u32,
    pub attrs: u32,
    pub kind: Control,
}

// Of all lines up to the end of the text: whether the opcodes and the edges of all of them fit.
#[derive(Clone, Copy)]
pub struct CtrlsFit {
    pub opcodes: bool,
    pub edges: bool,
}
