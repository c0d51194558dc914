// The function slice: what the text of one function stores, and the function that stands there. The slice holds pools (specs/Layout), and no
// crate above looks at its words: crate func_store stores, func_look answers, and func_rows answers of a text that is not known to fit.
#![tactic(auto)]

ghost use Rattle.std.specs.Prelude.{◌≡◌};
ghost use Rattle.func.specs.Decode.{value_from};
ghost use Rattle.func.specs.Kinds.{as_value, node_kind_number, node_kind_from, op_kind_from, ctrl_kind_number, ctrl_kind_from};

// A value V: constant, input of a region, output of a node, result of an op.
#[derive(Clone, Copy)]
pub enum Val {
    Const(u32),
    Input(u32, u32),
    Output(u32, u32),
    Result(u32),
}

// A node's kind; its place in the list is its number in a row.
#[derive(Clone, Copy, PartialEq, Eq)]
pub enum NodeKind {
    Block,
    SelectBool,
    SelectInst,
    Loop,
    Exit,
}

// An op's kind, with its opcode, its ID, or its ID and N.
#[derive(Clone, Copy)]
pub enum OpKind {
    Inst(u32),
    Call(u32),
    Ext(u32, u32),
}

// A ctrl line's kind; its place in the list is its number in a row.
#[derive(Clone, Copy, PartialEq, Eq)]
pub enum CtrlKind {
    Unreachable,
    Return,
    Branch,
    Bool,
    Inst,
    Exit,
}

// Counts of the pools that a line's lists go to.
#[derive(Clone, Copy)]
pub struct Marks {
    pub decls: u32,
    pub values: u32,
    pub imms: u32,
    pub targets: u32,
    pub nodes: u32,
    pub ops: u32,
    pub children: u32,
    pub entries: u32,
}

// An input or an output: attributes and type id.
#[derive(Clone, Copy)]
pub struct Slot {
    pub attrs: u32,
    pub ty: u32,
}

// `(kind operandkind word)`.
#[derive(Clone, Copy)]
pub struct Immediate {
    pub kind: u32,
    pub operand: u32,
    pub word: u32,
}

// The number of a kind in a row. One impl for each kind: only the enum itself is cast, a type parameter is not.
impl From<NodeKind> for u32 {
    fn from(node: NodeKind) -> Self
        ensures { result ≡ node_kind_number node }
    {
        node as u32
    }
}

impl From<CtrlKind> for u32 {
    fn from(ctrl: CtrlKind) -> Self
        ensures { result ≡ ctrl_kind_number ctrl }
    {
        ctrl as u32
    }
}

// Kinds from their numbers in a row, which the slice holds as words; no other place compares these. The last of a kind's numbers is every number that is
// none of the others.
impl From<u32> for NodeKind {
    fn from(number: u32) -> Self
        ensures { result ≡ node_kind_from number }
    {
        match number {
            0 => NodeKind::Block,
            1 => NodeKind::SelectBool,
            2 => NodeKind::SelectInst,
            3 => NodeKind::Loop,
            _ => NodeKind::Exit,
        }
    }
}

impl From<u32> for CtrlKind {
    fn from(number: u32) -> Self
        ensures { result ≡ ctrl_kind_from number }
    {
        match number {
            0 => CtrlKind::Unreachable,
            1 => CtrlKind::Return,
            2 => CtrlKind::Branch,
            3 => CtrlKind::Bool,
            4 => CtrlKind::Inst,
            _ => CtrlKind::Exit,
        }
    }
}

// These are made from three words and not from one value, so that they are no `From`.
impl OpKind {
    pub fn from_words(number: u32, first: u32, second: u32) -> OpKind
        ensures { result ≡ op_kind_from number first second }
    {
        match number {
            0 => OpKind::Inst(first),
            1 => OpKind::Call(first),
            _ => OpKind::Ext(first, second),
        }
    }
}

impl Val {
    pub fn from_words(number: u32, first: u32, second: u32) -> Val
        ensures { as_value result ≡ value_from number first second }
    {
        match number {
            0 => Val::Const(first),
            1 => Val::Input(first, second),
            2 => Val::Output(first, second),
            _ => Val::Result(first),
        }
    }
}
