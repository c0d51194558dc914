// What reading a text stores but for values: each part as it is met, and the row of each line after its lists. That the slice is long enough stays a
// clause here and in the readers: an array would be asked for in so many words where a longer slice is lent, and what is promised of the whole slice
// would have to be joined from the array and the rest.
#![tactic(auto)]

ghost use Rattle.std.specs.Prelude.{◌≡◌, [], ◌∷◌, ◌≤◌, length};
ghost use Rattle.func.specs.Layout.{func_need, entry_words};
ghost use Rattle.func.specs.Store.{count, push};
ghost use Rattle.func.specs.Lines.{pool_span};
ghost use Rattle.func.specs.Keep.{keep_head, keep_imm, keep_number};
ghost use Rattle.func.specs.Kinds.{imm_from, node_kind_number, op_kind_number, op_kind_first, op_kind_second, ctrl_kind_number};
ghost use Rattle.func_pools.specs.Pools.{pool_number};
ghost use Rattle.func.specs.Rows.{marks_of, region_row, node_row, op_row, entry_row, ctrl_row_from};

use func::{CtrlKind, Marks, NodeKind, OpKind};
use func_pools::{Pool, count, push, store};

// The three words of an op's kind.
#[derive(Clone, Copy)]
struct OpWords {
    kind: u32,
    first: u32,
    second: u32,
}

// The number of an op's kind, and the two words beside it.
fn op_words(kind: OpKind) -> OpWords
    ensures { (result.kind ≡ op_kind_number kind) × (result.first ≡ op_kind_first kind) × (result.second ≡ op_kind_second kind) }
{
    match kind {
        OpKind::Inst(o) => OpWords {
            kind: 0,
            first: o,
            second: 0,
        },
        OpKind::Call(f) => OpWords {
            kind: 1,
            first: f,
            second: 0,
        },
        OpKind::Ext(s, n) => OpWords {
            kind: 2,
            first: s,
            second: n,
        },
    }
}

// Two numbers: a constant's `(const ID OP)`, a parameter's `(param A T)`, or `(A T)`, an input or an output, by the pool that they go to.
pub fn keep_pair(func: &mut [u32], k: Pool, a: u32, b: u32)
    requires { (func_need ≤ length func.old) × (entry_words (pool_number k) ≡ 2) }
    ensures func_after { func.new ≡ push (pool_number k) (a ∷ b ∷ []) func.old }
    ensures func_len_unchanged { length func.new ≡ length func.old }
{
    push(func, k, &[a, b]);
}

// `(kind operandkind word)`.
pub fn keep_imm(func: &mut [u32], kind: u32, operand: u32, word: u32)
    requires { func_need ≤ length func.old }
    ensures func_after { func.new ≡ keep_imm (imm_from kind operand word) func.old }
    ensures func_len_unchanged { length func.new ≡ length func.old }
{
    push(func, Pool::Imms, &[kind, operand, word]);
}

// A number of a list: of a region's nodes, a block's ops, a node's child regions or a ctrl line's targets, by the pool that it goes to.
pub fn keep_number(func: &mut [u32], k: Pool, n: u32)
    requires { (func_need ≤ length func.old) × (entry_words (pool_number k) ≡ 1) }
    ensures func_after { func.new ≡ keep_number (pool_number k) n func.old }
    ensures func_len_unchanged { length func.new ≡ length func.old }
{
    push(func, k, &[n]);
}

// `(func A R F C)`.
#[tactic(auto, unfolding(func::specs::Keep::keep_head))]
pub fn keep_head(func: &mut [u32], a: u32, r: u32, f: u32, c: u32)
    requires { func_need ≤ length func.old }
    ensures func_after { func.new ≡ keep_head a r f c func.old }
    ensures func_len_unchanged { length func.new ≡ length func.old }
{
    store(func, 0, &[a, r, f, c]);
}

// The counts of the pools that a line's lists go to, as they are where the line begins.
pub fn begin(func: &[u32]) -> Marks
    requires { func_need ≤ length func.now }
    ensures { result ≡ marks_of func.now }
{
    Marks {
        decls: count(func, Pool::Decls),
        values: count(func, Pool::Values),
        imms: count(func, Pool::Imms),
        targets: count(func, Pool::Targets),
        nodes: count(func, Pool::NodeRefs),
        ops: count(func, Pool::OpRefs),
        children: count(func, Pool::ChildRefs),
        entries: count(func, Pool::Entries),
    }
}

// A run's word, from the count before its list and the count after it.
#[tactic(auto, unfolding(func::specs::Lines::pool_span))]
fn span(a: u32, b: u32) -> u32
    ensures { result ≡ pool_span a b }
{
    let from = a.min(4095);
    let to = b.min(4095);
    if from < to {
        from * 4096 + (to - from)
    } else {
        from * 4096
    }
}

// The run of pool k from a count on.
fn run(func: &[u32], k: Pool, from: u32) -> u32
    requires { func_need ≤ length func.now }
    ensures { result ≡ pool_span from (count (pool_number k) func.now) }
{
    span(from, count(func, k))
}

// The row of a region whose lists began at the marks.
#[tactic(auto, unfolding(func::specs::Rows::region_row))]
pub fn region_row(func: &mut [u32], from: Marks)
    requires { func_need ≤ length func.old }
    ensures func_after { func.new ≡ region_row from func.old }
    ensures func_len_unchanged { length func.new ≡ length func.old }
{
    let a = run(func, Pool::Decls, from.decls);
    let b = run(func, Pool::NodeRefs, from.nodes);
    let c = run(func, Pool::Values, from.values);
    push(func, Pool::Regions, &[a, b, c]);
}

// The row of a node: its kind, its opcode, its lists, the control number of its merge. Every row has each word, so that without an INST or a
// merge there is 0 in its place (`node_cells`).
pub fn node_row(func: &mut [u32], from: Marks, kind: NodeKind, opcode: u32, control: u32)
    requires { func_need ≤ length func.old }
    ensures func_after { func.new ≡ node_row from (node_kind_number kind) opcode control func.old }
    ensures func_len_unchanged { length func.new ≡ length func.old }
{
    let k = u32::from(kind);
    let a = run(func, Pool::Imms, from.imms);
    let b = run(func, Pool::Values, from.values);
    let c = run(func, Pool::OpRefs, from.ops);
    let d = run(func, Pool::ChildRefs, from.children);
    let e = run(func, Pool::Decls, from.decls);
    push(func, Pool::Nodes, &[k, opcode, a, b, c, d, e, control]);
}

// The row of an op.
#[tactic(auto, unfolding(func::specs::Rows::op_row))]
pub fn op_row(func: &mut [u32], from: Marks, attrs: u32, ty: u32, kind: OpKind)
    requires { func_need ≤ length func.old }
    ensures func_after { func.new ≡ op_row from attrs ty kind func.old }
    ensures func_len_unchanged { length func.new ≡ length func.old }
{
    let x = op_words(kind);
    let k = x.kind;
    let m = x.first;
    let n = x.second;
    let a = run(func, Pool::Imms, from.imms);
    let b = run(func, Pool::Values, from.values);
    push(func, Pool::Ops, &[attrs, ty, k, m, n, a, b]);
}

// The row of an entry of a ctrl line.
#[tactic(auto, unfolding(func::specs::Rows::entry_row))]
pub fn entry_row(func: &mut [u32], from: Marks, region: u32)
    requires { func_need ≤ length func.old }
    ensures func_after { func.new ≡ entry_row from region func.old }
    ensures func_len_unchanged { length func.new ≡ length func.old }
{
    let a = run(func, Pool::Values, from.values);
    push(func, Pool::Entries, &[region, a]);
}

// The row of a ctrl line, whose own lists began at `from` and ended at `to`, where its entries began.
#[tactic(auto, unfolding(func::specs::Rows::ctrl_row_from))]
pub fn ctrl_row(
    func: &mut [u32],
    from: Marks,
    to: Marks,
    region: u32,
    attrs: u32,
    kind: CtrlKind,
    opcode: u32,
)
    requires { func_need ≤ length func.old }
    ensures func_after { func.new ≡ ctrl_row_from from to region attrs (ctrl_kind_number kind) opcode func.old }
    ensures func_len_unchanged { length func.new ≡ length func.old }
{
    let k = u32::from(kind);
    let a = span(from.imms, to.imms);
    let b = span(from.values, to.values);
    let c = span(from.targets, to.targets);
    let d = run(func, Pool::Entries, to.entries);
    push(func, Pool::Ctrls, &[region, attrs, k, opcode, a, b, c, d]);
}
