// What a row says of any text's slice, whole or not (`Stored` of crate func): the tests of refusals 4 and 5 run before it is known that every list fits.
#![tactic(auto)]

ghost use Rattle.std.specs.Prelude.{◌≡◌, ◌+◌, ◌/◌, ◌%◌, ◌≤◌, ◌<◌, length, get_or};
ghost use Rattle.func.specs.Layout.{func_need, nodes, ops, entry_words};
ghost use Rattle.func.specs.Kinds.{node_kind_from, op_kind_from};
ghost use Rattle.func.specs.Tables.{Within, word};
ghost use Rattle.func_pools.specs.Pools.{pool_number};
ghost use Rattle.func_rows.specs.Columns.{column_pool, column_place, list_pool, list_place, element_pool};

use func::{NodeKind, OpKind};
use func_pools::{Pool, word};

// A word of a row that is one number: an id, a type id, a kind's number, an opcode, a control number. Every row has each word, so that without an INST or a
// merge there is 0 in its place (`node_cells`), and the text itself writes 0 for the type of an op without a result.
#[derive(Clone, Copy)]
pub enum Column {
    ConstId,
    ConstOpcode,
    ParamType,
    DeclType,
    NodeKind,
    NodeOpcode,
    NodeControl,
    OpType,
    OpKind,
}

// A word of a row that says where a list lies.
#[derive(Clone, Copy)]
pub enum RowList {
    RegionIns,
    RegionNodes,
    RegionResults,
    NodeValues,
    NodeChildren,
    NodeOuts,
}

impl RowList {
    // The pool that its elements stand in.
    fn elements(self) -> Pool
        ensures { pool_number result ≡ element_pool self }
    {
        match self {
            RowList::RegionIns | RowList::NodeOuts => Pool::Decls,
            RowList::RegionNodes => Pool::NodeRefs,
            RowList::RegionResults | RowList::NodeValues => Pool::Values,
            RowList::NodeChildren => Pool::ChildRefs,
        }
    }
}

// The func line's return type id. It stands in no pool, as does its function type id, so that each has a reader of its own.
pub fn head_ret(func: &[u32]) -> u32
    requires { func_need ≤ length func.now }
    ensures { result ≡ get_or func.now 1 0 }
{
    func[1]
}

// Its function type id.
pub fn head_type(func: &[u32]) -> u32
    requires { func_need ≤ length func.now }
    ensures { result ≡ get_or func.now 2 0 }
{
    func[2]
}

// The number of row i in a column.
pub fn row_word(func: &[u32], column: Column, i: usize) -> u32
    requires { Within (column_pool column) func.now i }
    ensures { result ≡ word (column_pool column) func.now i (column_place column) }
{
    match column {
        Column::ConstId => word(func, Pool::Consts, i, 0),
        Column::ConstOpcode => word(func, Pool::Consts, i, 1),
        Column::ParamType => word(func, Pool::Params, i, 1),
        Column::DeclType => word(func, Pool::Decls, i, 1),
        Column::NodeKind => word(func, Pool::Nodes, i, 0),
        Column::NodeOpcode => word(func, Pool::Nodes, i, 1),
        Column::NodeControl => word(func, Pool::Nodes, i, 7),
        Column::OpType => word(func, Pool::Ops, i, 1),
        Column::OpKind => word(func, Pool::Ops, i, 2),
    }
}

// The run of a list of row i.
fn run(func: &[u32], list: RowList, i: usize) -> u32
    requires { Within (list_pool list) func.now i }
    ensures { result ≡ word (list_pool list) func.now i (list_place list) }
{
    match list {
        RowList::RegionIns => word(func, Pool::Regions, i, 0),
        RowList::RegionNodes => word(func, Pool::Regions, i, 1),
        RowList::RegionResults => word(func, Pool::Regions, i, 2),
        RowList::NodeValues => word(func, Pool::Nodes, i, 3),
        RowList::NodeChildren => word(func, Pool::Nodes, i, 5),
        RowList::NodeOuts => word(func, Pool::Nodes, i, 6),
    }
}

// How many elements a list of row i has.
pub fn row_count(func: &[u32], list: RowList, i: usize) -> usize
    requires { Within (list_pool list) func.now i }
    ensures { result ≡ word (list_pool list) func.now i (list_place list) % 4096 }
{
    (run(func, list, i) % 4096) as usize
}

// Where element n of that list stands in its pool.
pub fn row_at(func: &[u32], list: RowList, i: usize, n: usize) -> usize
    requires within { Within (list_pool list) func.now i }
    requires n_bound { n ≤ 4095 }
    ensures { result ≡ word (list_pool list) func.now i (list_place list) / 4096 + n }
{
    (run(func, list, i) / 4096) as usize + n
}

// Element n of that list, where it is a list of numbers; of a list of others, what its element begins with.
pub fn row_element(func: &[u32], list: RowList, i: usize, n: usize) -> usize
    requires within { Within (list_pool list) func.now i }
    requires n_bound { (n ≤ 4095) × Within (element_pool list) func.now (word (list_pool list) func.now i (list_place list) / 4096 + n) }
    ensures { result ≡ word (element_pool list) func.now (word (list_pool list) func.now i (list_place list) / 4096 + n) 0 }
{
    row_ref(func, list.elements(), row_at(func, list, i, n))
}

// Number i of pool k, one of the pools of references: to nodes, to ops, to child regions.
pub fn row_ref(func: &[u32], k: Pool, i: usize) -> usize
    requires within { Within (pool_number k) func.now i }
    requires k_nonzero { 0 < entry_words (pool_number k) }
    ensures { result ≡ word (pool_number k) func.now i 0 }
{
    word(func, k, i, 0) as usize
}

// The kind of node n.
pub fn row_kind(func: &[u32], n: usize) -> NodeKind
    requires { Within nodes func.now n }
    ensures { result ≡ node_kind_from (word nodes func.now n 0) }
{
    NodeKind::from(word(func, Pool::Nodes, n, 0))
}

// The kind of op o, with its opcode, its ID, or its ID and N.
pub fn row_op_kind(func: &[u32], o: usize) -> OpKind
    requires { Within ops func.now o }
    ensures { result ≡ op_kind_from (word ops func.now o 2) (word ops func.now o 3) (word ops func.now o 4) }
{
    OpKind::from_words(
        word(func, Pool::Ops, o, 2),
        word(func, Pool::Ops, o, 3),
        word(func, Pool::Ops, o, 4),
    )
}
