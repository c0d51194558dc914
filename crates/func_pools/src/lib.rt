// The pools: where an entry stands, what it says, and one more of them.
#![tactic(auto)]

ghost use Rattle.std.specs.Prelude.{◌≡◌, ◌+◌, ◌*◌, ◌/◌, ◌%◌, ◌<◌, ◌≤◌, length};
ghost use Rattle.std.proofs.lemmas.List.Edits.{sets};
ghost use Rattle.func.specs.Layout.{func_need, pool_total, entry_words, base, width, room};
ghost use Rattle.func.specs.Store.{count, most, place, raise, push};
ghost use Rattle.func.specs.Tables.{Within, word};
ghost use Rattle.func.specs.Whole.{empty_pools};
ghost use Rattle.func_pools.specs.Pools.{pool_number};

use refusals::limits::{
    MAX_CONSTS, MAX_DECLS, MAX_IMMEDIATES, MAX_NODES, MAX_OPS, MAX_PARAMS, MAX_REGIONS,
    MAX_TARGETS, MAX_VALUES,
};

// The pools, each by its place in the list, which is its number in the layout.
#[derive(Clone, Copy, PartialEq, Eq)]
pub enum Pool {
    Consts,
    Params,
    Decls,
    Values,
    Imms,
    Targets,
    NodeRefs,
    OpRefs,
    ChildRefs,
    Entries,
    Regions,
    Nodes,
    Ops,
    Ctrls,
}

// Where a pool begins, how wide its entries are, and how many it has room for.
#[derive(Clone, Copy)]
struct Shape {
    base: usize,
    width: usize,
    room: u32,
}

impl Pool {
    fn number(self) -> usize
        ensures { (result ≡ pool_number self) × (result < pool_total) }
    {
        self as usize
    }

    // A match and no constant table: the compiler writes a table onto the stack anew wherever one is read.
    #[tactic(auto, unfolding(func::specs::Layout::shapes, func::specs::Layout::lay, func::specs::Layout::pools, func::specs::Layout::pool_of, func::specs::Layout::base, func::specs::Layout::width, func::specs::Layout::room))]
    fn shape(self) -> Shape
        ensures { (result.base ≡ base (pool_number self)) × (result.width ≡ width (pool_number self)) × (result.room ≡ room (pool_number self)) }
    {
        let (base, width, room) = match self {
            Pool::Consts => (32, 2, MAX_CONSTS),
            Pool::Params => (544, 2, MAX_PARAMS),
            Pool::Decls => (672, 2, MAX_DECLS),
            Pool::Values => (1696, 2, MAX_VALUES),
            Pool::Imms => (5792, 3, MAX_IMMEDIATES),
            Pool::Targets => (7328, 1, MAX_TARGETS),
            Pool::NodeRefs => (7840, 1, MAX_NODES),
            Pool::OpRefs => (7968, 1, MAX_OPS),
            Pool::ChildRefs => (8480, 1, MAX_REGIONS),
            Pool::Entries => (8608, 2, MAX_TARGETS),
            Pool::Regions => (9632, 3, MAX_REGIONS),
            Pool::Nodes => (10016, 8, MAX_NODES),
            Pool::Ops => (11040, 7, MAX_OPS),
            Pool::Ctrls => (14624, 8, MAX_REGIONS),
        };
        Shape { base, width, room }
    }
}

// Where entry i of pool k stands.
fn spot(k: Pool, i: usize) -> usize
    requires { i < room (pool_number k) }
    ensures { (result ≡ base (pool_number k) + i * width (pool_number k)) × (result + width (pool_number k) ≤ func_need) }
{
    let shape = k.shape();
    shape.base + i * shape.width
}

// A run of words, stored from `at` on.
pub fn store(func: &mut [u32], at: usize, e: &[u32])
    requires { at + length e.now ≤ length func.old }
    ensures func_after { func.new ≡ sets func.old at e.now }
    ensures func_len_unchanged { length func.new ≡ length func.old }
{
    func[at..at + e.len()].copy_from_slice(e);
}

// Every pool is empty.
#[tactic(auto, unfolding(func::specs::Whole::empty_pools))]
pub fn empty(func: &mut [u32])
    requires { func_need ≤ length func.old }
    ensures { func.new ≡ empty_pools func.old }
{
    let zeros = [0u32; 32];
    store(func, 0, &zeros);
}

// An entry of pool k: stored where there is room, else counted.
fn place(func: &mut [u32], k: Pool, e: &[u32])
    requires { (func_need ≤ length func.old) × (length e.now ≡ width (pool_number k)) }
    ensures func_after { func.new ≡ place (pool_number k) e.now func.old }
    ensures func_len_unchanged { length func.new ≡ length func.old }
{
    let at = 4 + k.number();
    let n = func[at];
    let most = k.shape().room;
    if n < most {
        store(func, spot(k, n as usize), e);
        func[at] = n + 1;
    } else {
        func[at] = most + 1;
    }
}

// The largest first word that pool k was given.
fn raise(func: &mut [u32], k: Pool, n: u32)
    requires { func_need ≤ length func.old }
    ensures func_after { func.new ≡ raise (pool_number k) n func.old }
    ensures func_len_unchanged { length func.new ≡ length func.old }
{
    let at = 18 + k.number();
    func[at] = func[at].max(n);
}

// An entry of pool k.
pub fn push(func: &mut [u32], k: Pool, e: &[u32])
    requires { (func_need ≤ length func.old) × (length e.now ≡ entry_words (pool_number k)) }
    ensures func_after { func.new ≡ push (pool_number k) e.now func.old }
    ensures func_len_unchanged { length func.new ≡ length func.old }
{
    place(func, k, e);
    raise(func, k, e[0]);
}

// How many entries pool k was given, up to one above its room. This and `most` read two tables by the pool, each named for what it promises.
#[tactic(auto, unfolding(func::specs::Store::count))]
pub fn count(func: &[u32], k: Pool) -> u32
    requires { func_need ≤ length func.now }
    ensures { result ≡ count (pool_number k) func.now }
{
    func[4 + k.number()]
}

// The largest first word that pool k was given.
#[tactic(auto, unfolding(func::specs::Store::most))]
pub fn most(func: &[u32], k: Pool) -> u32
    requires { func_need ≤ length func.now }
    ensures { result ≡ most (pool_number k) func.now }
{
    func[18 + k.number()]
}

// Word j of entry i of pool k.
pub fn word(func: &[u32], k: Pool, i: usize, j: usize) -> u32
    requires within { Within (pool_number k) func.now i }
    requires j_bound { j < entry_words (pool_number k) }
    ensures { result ≡ word (pool_number k) func.now i j }
{
    let at = spot(k, i);
    func[at + j]
}

// How many elements the list has whose run is word j of entry i of pool k.
pub fn run_count(func: &[u32], k: Pool, i: usize, j: usize) -> usize
    requires within { Within (pool_number k) func.now i }
    requires j_bound { j < entry_words (pool_number k) }
    ensures { result ≡ word (pool_number k) func.now i j % 4096 }
{
    (word(func, k, i, j) % 4096) as usize
}

// Where element n of that list stands in its pool.
pub fn run_at(func: &[u32], k: Pool, i: usize, j: usize, n: usize) -> usize
    requires within { Within (pool_number k) func.now i }
    requires j_bound { (j < entry_words (pool_number k)) × (n ≤ 4095) }
    ensures { result ≡ word (pool_number k) func.now i j / 4096 + n }
{
    (word(func, k, i, j) / 4096) as usize + n
}
