// Tables of the work slice, with a word for each of 128 regions: the ctrl lines by region, the marks of children, and the marks of the walk.
// Each is filled in one pass over the text, so that a region is looked up by one read.
ghost use Rattle.std.specs.Prelude.{◌≡◌, List, [], ◌++◌, ℕ, ◌+◌, ◌≤◌, ◌<◌, eqb, length, get_or, set};
ghost use Rattle.general_laws.specs.Lists.{distinct, keys};
ghost use Rattle.lifting.specs.Ast.{Func};
ghost use Rattle.lifting.specs.Parts.{node_of, children_of, child_list};
ghost use Rattle.func.specs.Decode.{func_of};
ghost use Rattle.func.specs.Search.{CtrlIs};
ghost use Rattle.work.specs.Layout.{lines_at, children_at, marks_at, tables_end};
ghost use Rattle.work.specs.Aside.{Aside};
ghost use Rattle.walk_roots.specs.Tables.{RegionsNamed, TablesBlank, Indexed, RegionsMarked};

use func_look::Function;
use work::{CHILDREN, LINES, TABLES_END, clear};

// Line c is region r's: whether no later line is.
fn put_line(work: &mut [u32], r: usize, c: usize) -> bool
    requires { (r < 128) × (c < 128) × (tables_end ≤ length work.old) }
    ensures value { result ≡ eqb (get_or work.old (lines_at + r) 0) 0 }
    ensures work_after { work.new ≡ set work.old (lines_at + r) (c + 1) }
    ensures work_len_unchanged { length work.new ≡ length work.old }
{
    let old = work[LINES + r];
    work[LINES + r] = (c + 1) as u32;
    old == 0
}

// The lines from the last to the first, so that a region's first line stays: whether no region has two.
fn put_lines(func: &Function, work: &mut [u32]) -> bool
    requires regions_named { RegionsNamed (func_of func.now) }
    requires tables_end_in_bounds { (tables_end ≤ length work.old) × TablesBlank work.old }
    ensures value { result ≡ distinct (keys (func_of func.now).ctrls) }
    ensures indexed { Indexed (func_of func.now) work.new }
    ensures aside { Aside lines_at children_at work.old work.new }
    ensures work_len_unchanged { length work.new ≡ length work.old }
{
    func.known();
    let mut once = true;
    for i in (0..func.ctrl_total()).rev() {
        let r = func.ctrl_region(i);
        if !put_line(work, r, i) {
            once = false;
        }
    }
    once
}

// The table of ctrl lines by region stands, and no region is marked: whether no region has two lines.
pub fn index(func: &Function, work: &mut [u32]) -> bool
    requires regions_named { RegionsNamed (func_of func.now) }
    requires tables_end_in_bounds { tables_end ≤ length work.old }
    ensures value { result ≡ distinct (keys (func_of func.now).ctrls) }
    ensures indexed { Indexed (func_of func.now) work.new }
    ensures regions_marked { RegionsMarked children_at [] work.new × RegionsMarked marks_at [] work.new }
    ensures aside { Aside 0 tables_end work.old work.new }
    ensures work_len_unchanged { length work.new ≡ length work.old }
{
    clear(work, LINES, TABLES_END);
    put_lines(func, work)
}

// The ctrl line of region r, if it has one, of whatever function the table is.
pub fn ctrl_at(work: &[u32], r: usize) -> Option<usize>
    requires { (r < 128) × (tables_end ≤ length work.now) }
    ensures { (F : Func) → Indexed F work.now → CtrlIs result F r }
{
    (work[LINES + r] as usize).checked_sub(1)
}

// The children of node n are marked.
fn mark_node(func: &Function, n: usize, work: &mut [u32])
    requires regions_named { RegionsNamed (func_of func.now) }
    requires n_in_bounds { (n < length (func_of func.now).nodes) × (tables_end ≤ length work.old) }
    ensures by_index { (l : List ℕ) → RegionsMarked children_at l work.old → RegionsMarked children_at (children_of (node_of (func_of func.now) n) ++ l) work.new }
    ensures aside { Aside children_at marks_at work.old work.new }
    ensures work_len_unchanged { length work.new ≡ length work.old }
{
    func.known();
    for i in (0..func.node_child_count(n)).rev() {
        let r = func.node_child(n, i);
        work[CHILDREN + r] = 1;
    }
}

// The children of each node are.
pub fn mark_nodes(func: &Function, work: &mut [u32])
    requires regions_named { RegionsNamed (func_of func.now) }
    requires tables_end_in_bounds { (tables_end ≤ length work.old) × RegionsMarked children_at [] work.old }
    ensures regions_marked { RegionsMarked children_at (child_list (func_of func.now)) work.new }
    ensures aside { Aside children_at marks_at work.old work.new }
    ensures work_len_unchanged { length work.new ≡ length work.old }
{
    func.known();
    for i in (0..func.node_total()).rev() {
        mark_node(func, i, work);
    }
}
