// Refusal 7: whether the ctrl lines of the function slice fit. Regions are looked up in the tables of the work slice; entries of one line are
// compared with its other entries and its targets. The roots come from the walk.
#![tactic(auto)]

ghost use Rattle.std.specs.Prelude.{◌≡◌, ◌≤◌, ◌<◌, length, drop};
ghost use Rattle.general_laws.specs.Lists.{every, within, distinct, keys};
ghost use Rattle.lifting.specs.Parts.{child_list};
ghost use Rattle.lifting.specs.Control.{is_root, ctrl_fits, control_fits};
ghost use Rattle.func.specs.Decode.{func_of};
ghost use Rattle.func.specs.Tables.{Tables, ctrl_line_of};
ghost use Rattle.work.specs.Layout.{children_at, tables_end, work_need};
ghost use Rattle.work.specs.Aside.{Aside};
ghost use Rattle.walk_roots.specs.Tables.{RegionsNamed, Indexed, RegionsMarked};
ghost use Rattle.walk_roots.specs.Visit.{last_roots, RootsLow};
ghost use Rattle.check_control.specs.Loops.{target_fits, line_fits, kind_test};

use func::CtrlKind;
use func_look::Function;
use walk_roots::tables::{index, mark_nodes};
use walk_roots::walk::order;
use work::{CHILDREN, LINES, ROOTS_END};

// A function whose lists name its regions, and a work slice in which those that are children are marked.
#[derive(Clone, Copy)]
struct Marked<'a> {
    func: &'a Function<'a>,
    work: &'a [u32],
    ghost named: { RegionsNamed (func_of func.now) },
    ghost marked: { RegionsMarked children_at (child_list (func_of func.now)) work.now },
    ghost whole: { tables_end ≤ length work.now },
}

impl Marked<'_> {
    // Region r is no child.
    fn is_root(&self, r: usize) -> bool
        requires { r < 128 }
        ensures { result ≡ is_root (func_of self.now.func.now) r }
    {
        self.work[CHILDREN + r] == 0
    }

    // Region r can be a target.
    fn target_fits(&self, r: usize) -> bool
        requires { r < 128 }
        ensures { result ≡ target_fits (func_of self.now.func.now) r }
    {
        0 < r && self.is_root(r)
    }

    // The targets of line c fit.
    fn targets_fit(&self, c: usize) -> bool
        requires { c < length (func_of self.now.func.now).ctrls }
        ensures { result ≡ every (target_fits (func_of self.now.func.now)) (ctrl_line_of (func_of self.now.func.now) c).1.to }
    {
        let k = self.func.target_count(c);
        (0..k).all(|i| self.target_fits(self.func.target(c, i)))
    }

    // What line c says of its way out fits.
    fn ctrl_fits(&self, c: usize) -> bool
        requires { c < length (func_of self.now.func.now).ctrls }
        ensures { result ≡ ctrl_fits (func_of self.now.func.now) (ctrl_line_of (func_of self.now.func.now) c).1 }
    {
        self.targets_fit(c)
            && entries_distinct(self.func, c)
            && entries_fit(self.func, c)
            && kind_fits(
                self.func.ctrl_kind(c),
                self.func.ctrl_in_count(c),
                self.func.target_count(c),
            )
    }

    // Line c fits, and its region is no child.
    fn line_fits(&self, c: usize) -> bool
        requires { c < length (func_of self.now.func.now).ctrls }
        ensures { result ≡ line_fits (func_of self.now.func.now) (ctrl_line_of (func_of self.now.func.now) c) }
    {
        self.is_root(self.func.ctrl_region(c)) && self.ctrl_fits(c)
    }

    // Each line does.
    fn lines_fit(&self) -> bool
        ensures { result ≡ every (line_fits (func_of self.now.func.now)) (func_of self.now.func.now).ctrls }
    {
        let k = self.func.ctrl_total();
        (0..k).all(|i| self.line_fits(i))
    }
}

// Region r has a ctrl line.
fn has_line(func: &Function, work: &[u32], r: usize) -> bool
    requires indexed { Indexed (func_of func.now) work.now }
    requires r_bound { (r < 128) × (tables_end ≤ length work.now) }
    ensures { result ≡ within r (keys (func_of func.now).ctrls) }
{
    work[LINES + r] != 0
}

// Region r is a target of line c.
fn is_target(func: &Function, c: usize, r: usize) -> bool
    requires c_in_bounds { c < length (func_of func.now).ctrls }
    ensures { result ≡ within r (ctrl_line_of (func_of func.now) c).1.to }
{
    let k = func.target_count(c);
    (0..k).any(|i| func.target(c, i) == r)
}

// An entry of line c from entry s on is region r's.
fn entry_after(func: &Function, c: usize, s: usize, r: usize) -> bool
    requires c_in_bounds { c < length (func_of func.now).ctrls }
    ensures { result ≡ within r (keys (drop s (ctrl_line_of (func_of func.now) c).1.vals)) }
{
    let k = func.entry_count(c);
    (s..k).any(|i| func.entry_region(c, i) == r)
}

// No region has two entries of line c.
fn entries_distinct(func: &Function, c: usize) -> bool
    requires c_in_bounds { c < length (func_of func.now).ctrls }
    ensures { result ≡ distinct (keys (ctrl_line_of (func_of func.now) c).1.vals) }
{
    let k = func.entry_count(c);
    (0..k).all(|i| !entry_after(func, c, i + 1, func.entry_region(c, i)))
}

// The entries of line c are its targets'.
fn entries_fit(func: &Function, c: usize) -> bool
    requires c_in_bounds { c < length (func_of func.now).ctrls }
    ensures { result ≡ every (λ r. within r (ctrl_line_of (func_of func.now) c).1.to) (keys (ctrl_line_of (func_of func.now) c).1.vals) }
{
    let k = func.entry_count(c);
    (0..k).all(|i| is_target(func, c, func.entry_region(c, i)))
}

// A line of a kind can have so many inputs and targets.
fn kind_fits(kind: CtrlKind, ins: usize, to: usize) -> bool
    ensures { result ≡ kind_test kind ins to }
{
    match kind {
        CtrlKind::Unreachable => ins == 0 && to == 0,
        CtrlKind::Return => ins <= 1 && to == 0,
        CtrlKind::Branch => ins == 0 && to == 1,
        CtrlKind::Bool => ins == 1 && to == 2,
        CtrlKind::Inst => 0 < ins && 0 < to,
        CtrlKind::Exit => to == 0,
    }
}

// Each of the n roots at the end of their table has a ctrl line.
fn have_ctrls(func: &Function, work: &[u32], n: usize) -> bool
    requires indexed { Indexed (func_of func.now) work.now }
    requires roots_low { RootsLow (func_of func.now) work.now n × (length (func_of func.now).regions ≤ 128) }
    requires n_bound { (n ≤ 128) × (tables_end ≤ length work.now) }
    ensures { result ≡ every (λ r. within r (keys (func_of func.now).ctrls)) (last_roots work.now n) }
{
    (ROOTS_END - n..ROOTS_END).all(|i| has_line(func, work, work[i] as usize))
}

// The text in the function slice passes refusal 7. Only the tables of the control-flow walk are written.
pub fn control(func: &Function, work: &mut [u32]) -> bool
    requires regions_named { RegionsNamed (func_of func.now) }
    requires work_need_in_bounds { work_need ≤ length work.old }
    ensures { (result ≡ control_fits (func_of func.now)) × (length work.new ≡ length work.old) × Aside 0 tables_end work.old work.new }
{
    if !index(func, work) {
        return false;
    }
    mark_nodes(func, work);
    let marked = Marked { func: &*func, work };
    if !marked.lines_fit() {
        return false;
    }
    if func.ctrl_total() == 0 {
        return true;
    }
    let n = order(func, work);
    have_ctrls(func, work, n)
}
