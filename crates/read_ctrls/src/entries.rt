// The entries of a ctrl line.
ghost use Rattle.std.specs.Prelude.{◌≡◌, true, ◌&&◌, ◌+◌, ◌≤◌, eqb, length};
ghost use Rattle.lifting.specs.Grammar.{entry_codec, entries_codec};
ghost use Rattle.func.specs.Layout.{func_need, values};
ghost use Rattle.func.specs.Store.{count, folds};
ghost use Rattle.func.specs.Rows.{entry_row};
ghost use Rattle.work.specs.Layout.{work_need};
ghost use Rattle.check_edges.specs.Edges.{ins_of, mark_entry, keep_edge};
ghost use Rattle.read_ctrls.specs.Tails.{edges_form};
ghost use Rattle.read_ctrls.specs.Answers.{StoresWith, edges_state};

use check_edges::{mark, values_fit};
use func::Marks;
use func_pools::count;
use read_cursor::Cursor;
use read_fields::opened;
use read_lines::Element;
use read_lines::elements::list;

// An entry of region r, whose values began at the marks: whether it fits, after whether those before it did.
fn entry_end(func: &mut [u32], work: &mut [u32], from: Marks, line: u32, fit: bool, r: u32) -> bool
    requires { (func_need ≤ length func.old) × (work_need ≤ length work.old) }
    ensures value { result ≡ (fit && eqb (from.values + ins_of func.old r) (count values func.old)) }
    ensures func_after { func.new ≡ entry_row from r func.old }
    ensures work_after { work.new ≡ mark_entry line r work.old }
    ensures func_len_unchanged { length func.new ≡ length func.old }
    ensures work_len_unchanged { length work.new ≡ length work.old }
{
    let fits = values_fit(func, from.values, r);
    func_store::entry_row(func, from, r);
    mark(work, line, r);
    fit && fits
}

// ` (R V..)`.
fn entry<'a>(
    func: &mut [u32],
    work: &mut [u32],
    line: u32,
    fit: bool,
    from: Cursor<'a>,
) -> Option<(bool, Cursor<'a>)>
    requires { (func_need ≤ length func.old) × (work_need ≤ length work.old) }
    ensures stores { StoresWith entry_codec.read (keep_edge line) from.entry result (edges_state func.old work.old fit) (edges_state func.new work.new) }
    ensures func_len_unchanged { length func.new ≡ length func.old }
    ensures work_len_unchanged { length work.new ≡ length work.old }
{
    let marks = func_store::begin(func);
    let b = from.skip_space()?;
    let (r, c) = opened(b)?;
    let d = list(func, Element::Value, c)?;
    Some((entry_end(func, work, marks, line, fit, r), d))
}

// ` (R V..)..)`.
fn entry_list<'a>(
    func: &mut [u32],
    work: &mut [u32],
    line: u32,
    from: Cursor<'a>,
) -> Option<(bool, Cursor<'a>)>
    requires { (func_need ≤ length func.old) × (work_need ≤ length work.old) }
    ensures stores { StoresWith entries_codec.read (folds (keep_edge line)) from.entry result (edges_state func.old work.old true) (edges_state func.new work.new) }
    ensures func_len_unchanged { length func.new ≡ length func.old }
    ensures work_len_unchanged { length work.new ≡ length work.old }
{
    let mut c = from;
    let mut fit = true;
    loop {
        if let Some(d) = c.close() {
            return Some((fit, d));
        }
        let (f, d) = entry(func, work, line, fit, c)?;
        fit = f;
        c = d;
    }
}

// ` (vals (R V..)..)`, which ends its line.
pub fn edges<'a>(
    func: &mut [u32],
    work: &mut [u32],
    line: u32,
    from: Cursor<'a>,
) -> Option<(bool, Cursor<'a>)>
    requires { (func_need ≤ length func.old) × (work_need ≤ length work.old) }
    ensures stores { StoresWith edges_form.read (folds (keep_edge line)) from.entry result (edges_state func.old work.old true) (edges_state func.new work.new) }
    ensures func_len_unchanged { length func.new ≡ length func.old }
    ensures work_len_unchanged { length work.new ≡ length work.old }
{
    let c = from.word(b" (vals")?;
    let (fit, d) = entry_list(func, work, line, c)?;
    let e = d.word(b")\n")?;
    Some((fit, e))
}
