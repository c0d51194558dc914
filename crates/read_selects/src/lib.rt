// Reads select lines: their lists, and the row.
#![tactic(auto)]

ghost use Rattle.std.specs.Prelude.{◌≡◌, ◌≤◌, length};
ghost use Rattle.func.specs.Layout.{func_need};
ghost use Rattle.func.specs.Keep.{keep_node};
ghost use Rattle.func.specs.Rows.{node_row};
ghost use Rattle.read_lines.specs.Stores.{Stores};
ghost use Rattle.read_lines.specs.Tails.{select_lists, select_rest, select_tail};
ghost use Rattle.read_lines.specs.Keepers.{keep_select_lists, keep_node_lists, select_number, select_opcode};

use func::{Marks, NodeKind};
use func_pools::Pool;
use read_cursor::Cursor;
use read_insts::Selection;
use read_insts::controls::selection;
use read_lines::Element;
use read_lines::elements::{element, form, list};
use read_lines::forms::control_end;

// A select's scrutinee, its cases and its outputs.
#[tactic(auto, using(read_lines::specs::Laws::storing), unfolding(read_lines::specs::Tails::select_lists, read_lines::specs::Tails::select_forms))]
fn select_lists<'a>(func: &mut [u32], from: Cursor<'a>) -> Option<Cursor<'a>>
    requires { func_need ≤ length func.old }
    ensures stores { Stores select_lists.read keep_select_lists from.entry result func.old func.new }
    ensures func_len_unchanged { length func.new ≡ length func.old }
{
    let Some(c) = element(func, Element::Value, from) else {
        return None;
    };
    let d = form(func, b" (cases", Element::Number(Pool::ChildRefs), c)?;
    form(func, b" (outs", Element::Decl, d)
}

// The same, behind the immediates of its INST.
fn select_rest<'a>(func: &mut [u32], kind: Selection, from: Cursor<'a>) -> Option<Cursor<'a>>
    requires { func_need ≤ length func.old }
    ensures stores { Stores (select_rest kind) keep_node_lists from.entry result func.old func.new }
    ensures func_len_unchanged { length func.new ≡ length func.old }
{
    match kind {
        Selection::Bool => select_lists(func, from),
        Selection::Inst(_) => {
            let c = list(func, Element::Imm, from)?;
            select_lists(func, c)
        }
    }
}

// The row of a select.
fn select_row(func: &mut [u32], from: Marks, kind: Selection, control: u32)
    requires { func_need ≤ length func.old }
    ensures func_after { func.new ≡ node_row from (select_number kind) (select_opcode kind) control func.old }
    ensures func_len_unchanged { length func.new ≡ length func.old }
{
    match kind {
        Selection::Bool => func_store::node_row(func, from, NodeKind::SelectBool, 0, control),
        Selection::Inst(n) => func_store::node_row(func, from, NodeKind::SelectInst, n, control),
    }
}

// `(select K V (cases R..) (outs (A T)..) U)`, behind `(select`.
pub fn select_line<'a>(func: &mut [u32], from: Cursor<'a>) -> Option<Cursor<'a>>
    requires { func_need ≤ length func.old }
    ensures stores { Stores select_tail keep_node from.entry result func.old func.new }
    ensures func_len_unchanged { length func.new ≡ length func.old }
{
    let marks = func_store::begin(func);
    let (k, c) = selection(from)?;
    let d = select_rest(func, k, c)?;
    let (u, e) = control_end(d)?;
    select_row(func, marks, k, u);
    Some(e)
}
