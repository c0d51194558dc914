// Block, loop and exit lines, and which reader a node's line has by its word.
ghost use Rattle.std.specs.Prelude.{◌≡◌, ◌≤◌, length};
ghost use Rattle.func.specs.Layout.{func_need};
ghost use Rattle.func.specs.Keep.{keep_node};
ghost use Rattle.read_lines.specs.Stores.{Stores};
ghost use Rattle.read_lines.specs.Tails.{block_tail, loop_lists, loop_tail, exit_tail};
ghost use Rattle.read_lines.specs.Keepers.{keep_loop_lists};
ghost use Rattle.read_lines.specs.Nodes.{node_tail};

use func::NodeKind;
use func_pools::Pool;
use read_cursor::Cursor;
use read_fields::field;
use read_insts::ops::inst;
use read_lines::elements::{element, form, list};
use read_lines::forms::{control_end, inst_values};
use read_lines::{Element, NodeWord};
use read_selects::select_line;

// `(block I..)`, behind `(block`.
#[tactic(auto, using(read_lines::specs::Laws::storing))]
pub fn block_line<'a>(func: &mut [u32], from: Cursor<'a>) -> Option<Cursor<'a>>
    requires { func_need ≤ length func.old }
    ensures stores { Stores block_tail keep_node from.entry result func.old func.new }
    ensures func_len_unchanged { length func.new ≡ length func.old }
{
    let marks = func_store::begin(func);
    let c = list(func, Element::Number(Pool::OpRefs), from)?;
    let d = c.word(b"\n")?;
    func_store::node_row(func, marks, NodeKind::Block, 0, 0);
    Some(d)
}

// A loop's condition and its initial values.
#[tactic(auto, using(read_lines::specs::Laws::storing), unfolding(read_lines::specs::Tails::loop_lists))]
fn loop_lists<'a>(func: &mut [u32], from: Cursor<'a>) -> Option<Cursor<'a>>
    requires { func_need ≤ length func.old }
    ensures stores { Stores loop_lists.read keep_loop_lists from.entry result func.old func.new }
    ensures func_len_unchanged { length func.new ≡ length func.old }
{
    let Some(c) = element(func, Element::Value, from) else {
        return None;
    };
    form(func, b" (init", Element::Value, c)
}

// `(loop R V (init V..) U)`, behind `(loop`.
pub fn loop_line<'a>(func: &mut [u32], from: Cursor<'a>) -> Option<Cursor<'a>>
    requires { func_need ≤ length func.old }
    ensures stores { Stores loop_tail keep_node from.entry result func.old func.new }
    ensures func_len_unchanged { length func.new ≡ length func.old }
{
    let marks = func_store::begin(func);
    let (r, c) = field(from)?;
    let d = loop_lists(func, c)?;
    let (u, e) = control_end(d)?;
    func_store::keep_number(func, Pool::ChildRefs, r);
    func_store::node_row(func, marks, NodeKind::Loop, 0, u);
    Some(e)
}

// `(exit INST V..)`, behind `(exit`.
#[tactic(auto, using(read_lines::specs::Laws::storing))]
pub fn exit_line<'a>(func: &mut [u32], from: Cursor<'a>) -> Option<Cursor<'a>>
    requires { func_need ≤ length func.old }
    ensures stores { Stores exit_tail keep_node from.entry result func.old func.new }
    ensures func_len_unchanged { length func.new ≡ length func.old }
{
    let marks = func_store::begin(func);
    let (n, c) = inst(from)?;
    let d = inst_values(func, c)?;
    func_store::node_row(func, marks, NodeKind::Exit, n, 0);
    Some(d)
}

// A node's line, behind its opening word.
pub fn node_line<'a>(func: &mut [u32], word: NodeWord, from: Cursor<'a>) -> Option<Cursor<'a>>
    requires { func_need ≤ length func.old }
    ensures stores { Stores (node_tail word) keep_node from.entry result func.old func.new }
    ensures func_len_unchanged { length func.new ≡ length func.old }
{
    match word {
        NodeWord::Block => block_line(func, from),
        NodeWord::Select => select_line(func, from),
        NodeWord::Loop => loop_line(func, from),
        NodeWord::Exit => exit_line(func, from),
    }
}
