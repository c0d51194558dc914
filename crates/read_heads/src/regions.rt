// Region lines.
ghost use Rattle.std.specs.Prelude.{◌≡◌, ◌≤◌, length};
ghost use Rattle.func.specs.Layout.{func_need};
ghost use Rattle.func.specs.Keep.{keep_region};
ghost use Rattle.read_lines.specs.Stores.{Stores};
ghost use Rattle.read_lines.specs.Tails.{region_lists, region_tail};
ghost use Rattle.read_lines.specs.Keepers.{keep_region_lists};

use func_pools::Pool;
use read_cursor::Cursor;
use read_lines::Element;
use read_lines::elements::{form, list};
use read_lines::forms::out_form;

// The lists of a region.
#[tactic(auto, using(read_lines::specs::Laws::storing), unfolding(read_lines::specs::Tails::region_lists, read_lines::specs::Tails::region_forms))]
fn region_lists<'a>(func: &mut [u32], from: Cursor<'a>) -> Option<Cursor<'a>>
    requires { func_need ≤ length func.old }
    ensures stores { Stores region_lists.read keep_region_lists from.entry result func.old func.new }
    ensures func_len_unchanged { length func.new ≡ length func.old }
{
    let a = list(func, Element::Decl, from)?;
    let b = form(func, b" (nodes", Element::Number(Pool::NodeRefs), a)?;
    out_form(func, b)
}

// `(region (in (A T)..) (nodes N..) (out V..))`, behind `(region (in`.
#[tactic(auto, using(read_lines::specs::Laws::storing))]
pub fn region_line<'a>(func: &mut [u32], from: Cursor<'a>) -> Option<Cursor<'a>>
    requires { func_need ≤ length func.old }
    ensures stores { Stores region_tail keep_region from.entry result func.old func.new }
    ensures func_len_unchanged { length func.new ≡ length func.old }
{
    let marks = func_store::begin(func);
    let c = region_lists(func, from)?;
    func_store::region_row(func, marks);
    Some(c)
}
