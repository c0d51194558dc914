// Lists with what ends their line.
ghost use Rattle.std.specs.Prelude.{◌≡◌, ◌≤◌, length};
ghost use Rattle.func.specs.Layout.{func_need};
ghost use Rattle.lifting.specs.Grammar.{values_codec, sub};
ghost use Rattle.read_cursor.specs.Answers.{ReadsOn};
ghost use Rattle.func.specs.Store.{folds};
ghost use Rattle.func.specs.Keep.{keep_value};
ghost use Rattle.read_lines.specs.Stores.{Stores};
ghost use Rattle.read_lines.specs.Tails.{last_form, ended_by, control, inst_values};
ghost use Rattle.read_lines.specs.Keepers.{keep_inst_values};

use crate::Element;
use crate::elements::{form, list};
use read_cursor::Cursor;
use read_fields::field;

// ` (out V..))`, which ends its line.
#[tactic(auto, using(crate::specs::Laws::storing))]
pub fn out_form<'a>(func: &mut [u32], from: Cursor<'a>) -> Option<Cursor<'a>>
    requires { func_need ≤ length func.old }
    ensures stores { Stores (last_form (sub "out" values_codec)).read (folds keep_value) from.entry result func.old func.new }
    ensures func_len_unchanged { length func.new ≡ length func.old }
{
    let c = form(func, b" (out", Element::Value, from)?;
    c.word(b")\n")
}

// ` U)`, the control number of a merge, which ends its line.
#[tactic(auto, using(crate::specs::Laws::ends), unfolding(crate::specs::Tails::control))]
pub fn control_end(from: Cursor<'_>) -> Option<(u32, Cursor<'_>)>
    ensures { ReadsOn control.read from.entry result }
{
    let (u, c) = field(from)?;
    let d = c.word(b")\n")?;
    Some((u, d))
}

// `V..)`, which ends its line.
#[tactic(auto, using(crate::specs::Laws::storing))]
pub fn values_end<'a>(func: &mut [u32], from: Cursor<'a>) -> Option<Cursor<'a>>
    requires { func_need ≤ length func.old }
    ensures stores { Stores (ended_by values_codec).read (folds keep_value) from.entry result func.old func.new }
    ensures func_len_unchanged { length func.new ≡ length func.old }
{
    let c = list(func, Element::Value, from)?;
    c.word(b"\n")
}

// The immediates of an INST, and values, which end their line.
#[tactic(auto, using(crate::specs::Laws::storing), unfolding(crate::specs::Tails::inst_values))]
pub fn inst_values<'a>(func: &mut [u32], from: Cursor<'a>) -> Option<Cursor<'a>>
    requires { func_need ≤ length func.old }
    ensures stores { Stores inst_values.read keep_inst_values from.entry result func.old func.new }
    ensures func_len_unchanged { length func.new ≡ length func.old }
{
    let c = list(func, Element::Imm, from)?;
    values_end(func, c)
}
