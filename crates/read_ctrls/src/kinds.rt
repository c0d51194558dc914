// The lists behind K of a ctrl line.
ghost use Rattle.std.specs.Prelude.{◌≡◌, ◌≤◌, length};
ghost use Rattle.lifting.specs.Codec.{seq};
ghost use Rattle.lifting.specs.Grammar.{closed, imms_codec};
ghost use Rattle.func.specs.Layout.{func_need};
ghost use Rattle.read_lines.specs.Stores.{Stores};
ghost use Rattle.read_ctrls.specs.Tails.{ctrl_lists, ctrl_rest};
ghost use Rattle.read_ctrls.specs.Answers.{keep_forms, keep_inst_forms, keep_lists};

use func_pools::Pool;
use read_cursor::Cursor;
use read_insts::{Control, Selection};
use read_lines::Element;
use read_lines::elements::{form, list};

// ` (ins V..) (to R..)`.
#[tactic(auto, using(read_lines::specs::Laws::storing), unfolding(crate::specs::Tails::ctrl_lists))]
fn forms<'a>(func: &mut [u32], from: Cursor<'a>) -> Option<Cursor<'a>>
    requires { func_need ≤ length func.old }
    ensures stores { Stores ctrl_lists.read keep_forms from.entry result func.old func.new }
    ensures func_len_unchanged { length func.new ≡ length func.old }
{
    let c = form(func, b" (ins", Element::Value, from)?;
    form(func, b" (to", Element::Number(Pool::Targets), c)
}

// The same behind the immediates of an INST.
#[tactic(auto, using(read_lines::specs::Laws::storing))]
fn inst_forms<'a>(func: &mut [u32], from: Cursor<'a>) -> Option<Cursor<'a>>
    requires { func_need ≤ length func.old }
    ensures stores { Stores (seq imms_codec ctrl_lists).read keep_inst_forms from.entry result func.old func.new }
    ensures func_len_unchanged { length func.new ≡ length func.old }
{
    let c = list(func, Element::Imm, from)?;
    forms(func, c)
}

// The same behind those of an exit, and its closing bracket.
#[tactic(auto, using(read_lines::specs::Laws::storing, read_cursor::specs::Chains::chains))]
fn exit_forms<'a>(func: &mut [u32], from: Cursor<'a>) -> Option<Cursor<'a>>
    requires { func_need ≤ length func.old }
    ensures stores { Stores (seq (closed imms_codec) ctrl_lists).read keep_inst_forms from.entry result func.old func.new }
    ensures func_len_unchanged { length func.new ≡ length func.old }
{
    let c = list(func, Element::Imm, from)?;
    let d = c.close()?;
    forms(func, d)
}

// The rest of K, and the lists.
pub fn lists<'a>(func: &mut [u32], kind: Control, from: Cursor<'a>) -> Option<Cursor<'a>>
    requires { func_need ≤ length func.old }
    ensures stores { Stores (ctrl_rest kind) keep_lists from.entry result func.old func.new }
    ensures func_len_unchanged { length func.new ≡ length func.old }
{
    match kind {
        Control::Unreachable => forms(func, from),
        Control::Return => forms(func, from),
        Control::Branch => forms(func, from),
        Control::Exit(_) => exit_forms(func, from),
        Control::Select(k) => match k {
            Selection::Bool => forms(func, from),
            Selection::Inst(_) => inst_forms(func, from),
        },
    }
}
