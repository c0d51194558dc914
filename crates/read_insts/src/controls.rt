// K of a select and K of a ctrl.
ghost use Rattle.std.specs.Prelude.{◌≡◌};
ghost use Rattle.read_cursor.specs.Answers.{ReadsOn};
ghost use Rattle.read_insts.specs.Heads.{selection_head, control_head};
ghost use Rattle.read_insts.specs.Kinds.{kind_of};

use crate::ops::inst;
use crate::{Control, Selection};
use func::CtrlKind;
use read_cursor::Cursor;

// K of a select: ` bool`, or an INST up to its opcode.
#[tactic(auto, using(read_cursor::specs::Chains::choices), unfolding(crate::specs::Heads::selection_head, crate::specs::Heads::selection_head_form, lifting::specs::Grammar::keyword))]
pub fn selection(from: Cursor<'_>) -> Option<(Selection, Cursor<'_>)>
    ensures { ReadsOn selection_head.read from.entry result }
{
    if let Some(c) = from.word(b" bool") {
        return Some((Selection::Bool, c));
    }
    let (n, c) = inst(from)?;
    Some((Selection::Inst(n), c))
}

// K of a ctrl, an INST up to its opcode.
#[tactic(auto, using(read_cursor::specs::Chains::choices), unfolding(crate::specs::Heads::control_head, crate::specs::Heads::control_head_form, crate::specs::Heads::plain_head, crate::specs::Heads::words, lifting::specs::Grammar::keyword))]
pub fn control(from: Cursor<'_>) -> Option<(Control, Cursor<'_>)>
    ensures { ReadsOn control_head.read from.entry result }
{
    if let Some(c) = from.word(b" unreachable") {
        return Some((Control::Unreachable, c));
    }
    if let Some(c) = from.word(b" return") {
        return Some((Control::Return, c));
    }
    if let Some(c) = from.word(b" branch") {
        return Some((Control::Branch, c));
    }
    if let Some((n, c)) = from.word(b" (exit").and_then(inst) {
        return Some((Control::Exit(n), c));
    }
    let (k, c) = selection(from)?;
    Some((Control::Select(k), c))
}

// K as the function slice has it.
impl From<Control> for CtrlKind {
    fn from(control: Control) -> Self
        ensures { result ≡ kind_of control }
    {
        match control {
            Control::Unreachable => CtrlKind::Unreachable,
            Control::Return => CtrlKind::Return,
            Control::Branch => CtrlKind::Branch,
            Control::Exit(_) => CtrlKind::Exit,
            Control::Select(k) => match k {
                Selection::Bool => CtrlKind::Bool,
                Selection::Inst(_) => CtrlKind::Inst,
            },
        }
    }
}
