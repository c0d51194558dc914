// What refusals 4 and 6 ask of ctrl lines, line by line.
#![tactic(auto)]

ghost use Rattle.std.specs.Prelude.{◌≡◌, ◌<◌};
ghost use Rattle.lifting.specs.Limits.{max_bytes};
ghost use Rattle.check_ctrls.specs.Judged.{opcode_in, judged_with};

use check_insts::opcode_fits;
use read_insts::{Control, Selection};

// The lines so far: how many, and whether the opcodes of their INSTs and their edges fit.
#[derive(Clone, Copy)]
pub struct Judged {
    pub line: u32,
    pub opcodes: bool,
    pub edges: bool,
}

// K's opcode as its row has it: 0 stands there without an INST, and fits.
pub fn opcode_in(kind: Control) -> u32
    ensures { result ≡ opcode_in kind }
{
    match kind {
        Control::Unreachable => 0,
        Control::Return => 0,
        Control::Branch => 0,
        Control::Exit(n) => n,
        Control::Select(k) => match k {
            Selection::Bool => 0,
            Selection::Inst(n) => n,
        },
    }
}

// One more line, whose edges fit or not.
pub fn judge(seen: Judged, kind: Control, edges: bool) -> Judged
    requires { seen.line < max_bytes }
    ensures { result ≡ judged_with seen kind edges }
{
    let fits = opcode_fits(opcode_in(kind));
    Judged {
        line: seen.line + 1,
        opcodes: seen.opcodes && fits,
        edges: seen.edges && edges,
    }
}
