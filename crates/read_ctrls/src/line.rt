// A ctrl line, and all of them.
ghost use Rattle.std.specs.Prelude.{◌≡◌, true, ◌&&◌, ◌+◌, ◌≤◌, ◌<◌, length};
ghost use Rattle.lifting.specs.Limits.{max_bytes};
ghost use Rattle.func.specs.Layout.{func_need};
ghost use Rattle.read_cursor.specs.Answers.{ReadsOn};
ghost use Rattle.read_insts.specs.Kinds.{kind_of};
ghost use Rattle.func.specs.Kinds.{ctrl_kind_number};
ghost use Rattle.func.specs.Rows.{ctrl_row_from};
ghost use Rattle.work.specs.Layout.{work_need};
ghost use Rattle.check_edges.specs.Edges.{targets_fit};
ghost use Rattle.read_ctrls.specs.Judge.{keep_judged};
ghost use Rattle.read_ctrls.specs.Tails.{ctrl_head, ctrl_tail};
ghost use Rattle.read_ctrls.specs.Answers.{StoresWith, state_at};
ghost use Rattle.check_ctrls.specs.Judged.{opcode_in, judged_with};
ghost use Rattle.read_ctrls.specs.Whole.{LinesAre, CtrlsAre};

use crate::entries::edges;
use crate::kinds::lists;
use crate::{CtrlHead, CtrlsFit};
use check_ctrls::{Judged, judge, opcode_in};
use check_edges::targets_fit;
use func::{CtrlKind, Marks};
use read_cursor::Cursor;
use read_fields::pair;
use read_insts::controls::control;

// `(ctrl R A K`, an INST up to its opcode.
fn head(from: Cursor<'_>) -> Option<(CtrlHead, Cursor<'_>)>
    ensures { ReadsOn ctrl_head.read from.entry result }
{
    let ((region, attrs), c) = pair(from.word(b"(ctrl")?)?;
    let (kind, d) = control(c)?;
    Some((
        CtrlHead {
            region,
            attrs,
            kind,
        },
        d,
    ))
}

// A line whose lists began at `start` and ended at `end`, and whose entries fit or not: its row, and the judgement.
fn line_end(
    func: &mut [u32],
    work: &[u32],
    start: Marks,
    end: Marks,
    head: CtrlHead,
    seen: Judged,
    fit: bool,
) -> Judged
    requires { (func_need ≤ length func.old) × (work_need ≤ length work.now) × (seen.line < max_bytes) }
    ensures value { result ≡ judged_with seen head.kind (fit && targets_fit func.old work.now (seen.line + 1) start.targets) }
    ensures func_after { func.new ≡ ctrl_row_from start end head.region head.attrs (ctrl_kind_number (kind_of head.kind)) (opcode_in head.kind) func.old }
    ensures func_len_unchanged { length func.new ≡ length func.old }
{
    let region = head.region;
    let attrs = head.attrs;
    let kind = head.kind;
    let to = targets_fit(func, work, seen.line + 1, start.targets);
    func_store::ctrl_row(
        func,
        start,
        end,
        region,
        attrs,
        CtrlKind::from(kind),
        opcode_in(kind),
    );
    judge(seen, kind, fit && to)
}

// A line, behind its head.
fn ctrl_line<'a>(
    func: &mut [u32],
    work: &mut [u32],
    head: CtrlHead,
    seen: Judged,
    from: Cursor<'a>,
) -> Option<(Judged, Cursor<'a>)>
    requires { (func_need ≤ length func.old) × (work_need ≤ length work.old) × (seen.line < max_bytes) }
    ensures stores { StoresWith (ctrl_tail head) keep_judged from.entry result (state_at func.old work.old seen) (state_at func.new work.new) }
    ensures func_len_unchanged { length func.new ≡ length func.old }
    ensures work_len_unchanged { length work.new ≡ length work.old }
{
    let kind = head.kind;
    let start = func_store::begin(func);
    let c = lists(func, kind, from)?;
    let end = func_store::begin(func);
    let (fit, d) = edges(func, work, seen.line + 1, c)?;
    Some((line_end(func, work, start, end, head, seen, fit), d))
}

// Lines, up to the first that is none.
fn lines<'a>(func: &mut [u32], work: &mut [u32], from: Cursor<'a>) -> Option<(Judged, Cursor<'a>)>
    requires { (func_need ≤ length func.old) × (work_need ≤ length work.old) × (from.at ≤ length from.text.now) × (length from.text.now ≤ max_bytes) }
    ensures lines_are { LinesAre result from.entry func.old work.old func.new work.new }
    ensures func_len_unchanged { length func.new ≡ length func.old }
    ensures work_len_unchanged { length work.new ≡ length work.old }
{
    let mut c = from;
    let mut seen = Judged {
        line: 0,
        opcodes: true,
        edges: true,
    };
    loop {
        let Some((h, d)) = head(c) else {
            return Some((seen, c));
        };
        let (j, e) = ctrl_line(func, work, h, seen, d)?;
        seen = j;
        c = e;
    }
}

// All lines, up to the end of the text.
pub fn ctrl_lines(func: &mut [u32], work: &mut [u32], from: Cursor<'_>) -> Option<CtrlsFit>
    requires { (func_need ≤ length func.old) × (work_need ≤ length work.old) × (from.at ≤ length from.text.now) × (length from.text.now ≤ max_bytes) }
    ensures ctrls_are { CtrlsAre result from.entry.text.now from.entry.at func.old work.old func.new }
    ensures func_len_unchanged { length func.new ≡ length func.old }
    ensures work_len_unchanged { length work.new ≡ length work.old }
{
    let (j, c) = lines(func, work, from)?;
    if !c.end() {
        return None;
    }
    Some(CtrlsFit {
        opcodes: j.opcodes,
        edges: j.edges,
    })
}
