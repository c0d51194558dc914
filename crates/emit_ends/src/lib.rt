// How a block begins and ends: its label, its merge, its terminator.
#![tactic(auto)]

ghost use Rattle.std.specs.Prelude.{[], ◌∷◌, ◌++◌, ◌+◌, ◌<◌, get_or, length};
ghost use Rattle.lifting.specs.Points.{region_entry};
ghost use Rattle.lifting.specs.Absorb.{merge_labels};
ghost use Rattle.func.specs.Decode.{func_of};
ghost use Rattle.general_laws.specs.Members.{All};
ghost use Rattle.lifting_runs.specs.Refers.{Named};
ghost use Rattle.walk_points.specs.Numbers.{Small, point_of};
ghost use Rattle.terminators.specs.At.{visited_block};
ghost use Rattle.terminators.specs.Kinds.{Known, merge_of, term_of};
ghost use Rattle.emit_words.specs.Writes.{Writes};
ghost use Rattle.emit_insts.specs.Parts.{items_of_labels, merge_in, start_in, term_in};

use emit_elements::value_count;
use emit_insts::{Emission, label_of, put_front};
use emit_lists::Imms;
use emit_term_parts::{term_attrs, term_imms, term_ins, term_opcode};
use emit_words::Writer;
use opcodes::{InstKind, opcode};
use term_kinds::visits::Visits;
use term_parts::{merge, merge_control, merges, targets};
use terminators::TermKind;

// The operand kinds of the immediates that merges carry.
const SELECTION_CONTROL: u32 = 2;

const LOOP_CONTROL: u32 = 3;

// Appends the label of the point with a number.
pub fn put_label(e: &Emission, out: &mut Writer, q: usize)
    requires q_bound { q < 512 }
    ensures { Writes out.old (start_in (func_of e.now.func.now) e.now.first (point_of q)) out.new }
{
    put_front(
        e.func,
        out,
        opcode(InstKind::Label),
        0,
        0,
        label_of(e.work, q),
        Imms::None,
        0,
    );
}

// Appends merge label k of a way out.
fn put_merge_label(e: &Emission, out: &mut Writer, w: TermKind, k: usize)
    requires known { Known e.now.func.now w × All Small (merge_labels (merge_of w)) }
    requires k_in_bounds { k < length (merge_labels (merge_of w)) }
    ensures { Writes out.old (items_of_labels (func_of e.now.func.now) e.now.first (get_or (merge_labels (merge_of w)) k (region_entry 0) ∷ [])) out.new }
{
    out.put_id(label_of(e.work, merge(e.func, w, k)));
}

// Appends the merge of a way out: a select's has one label, a loop's two.
fn put_merge(e: &Emission, out: &mut Writer, w: TermKind)
    requires known { Known e.now.func.now w × All Small (merge_labels (merge_of w)) }
    ensures { Writes out.old (merge_in (func_of e.now.func.now) e.now.first (merge_of w)) out.new }
{
    let count = merges(w);
    if count == 0 {
        return;
    }
    let u = merge_control(w);
    if count == 1 {
        put_front(
            e.func,
            out,
            opcode(InstKind::SelectionMerge),
            0,
            0,
            0,
            Imms::Short(SELECTION_CONTROL, u),
            1,
        );
        put_merge_label(e, out, w, 0);
        return;
    }
    put_front(
        e.func,
        out,
        opcode(InstKind::LoopMerge),
        0,
        0,
        0,
        Imms::Short(LOOP_CONTROL, u),
        2,
    );
    put_merge_label(e, out, w, 0);
    put_merge_label(e, out, w, 1);
}

// Appends a way out.
fn put_term(e: &Emission, out: &mut Writer, w: TermKind)
    requires count_nonzero { (0 < e.now.count) × Known e.now.func.now w }
    requires all { All Small (term_of (func_of e.now.func.now) w).targets × All (Named (func_of e.now.func.now)) (term_of (func_of e.now.func.now) w).ins }
    ensures { Writes out.old (term_in (func_of e.now.func.now) e.now.first (term_of (func_of e.now.func.now) w)) out.new }
{
    let ins = term_ins(e.func, w);
    let ids = value_count(e.func, ins) + targets(e.func, w);
    put_front(
        e.func,
        out,
        term_opcode(e.func, w),
        term_attrs(e.func, w),
        0,
        0,
        term_imms(e.func, w),
        ids,
    );
    e.put_values(out, ins);
    e.put_targets(out, w);
}

// Appends the merge and the way out of the i-th visited point.
pub fn put_end(e: &Emission, out: &mut Writer, i: usize)
    requires i_lt_count { i < e.now.count }
    ensures { Writes out.old (merge_in (func_of e.now.func.now) e.now.first (visited_block (func_of e.now.func.now) i).term.merge ++ term_in (func_of e.now.func.now) e.now.first (visited_block (func_of e.now.func.now) i).term) out.new }
{
    let visits = Visits {
        func: e.func,
        work: e.work,
        count: e.count,
    };
    let w = visits.term_kind(i);
    put_merge(e, out, w);
    put_term(e, out, w);
}
