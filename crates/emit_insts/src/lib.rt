// The runs that an instruction is made of: what stands before its ids, values by their ids, labels.
#![tactic(auto)]

mod emission;

ghost use Rattle.std.specs.Prelude.{◌≡◌, ◌+◌, ◌≤◌, ◌<◌, get_or, length};
ghost use Rattle.general_laws.specs.Lists.{gather};
ghost use Rattle.func.specs.Decode.{func_of};
ghost use Rattle.func.specs.Kinds.{as_imm};
ghost use Rattle.work.specs.Layout.{label_ids_at, work_need};
ghost use Rattle.emit_words.specs.Writes.{Writes};
ghost use Rattle.emit_lists.specs.Named.{ImmsFit, listed_imms};
ghost use Rattle.emit_insts.specs.Parts.{front_items, imm_items};

pub use crate::emission::Emission;
use emit_elements::{imm_at, imm_count};
use emit_lists::Imms;
use emit_words::Writer;
use func::Immediate;
use func_look::Function;
use work::{LABEL_IDS, word};

// Appends an immediate.
fn put_imm(out: &mut Writer, m: Immediate)
    ensures { Writes out.old (imm_items (as_imm m)) out.new }
{
    out.put_word(m.kind);
    out.put_word(m.operand);
    out.put_word(m.word);
}

// Appends a list of immediates.
fn put_imms(func: &Function, out: &mut Writer, l: Imms)
    requires imms_fit { ImmsFit (func_of func.now) l }
    ensures { Writes out.old (gather imm_items (listed_imms (func_of func.now) l)) out.new }
{
    for k in 0..imm_count(func, l) {
        put_imm(out, imm_at(func, l, k));
    }
}

// Appends what stands before the ids: opcode, attributes, result type, result, immediates, and the count of ids.
pub fn put_front(
    func: &Function,
    out: &mut Writer,
    opcode: u32,
    attrs: u32,
    ty: u32,
    res: u32,
    imms: Imms,
    ids: usize,
)
    requires imms_fit { ImmsFit (func_of func.now) imms }
    requires ids_bound { ids ≤ 65535 }
    ensures { Writes out.old (front_items opcode attrs ty res (listed_imms (func_of func.now) imms) ids) out.new }
{
    out.put_head(opcode, attrs, ty, res, imm_count(func, imms) as u32);
    put_imms(func, out, imms);
    out.put_word(ids as u32);
}

// The id of the label of a point, by its number.
pub fn label_of(work: &[u32], q: usize) -> u32
    requires { (q < 512) × (work_need ≤ length work.now) }
    ensures { result ≡ get_or work.now (label_ids_at + q) 0 }
{
    word(work, LABEL_IDS, q)
}
