// The phis of a visited point, appended one by one: what each sets, and its pairs, a value and a label for each edge into the point. Of all that is emitted
// they alone go by the chains of edges, so that these are a clause here and no part of `Emission`.
#![tactic(auto)]

mod keys;
mod pairs;

ghost use Rattle.std.specs.Prelude.{◌≡◌, ◌*◌, ◌≤◌, ◌<◌, length};
ghost use Rattle.func.specs.Decode.{func_of};
ghost use Rattle.terminators.specs.At.{visited_block, point_at};
ghost use Rattle.emit_words.specs.Writes.{Writes};
ghost use Rattle.emit_edge_ends.specs.Ends.{edges_into};
ghost use Rattle.emit_edge_ends.specs.Links.{Linked};
ghost use Rattle.emit_chains.specs.Edge.{edge_word};
ghost use Rattle.emit_phis.specs.Along.{FirstInto};
ghost use Rattle.emit_phis.specs.Items.{phi_in, phi_items_at};

use crate::keys::phi_value;
use crate::pairs::{first_into, pair_words, put_pairs};
use emit_carried::phi_decl;
use emit_chains::Chains;
use emit_insts::{Emission, put_front};
use emit_lists::Imms;
use emit_words::Writer;
use opcodes::{InstKind, opcode};
use term_kinds::visits::Visits;
use term_labels::phi_count;

// Appends phi j of the i-th visited point, by the first edge into it; its pairs have that many ids.
fn put_phi(e: &Emission, out: &mut Writer, i: usize, j: usize, from: Option<usize>, ids: usize)
    requires linked { Linked (func_of e.now.func.now) e.now.work.now }
    requires i_lt_count { (i < e.now.count) × (j < length (visited_block (func_of e.now.func.now) i).keys) }
    requires first_into { FirstInto (func_of e.now.func.now) e.now.work.now i (edge_word from) }
    requires ids_value { (ids ≡ 2 * length (edges_into (func_of e.now.func.now) (point_at (func_of e.now.func.now) i) 0)) × (ids ≤ 2048) }
    ensures { Writes out.old (phi_in (func_of e.now.func.now) e.now.first i j) out.new }
{
    let visits = Visits {
        func: e.func,
        work: e.work,
        count: e.count,
    };
    let result = e.id_of(phi_value(&visits, i, j));
    let decl = phi_decl(&visits, i, j);
    put_front(
        e.func,
        out,
        opcode(InstKind::Phi),
        decl.attrs,
        decl.ty,
        result,
        Imms::None,
        ids,
    );
    put_pairs(e, out, i, j, from);
}

// Appends the phis of the i-th visited point.
pub fn put_phis(e: &Emission, out: &mut Writer, i: usize)
    requires linked { Linked (func_of e.now.func.now) e.now.work.now }
    requires i_lt_count { i < e.now.count }
    ensures { Writes out.old (phi_items_at (func_of e.now.func.now) e.now.first i) out.new }
{
    let visits = Visits {
        func: e.func,
        work: e.work,
        count: e.count,
    };
    let from = first_into(&visits, i);
    let ids = pair_words(&Chains { work: e.work }, from);
    for j in 0..phi_count(&visits, i) {
        put_phi(e, out, i, j, from, ids);
    }
}
