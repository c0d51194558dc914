// The pairs of a phi: the edges into its point, along their chain.
ghost use Rattle.std.specs.Prelude.{◌≡◌, ◌*◌, ◌≤◌, ◌<◌, length};
ghost use Rattle.func.specs.Decode.{func_of};
ghost use Rattle.general_laws.specs.Members.{In};
ghost use Rattle.lifting_blocks.specs.Flat.{gone};
ghost use Rattle.terminators.specs.At.{visited_block, point_at};
ghost use Rattle.block_absorbs.specs.Absorbs.{stands};
ghost use Rattle.emit_names.specs.Ids.{label_in};
ghost use Rattle.emit_words.specs.Writes.{Writes};
ghost use Rattle.emit_edge_ends.specs.Ends.{edges_into, head_at};
ghost use Rattle.emit_edge_ends.specs.Links.{Linked, chain};
ghost use Rattle.emit_chains.specs.Edge.{edge_word};
ghost use Rattle.emit_phis.specs.Along.{FirstInto};
ghost use Rattle.emit_phis.specs.Items.{pair_in, pairs_in};

use emit_carried::edge_value;
use emit_chains::Chains;
use emit_insts::{Emission, label_of};
use emit_words::Writer;
use term_kinds::visits::Visits;
use work::{POINTS, STATUSES, number};

// The label of the kept block in which the p-th visited point stands.
fn block_label(e: &Emission, p: usize) -> u32
    requires p_lt_count { p < e.now.count }
    requires not_stands { ¬ (stands (func_of e.now.func.now) p ≡ gone) }
    ensures { result ≡ label_in (func_of e.now.func.now) e.now.first (head_at (func_of e.now.func.now) p) }
{
    label_of(e.work, number(e.work, STATUSES, p) - 1)
}

// Appends the pair of the edge of entry k from the p-th visited point to the i-th, for phi j.
fn put_pair(e: &Emission, out: &mut Writer, i: usize, j: usize, p: usize, k: usize)
    requires i_lt_count { (i < e.now.count) × (j < length (visited_block (func_of e.now.func.now) i).keys) }
    requires fact { In (p, k) (edges_into (func_of e.now.func.now) (point_at (func_of e.now.func.now) i) 0) }
    ensures { Writes out.old (pair_in (func_of e.now.func.now) e.now.first i j (p, k)) out.new }
{
    let visits = Visits {
        func: e.func,
        work: e.work,
        count: e.count,
    };
    let value = edge_value(&visits, i, p, k, j);
    out.put_id(e.id_of(value));
    out.put_id(block_label(e, p));
}

// The first edge into the i-th visited point.
pub fn first_into(visits: &Visits, i: usize) -> Option<usize>
    requires linked { Linked (func_of visits.now.func.now) visits.now.work.now }
    requires i_in_bounds { i < visits.now.count }
    ensures { FirstInto (func_of visits.now.func.now) visits.now.work.now i (edge_word result) }
{
    let chains = Chains { work: visits.work };
    chains.first(number(visits.work, POINTS, i))
}

// How many ids the pairs of the edges from a first one on have.
pub fn pair_words(chains: &Chains, from: Option<usize>) -> usize
    requires { edge_word from ≤ 1024 }
    ensures value { result ≡ 2 * length (chain chains.now.work.now (edge_word from)) }
    ensures upper_bound { result ≤ 2048 }
{
    let mut n: usize = 0;
    let mut edge = from;
    while let Some(e) = edge {
        n += 2;
        edge = chains.next(e);
    }
    n
}

// Appends the pairs of phi j of the i-th visited point, for the edges from the first one into it on.
pub fn put_pairs(e: &Emission, out: &mut Writer, i: usize, j: usize, from: Option<usize>)
    requires linked { Linked (func_of e.now.func.now) e.now.work.now }
    requires i_lt_count { (i < e.now.count) × (j < length (visited_block (func_of e.now.func.now) i).keys) }
    requires first_into { FirstInto (func_of e.now.func.now) e.now.work.now i (edge_word from) }
    ensures { Writes out.old (pairs_in (func_of e.now.func.now) e.now.first i j) out.new }
{
    let chains = Chains { work: e.work };
    let mut edge = from;
    while let Some(at) = edge {
        put_pair(e, out, i, j, chains.position(at), chains.entry(at));
        edge = chains.next(at);
    }
}
