// For each point, the edges into it that may carry values into phis: chains in the work slice. A phi has a pair for each kept block with an edge to
// it, in kept-block order, so one pass over all positions, from the last to the first, links them all. The work slice is written, so that the layout
// is said of it before and after (crate emit_ids).
#![tactic(auto)]

ghost use Rattle.std.specs.Prelude.{◌≡◌, ◌+◌, ◌-◌, ◌≤◌, ◌<◌, length};
ghost use Rattle.func.specs.Decode.{func_of};
ghost use Rattle.work.specs.Layout.{heads_at, origins_end};
ghost use Rattle.work.specs.Aside.{Aside};
ghost use Rattle.check_text.specs.Same.{Stands};
ghost use Rattle.terminators.specs.Edges.{term_edges};
ghost use Rattle.terminators.specs.Kinds.{Known, term_of};
ghost use Rattle.blocks.specs.Laid.{Laid};
ghost use Rattle.emit_edge_ends.specs.Aimed.{Aimed};
ghost use Rattle.emit_edge_ends.specs.Ends.{position_edges, edges_from_position, ends_here};
ghost use Rattle.emit_edge_ends.specs.Links.{Linked, LinkedFrom, Unlinked, link_all, link_at, linked, origin_word};

use emit_edge_ends::{edge_count, edge_target};
use func_look::Function;
use term_kinds::visits::Visits;
use terminators::TermKind;
use work::{ABSORBS, HEADS, NEXTS, ORIGINS, STATUSES, clear, word};

// Edge e, to the point q, from position i along entry k, becomes the first of its point.
fn link_edge(work: &mut [u32], q: usize, i: usize, k: usize, e: usize)
    requires { (q < 512) × (i < 512) × (k < 1024) × (e < 1024) × (origins_end ≤ length work.old) }
    ensures work_after { work.new ≡ link_at q (origin_word i k) e work.old }
    ensures work_len_unchanged { length work.new ≡ length work.old }
{
    work[NEXTS + e] = work[HEADS + q];
    work[ORIGINS + e] = (i * 1024 + k) as u32;
    work[HEADS + q] = (e + 1) as u32;
}

// The edges of the way out w of position i are linked, from the last entry to the first, where e edges are: how many are then.
fn link_term(func: &Function, work: &mut [u32], w: TermKind, i: usize, e: usize) -> usize
    requires known { Known func.now w }
    requires aimed { Aimed (func_of func.now) }
    requires i_bound { (i < 512) × (e + length (term_edges (term_of (func_of func.now) w)) ≤ 1024) × (origins_end ≤ length work.old) }
    ensures work_after { work.new ≡ link_all (edges_from_position i (term_edges (term_of (func_of func.now) w))) e work.old }
    ensures value { result ≡ e + length (term_edges (term_of (func_of func.now) w)) }
    ensures work_len_unchanged { length work.new ≡ length work.old }
{
    let mut at = e;
    for k in (0..edge_count(func, w)).rev() {
        link_edge(work, edge_target(func, w, k), i, k, at);
        at += 1;
    }
    at
}

// A kept block ends at position i.
fn block_ends(func: &Function, work: &[u32], m: usize, i: usize) -> bool
    requires laid { Laid func.now work.now m }
    requires i_lt_m { i < m }
    ensures { result ≡ ends_here (func_of func.now) i }
{
    word(work, STATUSES, i) != 0 && word(work, ABSORBS, i) == 0
}

// The edges of position i are linked.
fn link_at(func: &Function, work: &mut [u32], m: usize, i: usize, e: usize) -> usize
    requires laid { Laid func.now work.old m }
    requires aimed { Aimed (func_of func.now) }
    requires i_lt_m { (i < m) × (e + length (position_edges (func_of func.now) i) ≤ 1024) }
    ensures work_after { work.new ≡ link_all (position_edges (func_of func.now) i) e work.old }
    ensures value { result ≡ e + length (position_edges (func_of func.now) i) }
    ensures work_len_unchanged { length work.new ≡ length work.old }
{
    if block_ends(func, work, m, i) {
        let visits = Visits {
            func: &*func,
            work,
            count: m,
        };
        let w = visits.term_kind(i);
        return link_term(func, work, w, i, e);
    }
    e
}

// The edges of all positions are linked, from the last position to the first, where none is.
fn link_all(func: &Function, work: &mut [u32], m: usize)
    requires laid { Laid func.now work.old m }
    requires stands { Stands (func_of func.now) func.now }
    requires unlinked { Unlinked work.old }
    ensures work_after { work.new ≡ linked (func_of func.now) work.old }
    ensures linked { Linked (func_of func.now) work.new }
    ensures laid_2 { Laid func.now work.new m }
    ensures aside { Aside heads_at origins_end work.old work.new }
    ensures work_len_unchanged { length work.new ≡ length work.old }
{
    let mut e = 0;
    for i in (0..m).rev() {
        e = link_at(func, work, m, i, e);
    }
}

// The edges of all positions are linked.
pub fn link(func: &Function, work: &mut [u32], m: usize)
    requires laid { Laid func.now work.old m }
    requires stands { Stands (func_of func.now) func.now }
    ensures linked_from { LinkedFrom (func_of func.now) work.old work.new }
    ensures linked { Linked (func_of func.now) work.new }
    ensures laid_2 { Laid func.now work.new m }
    ensures aside { Aside heads_at origins_end work.old work.new }
    ensures work_len_unchanged { length work.new ≡ length work.old }
{
    clear(work, HEADS, ORIGINS);
    link_all(func, work, m);
}
