// Reading along the chains of edges into a point: the first edge, the next one, and where an edge comes from.
#![tactic(auto)]

ghost use Rattle.std.specs.Prelude.{◌≡◌, ◌∷◌, ◌+◌, ◌≤◌, ◌<◌, get_or};
ghost use Rattle.work.specs.Layout.{heads_at};
ghost use Rattle.emit_edge_ends.specs.Links.{Chained, chain, next_at, origin_at};
ghost use Rattle.emit_chains.specs.Edge.{edge_word};

use work::{HEADS, NEXTS, ORIGINS};

// The edge that a word stands for.
fn edge_of(x: u32) -> Option<usize>
    ensures { edge_word result ≡ x }
{
    (x as usize).checked_sub(1)
}

// The work slice, once the edges into each point are linked.
#[derive(Clone, Copy)]
pub struct Chains<'a> {
    pub work: &'a [u32],
    ghost chained: { Chained work.now },
}

impl Chains<'_> {
    // The first edge into the point q.
    pub fn first(&self, q: usize) -> Option<usize>
        requires { q < 512 }
        ensures value { edge_word result ≡ get_or self.now.work.now (heads_at + q) 0 }
        ensures upper_bound { edge_word result ≤ 1024 }
    {
        edge_of(self.work[HEADS + q])
    }

    // The edge after edge e into the same point.
    pub fn next(&self, e: usize) -> Option<usize>
        requires { e < 1024 }
        ensures value { edge_word result ≡ next_at self.now.work.now e }
        ensures e_value { chain self.now.work.now (e + 1) ≡ origin_at self.now.work.now e ∷ chain self.now.work.now (edge_word result) }
        ensures upper_bound { edge_word result ≤ e }
    {
        edge_of(self.work[NEXTS + e])
    }

    // The position of the block that edge e comes from.
    pub fn position(&self, e: usize) -> usize
        requires { e < 1024 }
        ensures { result ≡ (origin_at self.now.work.now e).0 }
    {
        self.work[ORIGINS + e] as usize / 1024
    }

    // The number of its entry.
    pub fn entry(&self, e: usize) -> usize
        requires { e < 1024 }
        ensures { result ≡ (origin_at self.now.work.now e).1 }
    {
        self.work[ORIGINS + e] as usize % 1024
    }
}
