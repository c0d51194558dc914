// The way out of a visited point. It is not stored: the function slice, the point's number, the parent of its region and the next visited point
// say it whole.
#![tactic(auto)]

pub mod numbers;

// A point: the entry or exit of a region or of a node.
#[derive(Clone, Copy)]
pub enum Point {
    RegionEntry(usize),
    RegionExit(usize),
    NodeEntry(usize),
    NodeExit(usize),
}

// A way out: straight to a point by its number; a return from a root that has no ctrl line; a ctrl line; from node n, an exit or a select;
// from loop n into its body; from region r of node n, past a select, back to a loop's start, or back or out. A select and a loop have the control
// number of their merge.
#[derive(Clone, Copy)]
pub enum TermKind {
    Straight(usize),
    Return(usize),
    Line(usize),
    Leave(usize),
    Select(usize, u32),
    Loop(usize, usize, u32),
    Join(usize, usize),
    Repeat(usize, usize),
    Test(usize, usize),
}
