// What the lines of the text are read by, all but `(imported)` and ctrl lines: what they hold is stored in the function slice. A function that reads
// one thing promises `Stores` (specs/Stores.antt): what the grammar's reader finds there, stored by its keeper, is the slice at exit. A
// line's function starts behind the line's head. A loop over lines of one kind promises `Lined` (specs/Lines.antt). The slice that is written and the place
// that is read from are two parameters: a cursor is copied, and a wrong line leaves it where it was.
#![tactic(auto)]

pub mod elements; // elements.rt: lists up to their closing bracket, and with the word before them
pub mod forms; // forms.rt: what ends a line

use func_pools::Pool;

// The elements of a list: numbers that go to a pool, values, inputs or outputs, immediates. An enum and no closure that reads one: what a list of
// these reads and stores is told by the kind, and of a closure `list` would have to ask, for all slices and cursors, what LineKind's loop would.
#[derive(Clone, Copy)]
pub enum Element {
    Number(Pool),
    Value,
    Decl,
    Imm,
}

// The kinds of lines of which there may be any number, in their order. An enum and no closure that reads a line: the loop over lines would have
// to ask of it, for all slices and cursors, that it may be called, what it stores and that it moves on, and still by a kind.
#[derive(Clone, Copy)]
pub enum LineKind {
    Const,
    Param,
    Region,
    Node,
    Op,
}

// Why no line of a kind was read: the next line is of another, or it is of this one and is wrong. No Option, since what follows differs: the lines
// of the kind are over, or the text is refused.
#[derive(Clone, Copy, PartialEq, Eq)]
pub enum NoLine {
    Other,
    Refused,
}

// The opening word of a node's line, as the text has it: it says how the line goes on.
#[derive(Clone, Copy)]
pub enum NodeWord {
    Block,
    Select,
    Loop,
    Exit,
}
