// Why a text gets no list: the refusals of documents 01 and 02 by name, the number of each, and the limits that they name.
#![tactic(auto)]

pub mod limits; // limits.rt: the limits, as constants

ghost use Rattle.std.specs.Prelude.{◌≡◌};
ghost use Rattle.refusals.specs.Numbers.{refusal_number};

// Document 01's refusals 1 to 11, and document 02's 13, each by its number there.
#[derive(Clone, Copy, PartialEq, Eq)]
pub enum Refusal {
    // a text over 32,768 bytes
    Long = 1,
    // not of the forms
    Forms = 2,
    // too many parts
    Limits = 3,
    // a reference that names nothing, or an id or an opcode that does not fit
    References = 4,
    // no tree
    Tree = 5,
    // unequal counts
    Counts = 6,
    // ctrl lines
    Control = 7,
    // a scratch slice that is too short
    Scratch = 8,
    // a first id that does not fit, or ids that would be too high
    Ids = 9,
    // a value that nothing sets
    Values = 10,
    // an output slice that is shorter than the list
    Output = 11,
    // a branch by `bool` to one region twice
    Targets = 13,
}

// The number in documents 01 and 02.
impl From<Refusal> for u32 {
    ghost from_gives = { λ r n. n ≡ refusal_number r };

    fn from(r: Refusal) -> u32 {
        r as u32
    }
}
