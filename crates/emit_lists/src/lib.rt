// The lists that an instruction is made of, each named by the line that it stands in, so that one loop serves all lists of immediates and one
// all lists of values; and what moves into phis.
#![tactic(auto)]

// A list of values: none; the operands of an op; the inputs of a ctrl line; the values of a node, an exit or a select; a loop's condition
// alone; the outputs of a region. An enum, since contracts name by it the list that is written (`values_of`), first its count and then its
// elements: closures or an iterator would be two values, with a contract for each.
#[derive(Clone, Copy)]
pub enum Values {
    None,
    Operands(usize),
    Ins(usize),
    Node(usize),
    Test(usize),
    Outs(usize),
}

// A list of immediates: none; those of a node, of an op, of a ctrl line; a short one by its operand kind and its word. An enum for the same
// reason (`listed_imms`).
#[derive(Clone, Copy)]
pub enum Imms {
    None,
    Node(usize),
    Op(usize),
    Ctrl(usize),
    Short(u32, u32),
}

// Where the values along the edges of a way out stand: in the entries of a ctrl line, in the outputs of a region, or with the target. An enum,
// since laws say by it what all edges of a way out carry (`Carries`), whichever edge and phi is asked for.
#[derive(Clone, Copy)]
pub enum Carried {
    Entries(usize),
    Outputs(usize),
    Defaults,
}
