// What refusal 4 asks of the entries of a pool, one by one.
#![tactic(auto)]

ghost use Rattle.std.specs.Prelude.{◌≡◌, [], ◌<◌, get_or};
ghost use Rattle.func.specs.Store.{count, view};
ghost use Rattle.func_pools.specs.Pools.{pool_number};
ghost use Rattle.check_rules.specs.Test.{pool_for, rule_test, all_test};

use check_insts::{callee_given, imm_fits, op_inst_fits, opcode_fits};
use check_limits::Bounded;
use check_values::named;
use func_look::{imm, value};
use func_pools::{Pool, count};
use func_rows::{Column, row_op_kind, row_word};
use refusals::limits::{MAX_CONTROL, MAX_OPCODE};

// What refusal 4 asks of one entry of a pool. A name for each rule and no closure: the definitions name the rules one by one, and a contract over
// a closure would have to say beside each call what `rule_test` says here once.
#[derive(Clone, Copy)]
pub enum Rule {
    // a value names something
    Named,
    // an id is not 0
    ConstId,
    ParamType,
    DeclType,
    Callee,
    // a constant's opcode is at most 65,535
    ConstOpcode,
    // an immediate fits
    ImmFits,
    // the control number of a merge is at most 2
    NodeControl,
    // an INST's opcode fits
    NodeInst,
    OpInst,
}

impl Rule {
    // The pool whose entries it is asked of.
    fn pool(self) -> Pool
        ensures { pool_number result ≡ pool_for self }
    {
        match self {
            Rule::Named => Pool::Values,
            Rule::ConstId | Rule::ConstOpcode => Pool::Consts,
            Rule::ParamType => Pool::Params,
            Rule::DeclType => Pool::Decls,
            Rule::Callee | Rule::OpInst => Pool::Ops,
            Rule::ImmFits => Pool::Imms,
            Rule::NodeControl | Rule::NodeInst => Pool::Nodes,
        }
    }
}

// A rule holds of entry i of its pool.
fn holds(func: &Bounded, rule: Rule, i: usize) -> bool
    requires { i < count (pool_for rule) func.now.words.now }
    ensures { result ≡ rule_test func.now.words.now rule (get_or (view (pool_for rule) func.now.words.now) i []) }
{
    match rule {
        Rule::Named => named(func, value(func.words, i)),
        Rule::ConstId => 0 < row_word(func.words, Column::ConstId, i),
        Rule::ParamType => 0 < row_word(func.words, Column::ParamType, i),
        Rule::DeclType => 0 < row_word(func.words, Column::DeclType, i),
        Rule::Callee => callee_given(row_op_kind(func.words, i)),
        Rule::ConstOpcode => row_word(func.words, Column::ConstOpcode, i) <= MAX_OPCODE,
        Rule::ImmFits => imm_fits(imm(func.words, i)),
        Rule::NodeControl => row_word(func.words, Column::NodeControl, i) <= MAX_CONTROL,
        Rule::NodeInst => opcode_fits(row_word(func.words, Column::NodeOpcode, i)),
        Rule::OpInst => op_inst_fits(row_op_kind(func.words, i)),
    }
}

// A rule holds of every entry of its pool.
pub fn all_hold(func: &Bounded, rule: Rule) -> bool
    ensures { result ≡ all_test func.now.words.now rule }
{
    let n = count(func.words, rule.pool()) as usize;
    (0..n).all(|i| holds(func, rule, i))
}
