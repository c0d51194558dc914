// What refusal 4 asks of a value: it names something.
#![tactic(auto)]

ghost use Rattle.std.specs.Prelude.{◌≡◌};
ghost use Rattle.func.specs.Kinds.{as_value};
ghost use Rattle.check_values.specs.Test.{named_test};

use check_limits::Bounded;
use func::Val;
use func_pools::{Pool, count};
use func_rows::{Column, RowList, row_count, row_word};

// A value names something: the line that it cites is there, and has that input or output, or a result.
#[tactic(auto, unfolding(crate::specs::Test::named_test))]
pub fn named(func: &Bounded, v: Val) -> bool
    ensures { result ≡ named_test func.now.words.now (as_value v) }
{
    match v {
        Val::Const(n) => n < count(func.words, Pool::Consts),
        Val::Input(r, i) => {
            r < count(func.words, Pool::Regions)
                && (i as usize) < row_count(func.words, RowList::RegionIns, r as usize)
        }
        Val::Output(n, i) => {
            n < count(func.words, Pool::Nodes)
                && (i as usize) < row_count(func.words, RowList::NodeOuts, n as usize)
        }
        Val::Result(o) => {
            o < count(func.words, Pool::Ops) && 0 < row_word(func.words, Column::OpType, o as usize)
        }
    }
}
