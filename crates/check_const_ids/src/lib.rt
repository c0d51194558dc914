// What refusal 4 asks of const ids: none repeats.
#![tactic(auto)]

ghost use Rattle.std.specs.Prelude.{◌≡◌, false, ◌+◌, ◌<◌, get_or, drop};
ghost use Rattle.general_laws.specs.Lists.{within};
ghost use Rattle.func.specs.Layout.{consts};
ghost use Rattle.func.specs.Store.{count};
ghost use Rattle.check_const_ids.specs.Test.{const_ids, distinct_test};

use check_limits::Bounded;
use func_pools::{Pool, count};
use func_rows::{Column, row_word};

// The id of constant i is that of a later one too.
fn repeats(func: &Bounded, i: usize) -> bool
    requires { i < count consts func.now.words.now }
    ensures { result ≡ within (get_or (const_ids func.now.words.now) i 0) (drop (i + 1) (const_ids func.now.words.now)) }
{
    let n = count(func.words, Pool::Consts) as usize;
    let x = row_word(func.words, Column::ConstId, i);
    (i + 1..n).any(|j| row_word(func.words, Column::ConstId, j) == x)
}

// The same, by constant i's mark: where that is not set, no later id is the same.
fn met(func: &Bounded, i: usize, marked: bool) -> bool
    requires i_bound { i < count consts func.now.words.now }
    requires func_value { marked ≡ false → within (get_or (const_ids func.now.words.now) i 0) (drop (i + 1) (const_ids func.now.words.now)) ≡ false }
    ensures { result ≡ within (get_or (const_ids func.now.words.now) i 0) (drop (i + 1) (const_ids func.now.words.now)) }
{
    marked && repeats(func, i)
}

// How many marks there are; an id's is that of its remainder. A prime number, so that ids in even steps have marks of their own.
const MARKS: usize = 2039;

// No const id repeats. From the last one back, each id is marked, and only one whose mark was set before is compared with those behind it.
pub fn consts_distinct(func: &Bounded) -> bool
    ensures { result ≡ distinct_test func.now.words.now }
{
    let mut marks = [false; MARKS];
    for i in (0..count(func.words, Pool::Consts) as usize).rev() {
        let k = row_word(func.words, Column::ConstId, i) as usize % MARKS;
        if met(func, i, marks[k]) {
            return false;
        }
        marks[k] = true;
    }
    true
}
