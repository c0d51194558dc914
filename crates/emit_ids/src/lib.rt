// New ids in the work slice: a table for each kind of name, by the number of its region, node, op or point. They are given one after the other, in
// a pass over the visited points for each kind of name. What is known of the layout is said of the work slice before and after each write (`Laid`); a
// struct that held the slice would have to keep it true at every word.
#![tactic(auto)]

ghost use Rattle.std.specs.Prelude.{◌≡◌, ◌+◌, ◌≤◌, length};
ghost use Rattle.lifting.specs.Limits.{highest_id};
ghost use Rattle.func.specs.Decode.{func_of};
ghost use Rattle.work.specs.Layout.{ids_at, ids_end};
ghost use Rattle.work.specs.Aside.{Aside};
ghost use Rattle.blocks.specs.Laid.{Laid};
ghost use Rattle.emit_names.specs.Ids.{IdsBlank, Ids, next_in};

use emit_id_runs::{label_ids, phi_ids, result_ids};
use emit_names::give;
use func_look::Function;
use work::{IDS, IDS_END, INPUT_IDS, clear};

// The names of a function get new ids from `first` on, in their order, where none has one: the next free id.
fn number_all(func: &Function, work: &mut [u32], m: usize, first: u32) -> u32
    requires laid { Laid func.now work.old m }
    requires ids_blank { IdsBlank work.old }
    requires first_le_highest_id { first ≤ highest_id }
    ensures value { result ≡ next_in (func_of func.now) first }
    ensures ids { Ids (func_of func.now) first work.new }
    ensures aside { Aside ids_at ids_end work.old work.new }
    ensures work_len_unchanged { length work.new ≡ length work.old }
{
    let n = func.param_total();
    let mut k = give(work, INPUT_IDS, first + 1, n);
    'phis: for i in 0..m {
        k = phi_ids(func, work, m, i, k);
    }
    'results: for i in 0..m {
        k = result_ids(func, work, m, i, k);
    }
    'labels: for i in 0..m {
        k = label_ids(func, work, m, i, k);
    }
    k
}

// The names of a function get new ids from `first` on, in their order: the next free id.
pub fn number(func: &Function, work: &mut [u32], m: usize, first: u32) -> u32
    requires laid { Laid func.now work.old m }
    requires first_le_highest_id { first ≤ highest_id }
    ensures value { result ≡ next_in (func_of func.now) first }
    ensures ids { Ids (func_of func.now) first work.new }
    ensures aside { Aside ids_at ids_end work.old work.new }
    ensures work_len_unchanged { length work.new ≡ length work.old }
{
    clear(work, IDS, IDS_END);
    number_all(func, work, m, first)
}
