// The id of a value, read in the tables of new ids.
#![tactic(auto)]

ghost use Rattle.std.specs.Prelude.{◌≡◌, ◌+◌, ◌≤◌, ◌<◌, length, get_or};
ghost use Rattle.lifting.specs.Limits.{highest_id};
ghost use Rattle.func.specs.Decode.{func_of};
ghost use Rattle.func.specs.Kinds.{as_value};
ghost use Rattle.work.specs.Layout.{ids_end};
ghost use Rattle.emit_names.specs.Ids.{Ids, id_in};
ghost use Rattle.emit_value_ids.specs.Later.{KnownValue, later_id};

use func::Val;
use func_look::Function;
use work::{INPUT_IDS, OUTPUT_IDS, RESULT_IDS};

// The id of the i-th of a run whose first one's id is in word s; 0, which is what the tables hold for none, where that has none.
fn later(work: &[u32], s: usize, i: u32) -> u32
    requires s_in_bounds { s < length work.now }
    requires i_bound { get_or work.now s 0 + i ≤ 4294967295 }
    ensures { result ≡ later_id (get_or work.now s 0) i }
{
    let x = work[s];
    if x == 0 {
        return 0;
    }
    x + i
}

// The id of a value; 0, which is what the list writes for none, where it has none.
pub fn value_id(func: &Function, work: &[u32], first: u32, v: Val) -> u32
    requires known_value { KnownValue func.now (as_value v) }
    requires ids { Ids (func_of func.now) first work.now }
    requires ids_end_in_bounds { (ids_end ≤ length work.now) × (first ≤ highest_id) }
    ensures { result ≡ id_in (func_of func.now) first (as_value v) }
{
    match v {
        Val::Const(n) => func.constant(n as usize).id,
        Val::Input(r, i) => later(work, INPUT_IDS + r as usize, i),
        Val::Output(n, i) => later(work, OUTPUT_IDS + n as usize, i),
        Val::Result(o) => work[RESULT_IDS + o as usize],
    }
}
