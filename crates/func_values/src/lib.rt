// What reading a value stores.
#![tactic(auto)]

ghost use Rattle.std.specs.Prelude.{◌≡◌, ◌<◌, ◌≤◌, length};
ghost use Rattle.func.specs.Layout.{func_need, values};
ghost use Rattle.func.specs.Store.{push};
ghost use Rattle.func.specs.Keep.{pair_words, keep_value};
ghost use Rattle.func.specs.Kinds.{as_value};

use func::Val;
use func_pools::{Pool, push};

// A value's kind and first number in one word, its second number in the next.
fn keep_pair(func: &mut [u32], kind: u32, a: u32, b: u32)
    requires { (func_need ≤ length func.old) × (kind < 4) }
    ensures func_after { func.new ≡ push values (pair_words kind a b) func.old }
    ensures func_len_unchanged { length func.new ≡ length func.old }
{
    push(func, Pool::Values, &[kind * 65536 + a.min(65535), b]);
}

// A value: constant, input of a region, output of a node, result of an op.
pub fn keep_value(func: &mut [u32], v: Val)
    requires { func_need ≤ length func.old }
    ensures func_after { func.new ≡ keep_value (as_value v) func.old }
    ensures func_len_unchanged { length func.new ≡ length func.old }
{
    match v {
        Val::Const(n) => keep_pair(func, 0, n, 0),
        Val::Input(r, i) => keep_pair(func, 1, r, i),
        Val::Output(n, i) => keep_pair(func, 2, n, i),
        Val::Result(i) => keep_pair(func, 3, i, 0),
    }
}
