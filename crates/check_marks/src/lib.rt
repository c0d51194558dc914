// Marks in the work slice: the words that some numbers of the function slice name.
#![tactic(auto)]

ghost use Rattle.std.specs.Prelude.{◌≡◌, ◌+◌, length};
ghost use Rattle.func_pools.specs.Pools.{pool_number};
ghost use Rattle.check_marks.specs.Test.{pool_numbers};
ghost use Rattle.check_marks.specs.Marks.{Run, mark_all};

use func_pools::Pool;
use func_rows::row_ref;

// Each word that one of n numbers of pool k names, from entry `at` on, is v.
pub fn mark_run(func: &[u32], k: Pool, at: usize, n: usize, v: u32, work: &mut [u32])
    requires { Run (pool_number k) func.now at n (length work.old) }
    ensures work_after { work.new ≡ mark_all (pool_numbers (pool_number k) func.now at n) v work.old }
    ensures work_len_unchanged { length work.new ≡ length work.old }
{
    for i in 0..n {
        let x = row_ref(func, k, at + i);
        work[x] = v;
    }
}
