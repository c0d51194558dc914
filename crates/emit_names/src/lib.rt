// The names that get new ids: giving a run of them its ids, and what of a text has some.
#![tactic(auto)]

ghost use Rattle.std.specs.Prelude.{◌≡◌, ◌+◌, ◌≤◌, ◌<◌, ltb, length, get_or};
ghost use Rattle.lifting.specs.Parts.{children_of, node_of, op_of};
ghost use Rattle.func.specs.Decode.{func_of};
ghost use Rattle.emit_names.specs.Numbered.{run_words};

use func_look::Function;

// A run of n names gets the ids from k on, the first one's in word s: the next id.
pub fn give(work: &mut [u32], s: usize, k: u32, n: usize) -> u32
    requires { (s < length work.old) × (k + n ≤ 4294967295) }
    ensures value { result ≡ k + n }
    ensures work_after { work.new ≡ run_words work.old s k n }
{
    if n == 0 {
        return k;
    }
    work[s] = k;
    k + (n as u32)
}

// The first region of node n, which is a loop's body; 0 where it has none, and no Option, since the word of its ids goes by that number (`key_word`).
pub fn first_child(func: &Function, n: usize) -> usize
    requires n_in_bounds { n < length (func_of func.now).nodes }
    ensures { result ≡ get_or (children_of (node_of (func_of func.now) n)) 0 0 }
{
    if func.node_child_count(n) == 0 {
        return 0;
    }
    func.node_child(n, 0)
}

// Op o has a result. A number that names no op has none.
pub fn has_result(func: &Function, o: usize) -> bool
    ensures { result ≡ ltb 0 (op_of (func_of func.now) o).type }
{
    o < func.op_total() && 0 < func.op_slot(o).ty
}
