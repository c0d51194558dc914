// Refusal 9, but for the ids that would be given: the first id is not 0, and is above every id in the text.
#![tactic(auto)]

ghost use Rattle.std.specs.Prelude.{◌≡◌, ◌&&◌, ◌<◌, ltb, length};
ghost use Rattle.general_laws.specs.Lists.{every};
ghost use Rattle.lifting.specs.Parts.{region_of, node_of, outs_of, ids};
ghost use Rattle.func.specs.Decode.{func_of};
ghost use Rattle.check_first.specs.Lines.{types_below, kind_below, head_below, consts_below, params_below, regions_below, nodes_below, ops_below};

use func::OpKind;
use func_look::Function;

// The types of region r's inputs are below the first id.
fn ins_below(func: &Function, r: usize, first: u32) -> bool
    requires { (r < length (func_of func.now).regions) }
    ensures { result ≡ types_below first (region_of (func_of func.now) r).ins }
{
    let n = func.region_in_count(r);
    (0..n).all(|i| func.region_in(r, i).ty < first)
}

// The types of node n's outs are.
fn outs_below(func: &Function, n: usize, first: u32) -> bool
    requires { (n < length (func_of func.now).nodes) }
    ensures { result ≡ types_below first (outs_of (node_of (func_of func.now) n)) }
{
    let k = func.node_out_count(n);
    (0..k).all(|i| func.node_out(n, i).ty < first)
}

// A callee, or an instruction set, is below the first id.
fn callee_below(kind: OpKind, first: u32) -> bool
    ensures { result ≡ kind_below first kind }
{
    match kind {
        OpKind::Inst(_) => true,
        OpKind::Call(f) => f < first,
        OpKind::Ext(s, _) => s < first,
    }
}

// The ids of each kind of line are below the first id. One function for each: a shared one would take the list's length and its test, as `all` does.
fn consts_below(func: &Function, first: u32) -> bool
    ensures { result ≡ consts_below (func_of func.now) first }
{
    let n = func.const_total();
    (0..n).all(|i| func.constant(i).id < first)
}

fn params_below(func: &Function, first: u32) -> bool
    ensures { result ≡ params_below (func_of func.now) first }
{
    let n = func.param_total();
    (0..n).all(|i| func.param(i).ty < first)
}

fn regions_below(func: &Function, first: u32) -> bool
    ensures { result ≡ regions_below (func_of func.now) first }
{
    let n = func.region_total();
    (0..n).all(|r| ins_below(func, r, first))
}

fn nodes_below(func: &Function, first: u32) -> bool
    ensures { result ≡ nodes_below (func_of func.now) first }
{
    let n = func.node_total();
    (0..n).all(|k| outs_below(func, k, first))
}

fn ops_below(func: &Function, first: u32) -> bool
    ensures { result ≡ ops_below (func_of func.now) first }
{
    let n = func.op_total();
    (0..n).all(|o| callee_below(func.op_kind(o), first) && func.op_slot(o).ty < first)
}

// The first id is above the ids of the func line, and above 0.
fn head_below(func: &Function, first: u32) -> bool
    ensures { result ≡ head_below (func_of func.now) first }
{
    let head = func.head();
    0 < first && head.ret < first && head.ty < first
}

// The first id is not 0, and is above every id in the text.
pub fn first_fits(func: &Function, first: u32) -> bool
    ensures { result ≡ (ltb 0 first && every (λ x. ltb x first) (ids (func_of func.now))) }
{
    head_below(func, first)
        && consts_below(func, first)
        && params_below(func, first)
        && regions_below(func, first)
        && nodes_below(func, first)
        && ops_below(func, first)
}
