// The function that stands in the slice, field by field, and the pools of parts, entry by entry.
#![tactic(auto)]

ghost use Rattle.std.specs.Prelude.{◌≡◌, List, [], ℕ, ◌<◌, length, get_or};
ghost use Rattle.func.specs.Layout.{decls, values, imms};
ghost use Rattle.func.specs.Store.{view};
ghost use Rattle.func_pools.specs.Pools.{pool_number};
ghost use Rattle.func.specs.Keep.{inst_imms, inst_opcode};
ghost use Rattle.lifting.specs.Ast.{const};
ghost use Rattle.lifting.specs.Parts.{const_of, region_of, node_of, op_of, node_values, node_insts, block_ops, children_of, outs_of, node_control, op_insts, ctrl_insts};
ghost use Rattle.lifting.specs.Parts.{values as all_values};
ghost use Rattle.func.specs.Decode.{decode_number, decode_decl, decode_imm, value_of, func_of};
ghost use Rattle.func.specs.Tables.{Tables, Within, param_of, ctrl_line_of, entry_of};
ghost use Rattle.func.specs.Kinds.{decl_of_slot, as_imm, node_kind, kind_of_op, ctrl_kind, decl_from, imm_from, as_value};

use func::{CtrlKind, Immediate, NodeKind, OpKind, Slot, Val};
use func_pools::{Pool, count, run_at, run_count, word};
use std::marker::Model;

// Value i of the pool.
pub fn value(func: &[u32], i: usize) -> Val
    requires { Within values func.now i }
    ensures { as_value result ≡ value_of (get_or (view values func.now) i []) }
{
    let x = word(func, Pool::Values, i, 0);
    let b = word(func, Pool::Values, i, 1);
    Val::from_words(x / 65536, x % 65536, b)
}

// Input or output i of the pool.
pub fn decl(func: &[u32], i: usize) -> Slot
    requires { Within decls func.now i }
    ensures { decl_of_slot result ≡ decode_decl (get_or (view decls func.now) i []) }
{
    Slot {
        attrs: word(func, Pool::Decls, i, 0),
        ty: word(func, Pool::Decls, i, 1),
    }
}

// Immediate i of the pool.
pub fn imm(func: &[u32], i: usize) -> Immediate
    requires { Within imms func.now i }
    ensures { as_imm result ≡ decode_imm (get_or (view imms func.now) i []) }
{
    Immediate {
        kind: word(func, Pool::Imms, i, 0),
        operand: word(func, Pool::Imms, i, 1),
        word: word(func, Pool::Imms, i, 2),
    }
}

// Number i of a pool of numbers: of ctrl targets, nodes, ops or child regions.
pub fn reference(func: &[u32], pool: Pool, i: usize) -> usize
    requires { Within (pool_number pool) func.now i }
    ensures { result ≡ decode_number (get_or (view (pool_number pool) func.now) i []) }
{
    word(func, pool, i, 0) as usize
}

// The func line: attributes, return type id, function type id and control word.
#[derive(Clone, Copy)]
pub struct Head {
    pub attrs: u32,
    pub ret: u32,
    pub ty: u32,
    pub control: u32,
}

// A constant: its id and the opcode that defines it, 0 if it is no instruction, as the text's line has it.
#[derive(Clone, Copy)]
pub struct Constant {
    pub id: u32,
    pub opcode: u32,
}

// A function that stands whole in a slice's words. It shows itself to clauses as the list of these words.
#[derive(Drop)]
pub struct Function<'a> {
    words: &'a [u32],
}

impl<'a> Model for Function<'a> {
    ghost Value = { List ℕ };

    ghost view = { λ f. f.words.now };

    ghost invariant = { λ f. Tables f.words.now };
}

// Each accessor is named for what it promises, a part of the text. What they share is `word`, `run_count` and `run_at`; one accessor for several
// parts would take the part by a number and promise it by a case of that. That an index names a line stays a clause: it is of an index and a function,
// and a type for the index would have to hold the function too.
impl<'a> Function<'a> {
    pub fn new(words: &'a [u32]) -> Self
        requires { Tables words.now }
        ensures { result ≡ words.now }
    {
        Function { words }
    }

    // The words themselves, which the tests of any text read too.
    pub fn words(&self) -> &[u32]
        ensures { result.now ≡ self.now }
    {
        self.words
    }

    // What every function is known by; a proof that needs it says so by this call.
    pub fn known(&self)
        ensures { Tables self.now }
    {
        let _words = self.words;
    }

    // The func line.
    pub fn head(&self) -> Head
        ensures attrs { result.attrs ≡ (func_of self.now).attrs }
        ensures ret { result.ret ≡ (func_of self.now).ret }
        ensures ty { result.ty ≡ (func_of self.now).type }
        ensures control { result.control ≡ (func_of self.now).control }
    {
        Head {
            attrs: self.words[0],
            ret: self.words[1],
            ty: self.words[2],
            control: self.words[3],
        }
    }

    // Constant i.
    pub fn constant(&self, i: usize) -> Constant
        requires { i < length (func_of self.now).consts }
        ensures id { result.id ≡ (const_of (func_of self.now) i).id }
        ensures opcode { result.opcode ≡ (const_of (func_of self.now) i).opcode }
    {
        Constant {
            id: word(self.words, Pool::Consts, i, 0),
            opcode: word(self.words, Pool::Consts, i, 1),
        }
    }

    // Parameter i.
    pub fn param(&self, i: usize) -> Slot
        requires { i < length (func_of self.now).params }
        ensures { decl_of_slot result ≡ param_of (func_of self.now) i }
    {
        Slot {
            attrs: word(self.words, Pool::Params, i, 0),
            ty: word(self.words, Pool::Params, i, 1),
        }
    }

    // Op o's attributes and the type id of its result, 0 without one, as the list writes it.
    pub fn op_slot(&self, o: usize) -> Slot
        requires { o < length (func_of self.now).ops }
        ensures attrs { result.attrs ≡ (op_of (func_of self.now) o).attrs }
        ensures ty { result.ty ≡ (op_of (func_of self.now) o).type }
    {
        Slot {
            attrs: word(self.words, Pool::Ops, o, 0),
            ty: word(self.words, Pool::Ops, o, 1),
        }
    }

    // How many values the function's lines name.
    pub fn value_total(&self) -> usize
        ensures { result ≡ length (all_values (func_of self.now)) }
    {
        count(self.words, Pool::Values) as usize
    }

    // Value i of them all.
    pub fn value_at(&self, i: usize) -> Val
        requires { i < length (all_values (func_of self.now)) }
        ensures { as_value result ≡ get_or (all_values (func_of self.now)) i (const 0) }
    {
        value(self.words, i)
    }

    // How many constants there are.
    pub fn const_total(&self) -> usize
        ensures { result ≡ length (func_of self.now).consts }
    {
        count(self.words, Pool::Consts) as usize
    }

    // How many parameters there are.
    pub fn param_total(&self) -> usize
        ensures { result ≡ length (func_of self.now).params }
    {
        count(self.words, Pool::Params) as usize
    }

    // How many regions there are.
    pub fn region_total(&self) -> usize
        ensures { result ≡ length (func_of self.now).regions }
    {
        count(self.words, Pool::Regions) as usize
    }

    // How many nodes there are.
    pub fn node_total(&self) -> usize
        ensures { result ≡ length (func_of self.now).nodes }
    {
        count(self.words, Pool::Nodes) as usize
    }

    // How many ops there are.
    pub fn op_total(&self) -> usize
        ensures { result ≡ length (func_of self.now).ops }
    {
        count(self.words, Pool::Ops) as usize
    }

    // How many ctrl lines there are.
    pub fn ctrl_total(&self) -> usize
        ensures { result ≡ length (func_of self.now).ctrls }
    {
        count(self.words, Pool::Ctrls) as usize
    }

    // How many inputs region r has.
    pub fn region_in_count(&self, r: usize) -> usize
        requires r_in_bounds { r < length (func_of self.now).regions }
        ensures { result ≡ length (region_of (func_of self.now) r).ins }
    {
        run_count(self.words, Pool::Regions, r, 0)
    }

    // Input i of region r.
    pub fn region_in(&self, r: usize, i: usize) -> Slot
        requires r_in_bounds { r < length (func_of self.now).regions }
        requires i_in_bounds { i < length (region_of (func_of self.now) r).ins }
        ensures { decl_of_slot result ≡ get_or (region_of (func_of self.now) r).ins i (decl_from 0 0) }
    {
        decl(self.words, run_at(self.words, Pool::Regions, r, 0, i))
    }

    // How many nodes region r has.
    pub fn region_node_count(&self, r: usize) -> usize
        requires r_in_bounds { r < length (func_of self.now).regions }
        ensures { result ≡ length (region_of (func_of self.now) r).nodes }
    {
        run_count(self.words, Pool::Regions, r, 1)
    }

    // Node i of region r.
    pub fn region_node(&self, r: usize, i: usize) -> usize
        requires r_in_bounds { r < length (func_of self.now).regions }
        requires i_in_bounds { i < length (region_of (func_of self.now) r).nodes }
        ensures { result ≡ get_or (region_of (func_of self.now) r).nodes i 0 }
    {
        reference(
            self.words,
            Pool::NodeRefs,
            run_at(self.words, Pool::Regions, r, 1, i),
        )
    }

    // How many outputs region r has.
    pub fn region_out_count(&self, r: usize) -> usize
        requires r_in_bounds { r < length (func_of self.now).regions }
        ensures { result ≡ length (region_of (func_of self.now) r).outs }
    {
        run_count(self.words, Pool::Regions, r, 2)
    }

    // Output i of region r.
    pub fn region_out(&self, r: usize, i: usize) -> Val
        requires r_in_bounds { r < length (func_of self.now).regions }
        requires i_in_bounds { i < length (region_of (func_of self.now) r).outs }
        ensures { as_value result ≡ get_or (region_of (func_of self.now) r).outs i (const 0) }
    {
        value(self.words, run_at(self.words, Pool::Regions, r, 2, i))
    }

    // The kind of node n.
    pub fn node_kind(&self, n: usize) -> NodeKind
        requires n_in_bounds { n < length (func_of self.now).nodes }
        ensures { result ≡ node_kind (node_of (func_of self.now) n) }
    {
        NodeKind::from(word(self.words, Pool::Nodes, n, 0))
    }

    // The opcode of node n's INST.
    pub fn node_opcode(&self, n: usize) -> u32
        requires n_in_bounds { n < length (func_of self.now).nodes }
        ensures { result ≡ inst_opcode (node_insts (node_of (func_of self.now) n)) }
    {
        word(self.words, Pool::Nodes, n, 1)
    }

    // The control number of node n's merge, 0 without one: the text's own number for none.
    pub fn node_control(&self, n: usize) -> u32
        requires n_in_bounds { n < length (func_of self.now).nodes }
        ensures { result ≡ node_control (node_of (func_of self.now) n) }
    {
        word(self.words, Pool::Nodes, n, 7)
    }

    // How many immediates node n has.
    pub fn node_imm_count(&self, n: usize) -> usize
        requires n_in_bounds { n < length (func_of self.now).nodes }
        ensures { result ≡ length (inst_imms (node_insts (node_of (func_of self.now) n))) }
    {
        run_count(self.words, Pool::Nodes, n, 2)
    }

    // Immediate i of node n.
    pub fn node_imm(&self, n: usize, i: usize) -> Immediate
        requires n_in_bounds { n < length (func_of self.now).nodes }
        requires i_in_bounds { i < length (inst_imms (node_insts (node_of (func_of self.now) n))) }
        ensures { as_imm result ≡ get_or (inst_imms (node_insts (node_of (func_of self.now) n))) i (imm_from 0 0 0) }
    {
        imm(self.words, run_at(self.words, Pool::Nodes, n, 2, i))
    }

    // How many values node n has.
    pub fn node_value_count(&self, n: usize) -> usize
        requires n_in_bounds { n < length (func_of self.now).nodes }
        ensures { result ≡ length (node_values (node_of (func_of self.now) n)) }
    {
        run_count(self.words, Pool::Nodes, n, 3)
    }

    // Value i of node n.
    pub fn node_value(&self, n: usize, i: usize) -> Val
        requires n_in_bounds { n < length (func_of self.now).nodes }
        requires i_in_bounds { i < length (node_values (node_of (func_of self.now) n)) }
        ensures { as_value result ≡ get_or (node_values (node_of (func_of self.now) n)) i (const 0) }
    {
        value(self.words, run_at(self.words, Pool::Nodes, n, 3, i))
    }

    // How many ops node n has.
    pub fn node_op_count(&self, n: usize) -> usize
        requires n_in_bounds { n < length (func_of self.now).nodes }
        ensures { result ≡ length (block_ops (node_of (func_of self.now) n)) }
    {
        run_count(self.words, Pool::Nodes, n, 4)
    }

    // Op i of node n.
    pub fn node_op(&self, n: usize, i: usize) -> usize
        requires n_in_bounds { n < length (func_of self.now).nodes }
        requires i_in_bounds { i < length (block_ops (node_of (func_of self.now) n)) }
        ensures { result ≡ get_or (block_ops (node_of (func_of self.now) n)) i 0 }
    {
        reference(
            self.words,
            Pool::OpRefs,
            run_at(self.words, Pool::Nodes, n, 4, i),
        )
    }

    // How many child regions node n has.
    pub fn node_child_count(&self, n: usize) -> usize
        requires n_in_bounds { n < length (func_of self.now).nodes }
        ensures { result ≡ length (children_of (node_of (func_of self.now) n)) }
    {
        run_count(self.words, Pool::Nodes, n, 5)
    }

    // Child region i of node n.
    pub fn node_child(&self, n: usize, i: usize) -> usize
        requires n_in_bounds { n < length (func_of self.now).nodes }
        requires i_in_bounds { i < length (children_of (node_of (func_of self.now) n)) }
        ensures { result ≡ get_or (children_of (node_of (func_of self.now) n)) i 0 }
    {
        reference(
            self.words,
            Pool::ChildRefs,
            run_at(self.words, Pool::Nodes, n, 5, i),
        )
    }

    // How many outputs node n has.
    pub fn node_out_count(&self, n: usize) -> usize
        requires n_in_bounds { n < length (func_of self.now).nodes }
        ensures { result ≡ length (outs_of (node_of (func_of self.now) n)) }
    {
        run_count(self.words, Pool::Nodes, n, 6)
    }

    // Output i of node n.
    pub fn node_out(&self, n: usize, i: usize) -> Slot
        requires n_in_bounds { n < length (func_of self.now).nodes }
        requires i_in_bounds { i < length (outs_of (node_of (func_of self.now) n)) }
        ensures { decl_of_slot result ≡ get_or (outs_of (node_of (func_of self.now) n)) i (decl_from 0 0) }
    {
        decl(self.words, run_at(self.words, Pool::Nodes, n, 6, i))
    }

    // The kind of op o, with its opcode, its ID, or its ID and N.
    pub fn op_kind(&self, o: usize) -> OpKind
        requires o_in_bounds { o < length (func_of self.now).ops }
        ensures { result ≡ kind_of_op (op_of (func_of self.now) o).kind }
    {
        OpKind::from_words(
            word(self.words, Pool::Ops, o, 2),
            word(self.words, Pool::Ops, o, 3),
            word(self.words, Pool::Ops, o, 4),
        )
    }

    // How many immediates op o has.
    pub fn op_imm_count(&self, o: usize) -> usize
        requires o_in_bounds { o < length (func_of self.now).ops }
        ensures { result ≡ length (inst_imms (op_insts (op_of (func_of self.now) o).kind)) }
    {
        run_count(self.words, Pool::Ops, o, 5)
    }

    // Immediate i of op o.
    pub fn op_imm(&self, o: usize, i: usize) -> Immediate
        requires o_in_bounds { o < length (func_of self.now).ops }
        requires i_in_bounds { i < length (inst_imms (op_insts (op_of (func_of self.now) o).kind)) }
        ensures { as_imm result ≡ get_or (inst_imms (op_insts (op_of (func_of self.now) o).kind)) i (imm_from 0 0 0) }
    {
        imm(self.words, run_at(self.words, Pool::Ops, o, 5, i))
    }

    // How many operands op o has.
    pub fn operand_count(&self, o: usize) -> usize
        requires o_in_bounds { o < length (func_of self.now).ops }
        ensures { result ≡ length (op_of (func_of self.now) o).operands }
    {
        run_count(self.words, Pool::Ops, o, 6)
    }

    // Operand i of op o.
    pub fn operand(&self, o: usize, i: usize) -> Val
        requires o_in_bounds { o < length (func_of self.now).ops }
        requires i_in_bounds { i < length (op_of (func_of self.now) o).operands }
        ensures { as_value result ≡ get_or (op_of (func_of self.now) o).operands i (const 0) }
    {
        value(self.words, run_at(self.words, Pool::Ops, o, 6, i))
    }

    // The region that ctrl line c is for.
    pub fn ctrl_region(&self, c: usize) -> usize
        requires c_in_bounds { c < length (func_of self.now).ctrls }
        ensures { result ≡ (ctrl_line_of (func_of self.now) c).0 }
    {
        word(self.words, Pool::Ctrls, c, 0) as usize
    }

    // The attributes of ctrl line c.
    pub fn ctrl_attrs(&self, c: usize) -> u32
        requires c_in_bounds { c < length (func_of self.now).ctrls }
        ensures { result ≡ (ctrl_line_of (func_of self.now) c).1.attrs }
    {
        word(self.words, Pool::Ctrls, c, 1)
    }

    // The kind of ctrl line c.
    pub fn ctrl_kind(&self, c: usize) -> CtrlKind
        requires c_in_bounds { c < length (func_of self.now).ctrls }
        ensures { result ≡ ctrl_kind (ctrl_line_of (func_of self.now) c).1.kind }
    {
        CtrlKind::from(word(self.words, Pool::Ctrls, c, 2))
    }

    // The opcode of ctrl line c's INST.
    pub fn ctrl_opcode(&self, c: usize) -> u32
        requires c_in_bounds { c < length (func_of self.now).ctrls }
        ensures { result ≡ inst_opcode (ctrl_insts (ctrl_line_of (func_of self.now) c).1.kind) }
    {
        word(self.words, Pool::Ctrls, c, 3)
    }

    // How many immediates ctrl line c has.
    pub fn ctrl_imm_count(&self, c: usize) -> usize
        requires c_in_bounds { c < length (func_of self.now).ctrls }
        ensures { result ≡ length (inst_imms (ctrl_insts (ctrl_line_of (func_of self.now) c).1.kind)) }
    {
        run_count(self.words, Pool::Ctrls, c, 4)
    }

    // Immediate i of ctrl line c.
    pub fn ctrl_imm(&self, c: usize, i: usize) -> Immediate
        requires c_in_bounds { c < length (func_of self.now).ctrls }
        requires i_in_bounds { i < length (inst_imms (ctrl_insts (ctrl_line_of (func_of self.now) c).1.kind)) }
        ensures { as_imm result ≡ get_or (inst_imms (ctrl_insts (ctrl_line_of (func_of self.now) c).1.kind)) i (imm_from 0 0 0) }
    {
        imm(self.words, run_at(self.words, Pool::Ctrls, c, 4, i))
    }

    // How many inputs ctrl line c has.
    pub fn ctrl_in_count(&self, c: usize) -> usize
        requires c_in_bounds { c < length (func_of self.now).ctrls }
        ensures { result ≡ length (ctrl_line_of (func_of self.now) c).1.ins }
    {
        run_count(self.words, Pool::Ctrls, c, 5)
    }

    // Input i of ctrl line c.
    pub fn ctrl_in(&self, c: usize, i: usize) -> Val
        requires c_in_bounds { c < length (func_of self.now).ctrls }
        requires i_in_bounds { i < length (ctrl_line_of (func_of self.now) c).1.ins }
        ensures { as_value result ≡ get_or (ctrl_line_of (func_of self.now) c).1.ins i (const 0) }
    {
        value(self.words, run_at(self.words, Pool::Ctrls, c, 5, i))
    }

    // How many targets ctrl line c has.
    pub fn target_count(&self, c: usize) -> usize
        requires c_in_bounds { c < length (func_of self.now).ctrls }
        ensures { result ≡ length (ctrl_line_of (func_of self.now) c).1.to }
    {
        run_count(self.words, Pool::Ctrls, c, 6)
    }

    // Target i of ctrl line c.
    pub fn target(&self, c: usize, i: usize) -> usize
        requires c_in_bounds { c < length (func_of self.now).ctrls }
        requires i_in_bounds { i < length (ctrl_line_of (func_of self.now) c).1.to }
        ensures { result ≡ get_or (ctrl_line_of (func_of self.now) c).1.to i 0 }
    {
        reference(
            self.words,
            Pool::Targets,
            run_at(self.words, Pool::Ctrls, c, 6, i),
        )
    }

    // How many entries ctrl line c has.
    pub fn entry_count(&self, c: usize) -> usize
        requires c_in_bounds { c < length (func_of self.now).ctrls }
        ensures { result ≡ length (ctrl_line_of (func_of self.now) c).1.vals }
    {
        run_count(self.words, Pool::Ctrls, c, 7)
    }

    // The region that entry e of ctrl line c names.
    pub fn entry_region(&self, c: usize, e: usize) -> usize
        requires c_in_bounds { c < length (func_of self.now).ctrls }
        requires e_in_bounds { e < length (ctrl_line_of (func_of self.now) c).1.vals }
        ensures { result ≡ (entry_of (func_of self.now) c e).0 }
    {
        word(
            self.words,
            Pool::Entries,
            run_at(self.words, Pool::Ctrls, c, 7, e),
            0,
        ) as usize
    }

    // Value i of that entry.
    pub fn entry_value(&self, c: usize, e: usize, i: usize) -> Val
        requires c_in_bounds { c < length (func_of self.now).ctrls }
        requires e_in_bounds { e < length (ctrl_line_of (func_of self.now) c).1.vals }
        requires i_in_bounds { i < length (entry_of (func_of self.now) c e).1 }
        ensures { as_value result ≡ get_or (entry_of (func_of self.now) c e).1 i (const 0) }
    {
        let at = run_at(self.words, Pool::Ctrls, c, 7, e);
        value(self.words, run_at(self.words, Pool::Entries, at, 1, i))
    }
}
