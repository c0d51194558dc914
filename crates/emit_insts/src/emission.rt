// What instructions are made from, and the runs that need all of it: ids of values, labels of targets.
#![tactic(auto, using(crate::specs::Emitting::emit_tables))]

ghost use Rattle.std.specs.Prelude.{◌≡◌, true, ◌<◌};
ghost use Rattle.general_laws.specs.Members.{All};
ghost use Rattle.lifting.specs.References.{named};
ghost use Rattle.func.specs.Decode.{func_of};
ghost use Rattle.func.specs.Kinds.{as_value};
ghost use Rattle.lifting_runs.specs.Refers.{Named};
ghost use Rattle.walk_points.specs.Numbers.{Small};
ghost use Rattle.terminators.specs.Kinds.{Known, term_of};
ghost use Rattle.emit_names.specs.Ids.{id_in};
ghost use Rattle.emit_words.specs.Writes.{Writes};
ghost use Rattle.emit_lists.specs.Named.{ValuesFit, values_of};
ghost use Rattle.emit_insts.specs.Parts.{items_of_labels, items_of_values};
ghost use Rattle.emit_insts.specs.Emitting.{Emitting, emitting_prop};

use crate::label_of;
use emit_elements::{value_at, value_count};
use emit_lists::Values;
use emit_value_ids::value_id;
use emit_words::Writer;
use func::Val;
use func_look::Function;
use term_parts::{target_at, targets};
use terminators::TermKind;

// A function that stands whole, the work slice with its blocks and ids, how many points were visited, and the first new id.
#[derive(Clone, Copy)]
pub struct Emission<'a> {
    pub func: &'a Function<'a>,
    pub work: &'a [u32],
    pub count: usize,
    pub first: u32,
    ghost ready: { Emitting func.now work.now count first } by { emitting_prop func.now work.now count first },
}

impl Emission<'_> {
    // The id of a value.
    pub fn id_of(&self, v: Val) -> u32
        requires count_nonzero { 0 < self.now.count }
        requires v_value { named (func_of self.now.func.now) (as_value v) ≡ true }
        ensures { result ≡ id_in (func_of self.now.func.now) self.now.first (as_value v) }
    {
        value_id(self.func, self.work, self.first, v)
    }

    // Appends the ids of a list of values.
    pub fn put_values(&self, out: &mut Writer, l: Values)
        requires count_nonzero { 0 < self.now.count }
        requires values_fit { ValuesFit (func_of self.now.func.now) l × All (Named (func_of self.now.func.now)) (values_of (func_of self.now.func.now) l) }
        ensures { Writes out.old (items_of_values (func_of self.now.func.now) self.now.first (values_of (func_of self.now.func.now) l)) out.new }
    {
        for k in 0..value_count(self.func, l) {
            out.put_id(self.id_of(value_at(self.func, l, k)));
        }
    }

    // Appends the labels of the targets of a way out.
    pub fn put_targets(&self, out: &mut Writer, w: TermKind)
        requires { Known self.now.func.now w × All Small (term_of (func_of self.now.func.now) w).targets }
        ensures { Writes out.old (items_of_labels (func_of self.now.func.now) self.now.first (term_of (func_of self.now.func.now) w).targets) out.new }
    {
        for k in 0..targets(self.func, w) {
            out.put_id(label_of(self.work, target_at(self.func, w, k)));
        }
    }
}
