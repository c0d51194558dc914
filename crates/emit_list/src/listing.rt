// What a whole list is made from.
ghost use Rattle.func.specs.Decode.{func_of};
ghost use Rattle.emit_edge_ends.specs.Links.{Linked};
ghost use Rattle.emit_list.specs.Over.{linked_prop};

use emit_insts::Emission;

// What instructions are made from, with the edges into each point linked in its work slice.
#[derive(Clone, Copy)]
pub struct Listing<'a> {
    pub emission: Emission<'a>,
    ghost linked: { Linked (func_of emission.func.now) emission.work.now } by { linked_prop (func_of emission.func.now) emission.work.now },
}
