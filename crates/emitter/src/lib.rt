// From the tables of a text to the words of its list from a first id, or refusal 9, 10 or 11.
#![tactic(auto)]

ghost use Rattle.std.specs.Prelude.{◌≡◌, ◌≤◌, length};
ghost use Rattle.lifting.specs.Instructions.{list_of};
ghost use Rattle.lifting.specs.Words.{words};
ghost use Rattle.lifting.specs.Answer.{lifted, parsed};
ghost use Rattle.func.specs.Decode.{func_of};
ghost use Rattle.work.specs.Layout.{work_need};
ghost use Rattle.check_text.specs.Same.{Stands};
ghost use Rattle.blocks.specs.Laid.{Laid};
ghost use Rattle.emit_output.specs.Emit.{Gives, Wants};

use blocks::blocks;
use check_first::first_fits;
use emit_edges::link;
use emit_ids::number;
use emit_insts::Emission;
use emit_list::Listing;
use emit_output::written;
use func_look::Function;
use refusals::Refusal;
use refusals::limits::{id_fits, next_fits};
use results::{Lifted, Unlifted};

// The blocks of the text stand in the work slice: how many points are visited. An imported function has none.
fn lay(func: &Function, work: &mut [u32]) -> usize
    requires stands { Stands (func_of func.now) func.now }
    requires work_need_in_bounds { work_need ≤ length work.old }
    ensures laid { Laid func.now work.new result }
    ensures work_len_unchanged { length work.new ≡ length work.old }
{
    if func.region_total() == 0 {
        return 0;
    }
    blocks(func, work)
}

// The list of the text that stands in the tables is written to the output slice, with new ids from the first one on; or refusal 9, 10 or 11 leaves that
// slice alone. The work slice may hold anything, and keeps what was laid out there.
pub fn emit(
    func: &Function,
    work: &mut [u32],
    out: &mut [u32],
    first: u32,
) -> Result<Lifted, Unlifted>
    requires stands { Stands (func_of func.now) func.now }
    requires work_need_in_bounds { work_need ≤ length work.old }
    ensures gives { Gives (lifted (parsed (func_of func.now)) first (length out.old)) result out.old out.new }
    ensures work_len_unchanged { length work.new ≡ length work.old }
    ensures wanted { Wants (length (words (list_of (func_of func.now) first))) result }
{
    if !first_fits(func, first) {
        return Err(Unlifted::from(Refusal::Ids));
    }
    if !id_fits(first) {
        return Err(Unlifted::from(Refusal::Ids));
    }
    let count = lay(func, work);
    let next = number(func, work, count, first);
    if !next_fits(next) {
        return Err(Unlifted::from(Refusal::Ids));
    }
    link(func, work, count);
    let emission = Emission {
        func: &*func,
        work,
        count,
        first,
    };
    written(&Listing { emission }, out, next)
}
