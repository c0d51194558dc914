// The words of a list, in the output slice: refusals 10 and 11 leave that slice alone, so they are decided before the first word is written. That the first
// id fits, and which the next one is, are clauses of two numbers that only these functions know.
#![tactic(auto)]

ghost use Rattle.std.specs.Prelude.{◌≡◌, true, length};
ghost use Rattle.lifting.specs.Instructions.{list_of};
ghost use Rattle.lifting.specs.Words.{words};
ghost use Rattle.lifting.specs.Answer.{ids_fit};
ghost use Rattle.func.specs.Decode.{func_of};
ghost use Rattle.emit_names.specs.Ids.{next_in};
ghost use Rattle.emit_output.specs.Emit.{Gives, Wants, emitted};
ghost use Rattle.emit_output.specs.Sure.{sure_test};

use emit_insts::Emission;
use emit_list::{Listing, put_list};
use emit_values::all_given;
use emit_words::Cursor;
use refusals::Refusal;
use results::{Lifted, Unlifted};

// No list has more words.
const MOST_WORDS: usize = 23184;

// Neither refusal 10 nor 11 can hold: the slice has room for any list, and every value of the text has an id.
fn is_sure(e: &Emission, room: usize) -> bool
    ensures { result ≡ sure_test (func_of e.now.func.now) e.now.first room }
{
    if room < MOST_WORDS {
        return false;
    }
    if e.func.region_total() == 0 {
        return false;
    }
    all_given(e.func, e.work, e.first)
}

// Then the list is written at once.
fn at_once(l: &Listing, out: &mut [u32], next: u32) -> Result<Lifted, Unlifted>
    requires first_value { ids_fit (func_of l.now.emission.func.now) l.now.emission.first ≡ true }
    requires next_value { next ≡ next_in (func_of l.now.emission.func.now) l.now.emission.first }
    requires out_value { sure_test (func_of l.now.emission.func.now) l.now.emission.first (length out.old) ≡ true }
    ensures gives { Gives (emitted (func_of l.now.emission.func.now) l.now.emission.first (length out.old)) result out.old out.new }
    ensures wanted { Wants (length (words (list_of (func_of l.now.emission.func.now) l.now.emission.first))) result }
{
    let end = put_list(l, out, Cursor { at: 0, missed: 0 });
    Ok(Lifted {
        words: end.at,
        next,
    })
}

// The list is counted before its first word is written: an id that is missing is refusal 10, and a slice that is too short 11.
fn counted_first(l: &Listing, out: &mut [u32], next: u32) -> Result<Lifted, Unlifted>
    requires first_value { ids_fit (func_of l.now.emission.func.now) l.now.emission.first ≡ true }
    requires next_value { next ≡ next_in (func_of l.now.emission.func.now) l.now.emission.first }
    ensures gives { Gives (emitted (func_of l.now.emission.func.now) l.now.emission.first (length out.old)) result out.old out.new }
    ensures wanted { Wants (length (words (list_of (func_of l.now.emission.func.now) l.now.emission.first))) result }
{
    let start = Cursor { at: 0, missed: 0 };
    let mut none = [0u32; 1];
    let counted = put_list(l, &mut none, start);
    if counted.missed != 0 {
        return Err(Unlifted::from(Refusal::Values));
    }
    if out.len() < counted.at {
        return Err(Unlifted {
            refusal: Refusal::Output,
            wanted: counted.at,
        });
    }
    put_list(l, out, start);
    Ok(Lifted {
        words: counted.at,
        next,
    })
}

// The list is in the output slice, or it is refused. It is counted first only where it might be.
pub fn written(l: &Listing, out: &mut [u32], next: u32) -> Result<Lifted, Unlifted>
    requires first_value { ids_fit (func_of l.now.emission.func.now) l.now.emission.first ≡ true }
    requires next_value { next ≡ next_in (func_of l.now.emission.func.now) l.now.emission.first }
    ensures gives { Gives (emitted (func_of l.now.emission.func.now) l.now.emission.first (length out.old)) result out.old out.new }
    ensures wanted { Wants (length (words (list_of (func_of l.now.emission.func.now) l.now.emission.first))) result }
{
    let room = out.len();
    if is_sure(&l.emission, room) {
        return at_once(l, out, next);
    }
    counted_first(l, out, next)
}
