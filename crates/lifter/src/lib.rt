// The entry: from the lent text to the words of its list, or a refusal.
#![tactic(auto)]

ghost use Rattle.std.specs.Prelude.{◌≡◌, ◌≤◌, length};
ghost use Rattle.lifting.specs.Limits.{func_words, work_words};
ghost use Rattle.lifting.specs.Answer.{out_after, scratch_after};
ghost use Rattle.emit_output.specs.Emit.{Gives, Wants, outcome, told};
ghost use Rattle.lifter.specs.Entry.{EndsClear, answer_to, wanted_to};

use emitter::emit;
use func_look::Function;
use reader::{enough, judge};
use refusals::Refusal;
use results::{Lifted, Unlifted};
use work::clear_all;

// The text is judged and lifted over whatever the scratch slices held. They keep what was read and laid out there, and what is answered asks that they
// end as zeros.
fn lift(
    text: &[u8],
    first: u32,
    func: &mut [u32],
    work: &mut [u32],
    out: &mut [u32],
) -> Result<Lifted, Unlifted>
    requires { (func_words ≤ length func.old) × (work_words ≤ length work.old) }
    ensures gives { Gives (answer_to text.now first func.old work.old out.old) result out.old out.new }
    ensures ends_clear { EndsClear (answer_to text.now first func.old work.old out.old) }
    ensures func_len_unchanged { length func.new ≡ length func.old }
    ensures work_len_unchanged { length work.new ≡ length work.old }
    ensures wanted { Wants (wanted_to text.now first func.old work.old) result }
{
    judge(text, func, work)?;
    emit(&Function::new(func), work, out, first)
}

// The list of the text stands in the output slice, and its count of words and the next free id are given; or the first refusal that holds, in the
// order 8, 1 to 7, 13, 9, 10, 11. Output beyond the list, and all of it after a refusal, keeps its words; both scratch slices end as zeros, except after 8.
// Refusal 11 tells how many words the list has.
pub fn lift_function(
    text: &[u8],
    first: u32,
    func: &mut [u32],
    work: &mut [u32],
    out: &mut [u32],
) -> Result<Lifted, Unlifted>
    ensures told { told result ≡ outcome (answer_to text.now first func.old work.old out.old) }
    ensures func_slice { func.new ≡ scratch_after (answer_to text.now first func.old work.old out.old) func.old }
    ensures work_slice { work.new ≡ scratch_after (answer_to text.now first func.old work.old out.old) work.old }
    ensures out_slice { out.new ≡ out_after (answer_to text.now first func.old work.old out.old) out.old }
    ensures wanted { Wants (wanted_to text.now first func.old work.old) result }
{
    if !enough(func, work) {
        return Err(Unlifted::from(Refusal::Scratch));
    }
    let r = lift(text, first, func, work, out);
    clear_all(func);
    clear_all(work);
    r
}
