// From the lent text to the tables in the function slice, or a refusal: the one entry of the reader. It asks nothing of its caller. The slices' lengths are
// what refusal 8 tests, so that they are clauses and no type's.
#![tactic(auto)]

ghost use Rattle.std.specs.Prelude.{◌≡◌, ◌≤◌, length};
ghost use Rattle.lifting.specs.Limits.{func_words, work_words};
ghost use Rattle.lifting.specs.Answer.{parse};
ghost use Rattle.func.specs.Whole.{Clear, empty_pools};
ghost use Rattle.reader.specs.Parse.{Judges, Unentered, answer_of, func_after, work_after, kept_after, enough_test};

use check_text::checks;
use func_pools::empty;
use read_text::read_text;
use refusals::Refusal;
use refusals::limits::{FUNC_WORDS, MAX_BYTES, WORK_WORDS};
use work::{ENTERED, ENTERED_END, clear, clear_all};

// Both scratch slices are long enough.
pub fn enough(func: &[u32], work: &[u32]) -> bool
    ensures { result ≡ enough_test (length func.now) (length work.now) }
{
    if func.len() < FUNC_WORDS {
        return false;
    }
    WORK_WORDS <= work.len()
}

// The text, judged where every pool is empty and no region has an entry: what stands in the function slice then goes by the answer.
fn judge_text(text: &[u8], func: &mut [u32], work: &mut [u32]) -> Result<(), Refusal>
    requires func_words_in_bounds { (func_words ≤ length func.old) × (work_words ≤ length work.old) }
    requires clear { Clear func.old }
    requires unentered { Unentered work.old }
    ensures judges { Judges result text.now (length func.old) (length work.old) func.old func.new }
    ensures func_len_unchanged { length func.new ≡ length func.old }
    ensures work_len_unchanged { length work.new ≡ length work.old }
{
    if MAX_BYTES < text.len() {
        return Err(Refusal::Long);
    }
    let Some(fit) = read_text(func, work, text) else {
        return Err(Refusal::Forms);
    };
    checks(func, work, fit.opcodes, fit.edges)
}

// The text, judged over whatever the slices held: only the pools' counts and the table of entries are cleared before. The work slice keeps what the
// checks wrote, and after a refusal the function slice what was read.
pub fn judge(text: &[u8], func: &mut [u32], work: &mut [u32]) -> Result<(), Refusal>
    requires { (func_words ≤ length func.old) × (work_words ≤ length work.old) }
    ensures judges { Judges result text.now (length func.old) (length work.old) (empty_pools func.old) func.new }
    ensures func_len_unchanged { length func.new ≡ length func.old }
    ensures work_len_unchanged { length work.new ≡ length work.old }
{
    empty(func);
    clear(work, ENTERED, ENTERED_END);
    judge_text(text, func, work)
}

// After a refusal the function slice is cleared.
fn leave(func: &mut [u32], r: Result<(), Refusal>)
    ensures { func.new ≡ kept_after r func.old }
{
    if r.is_err() {
        clear_all(func);
    }
}

// The function of the text, in the function slice, or the first refusal of 8, 1 to 7 and 13 that holds. The work slice ends as zeros, and the function
// slice too after a refusal; after 8 both keep their words. Beside its function's tables the function slice keeps what it held.
pub fn parse(text: &[u8], func: &mut [u32], work: &mut [u32]) -> Result<(), Refusal>
    ensures func_after { answer_of result func.new ≡ parse text.now (length func.old) (length work.old) }
    ensures func_after_2 { func.new ≡ func_after (parse text.now (length func.old) (length work.old)) func.old }
    ensures work_after { work.new ≡ work_after (parse text.now (length func.old) (length work.old)) work.old }
{
    if !enough(func, work) {
        return Err(Refusal::Scratch);
    }
    let r = judge(text, func, work);
    leave(func, r);
    clear_all(work);
    r
}
