// The static library: what C and Rust call. A slice crosses as a pointer and a count of elements. Nothing is asked of the caller but that the
// slices it lends for writing do not overlap.
#![tactic(auto)]

ghost use Rattle.std.specs.Prelude.{◌≡◌};
ghost use Rattle.lifting.specs.Answer.{out_after, scratch_after};
ghost use Rattle.lifter.specs.Entry.{answer_to, wanted_to};
ghost use Rattle.sighvona.specs.Numbers.{next_or, read_leaves, read_of, read_to, refusal_of, version, words_or};

use lifter::lift_function;
use results::{lift_number, next_after, read_number, words_after};
use work::clear_all;

// Lifts a text: 0, with the list in `out`, its count of words and the next free id; or the number of the refusal. Refusal 11 gives in `words` how many
// words the list has. After any other refusal `words` and `next` keep what they held.
#[unsafe(no_mangle)]
pub extern "C" fn sighvona_lift(
    text: &[u8],
    first: u32,
    func: &mut [u32],
    work: &mut [u32],
    out: &mut [u32],
    words: &mut usize,
    next: &mut u32,
) -> u32
    ensures refusal { result ≡ refusal_of (answer_to text.now first func.old work.old out.old) }
    ensures word_count { words.new ≡ words_or (answer_to text.now first func.old work.old out.old) (wanted_to text.now first func.old work.old) words.old }
    ensures next_id { next.new ≡ next_or (answer_to text.now first func.old work.old out.old) next.old }
    ensures func_slice { func.new ≡ scratch_after (answer_to text.now first func.old work.old out.old) func.old }
    ensures work_slice { work.new ≡ scratch_after (answer_to text.now first func.old work.old out.old) work.old }
    ensures out_slice { out.new ≡ out_after (answer_to text.now first func.old work.old out.old) out.old }
{
    let r = lift_function(text, first, func, work, out);
    *words = words_after(r, *words);
    *next = next_after(r, *next);
    lift_number(r)
}

// Reads a text and lifts nothing: 0, or the number of the refusal, 8, 1 to 7 or 13. Both slices end as zeros, except after 8, when they keep their words.
#[unsafe(no_mangle)]
pub extern "C" fn sighvona_read(text: &[u8], func: &mut [u32], work: &mut [u32]) -> u32
    ensures refusal { result ≡ read_of (read_to text.now func.old work.old) }
    ensures func_slice { func.new ≡ read_leaves (read_to text.now func.old work.old) func.old }
    ensures work_slice { work.new ≡ read_leaves (read_to text.now func.old work.old) work.old }
{
    let r = reader::parse(text, func, work);
    let Err(_) = r else {
        clear_all(func);
        return read_number(r);
    };
    read_number(r)
}

// The library's version, 0.6.0: major * 65,536 + minor * 256 + patch.
#[unsafe(no_mangle)]
pub extern "C" fn sighvona_version() -> u32
    ensures version { result ≡ version }
{
    1536
}
