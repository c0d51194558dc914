// What is printed for an input, a line `(first N)` and a text.
#![tactic(auto)]

ghost use Rattle.std.specs.Prelude.{◌+◌, ◌*◌, ◌≤◌, length, ◌≡◌};
ghost use Rattle.lifting.specs.Answer.{out_after, scratch_after};
ghost use Rattle.lifter.specs.Entry.{answer_to};
ghost use Rattle.print_bytes.specs.Put.{PutBytes};
ghost use Rattle.print_lifted.specs.Input.{InputStands, answer_bytes, input_bytes, input_leaves, lifted_bytes};

use lifter::lift_function;
use print_list::list;
use print_refusal::{bad_line, refused};
use read_first::first_line;
use results::{Lifted, Unlifted};

// The lines of the list in the output slice, or the refusal's line.
fn put_lifted(bytes: &mut [u8], r: Result<Lifted, Unlifted>, out: &[u32]) -> usize
    requires { InputStands r out.now }
    ensures { PutBytes bytes.old 0 (lifted_bytes r out.now) bytes.new result }
{
    match r {
        Ok(lifted) => list(&out[..lifted.words], bytes),
        Err(e) => refused(u32::from(e.refusal), bytes),
    }
}

// The text behind the first line. Not inlined, so that an input without that line takes none of this stack.
#[inline(never)]
fn put_text(
    bytes: &mut [u8],
    text: &[u8],
    first: u32,
    func: &mut [u32],
    work: &mut [u32],
    out: &mut [u32],
) -> usize
    ensures put_bytes { PutBytes bytes.old 0 (answer_bytes (answer_to text.now first func.old work.old out.old)) bytes.new result }
    ensures func_after { func.new ≡ scratch_after (answer_to text.now first func.old work.old out.old) func.old }
    ensures work_after { work.new ≡ scratch_after (answer_to text.now first func.old work.old out.old) work.old }
    ensures out_after { out.new ≡ out_after (answer_to text.now first func.old work.old out.old) out.old }
{
    let r = lift_function(text, first, func, work, out);
    put_lifted(bytes, r, out)
}

// The bytes that are printed for an input stand in `bytes`: how many. Those for which there is no room are counted, not stored.
pub fn put_input(
    bytes: &mut [u8],
    input: &[u8],
    func: &mut [u32],
    work: &mut [u32],
    out: &mut [u32],
) -> usize
    ensures printed { PutBytes bytes.old 0 (input_bytes input.now (length func.old) (length work.old) (length out.old)) bytes.new result }
    ensures count { result ≤ 12 * length out.old + 21 }
    ensures func_slice { func.new ≡ input_leaves scratch_after input.now (length func.old) (length work.old) (length out.old) func.old }
    ensures work_slice { work.new ≡ input_leaves scratch_after input.now (length func.old) (length work.old) (length out.old) work.old }
    ensures out_slice { out.new ≡ input_leaves out_after input.now (length func.old) (length work.old) (length out.old) out.old }
{
    let Some((first, at)) = first_line(input) else {
        return bad_line(bytes);
    };
    put_text(bytes, &input[at..], first, func, work, out)
}
