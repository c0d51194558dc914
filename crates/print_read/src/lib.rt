// What is printed of the reader's answer to a text: the refusal's number, or the word `accepted`.
#![tactic(auto)]

ghost use Rattle.std.specs.Prelude.{◌≡◌, length};
ghost use Rattle.lifting.specs.Answer.{parse};
ghost use Rattle.reader.specs.Parse.{func_after, work_after};
ghost use Rattle.print_bytes.specs.Put.{PutBytes};
ghost use Rattle.print_refusal.specs.Line.{read_bytes};

use print_refusal::put_line;

// The bytes of the line for a text stand in `bytes`: how many.
pub fn put_read(bytes: &mut [u8], text: &[u8], func: &mut [u32], work: &mut [u32]) -> usize
    ensures printed { PutBytes bytes.old 0 (read_bytes (parse text.now (length func.old) (length work.old))) bytes.new result }
    ensures func_slice { func.new ≡ func_after (parse text.now (length func.old) (length work.old)) func.old }
    ensures work_slice { work.new ≡ work_after (parse text.now (length func.old) (length work.old)) work.old }
{
    let parsed = reader::parse(text, func, work);
    put_line(bytes, parsed)
}
