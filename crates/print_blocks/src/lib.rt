// What is printed of a text: a line for each of its kept blocks, or the line `(refused N)`; an imported function has none.
#![tactic(auto)]

ghost use Rattle.std.specs.Prelude.{◌≡◌, ◌≤◌, length};
ghost use Rattle.lifting.specs.Answer.{parse};
ghost use Rattle.func.specs.Decode.{func_of};
ghost use Rattle.work.specs.Layout.{work_need};
ghost use Rattle.check_text.specs.Same.{Stands};
ghost use Rattle.reader.specs.Parse.{func_after};
ghost use Rattle.print_bytes.specs.Put.{PutBytes};
ghost use Rattle.print_lines.specs.Lines.{block_lines, blocks_bytes};
ghost use Rattle.print_blocks.specs.Stand.{LaidOut, WorkAfter};

use blocks::blocks;
use func_look::Function;
use print_kept::put_lines;
use print_points::shown::Shown;
use term_kinds::visits::Visits;

// The lines of a function.
fn put_function(func: &Function, work: &mut [u32], out: &mut [u8]) -> usize
    requires stands { Stands (func_of func.now) func.now }
    requires work_need_in_bounds { work_need ≤ length work.old }
    ensures put_bytes { PutBytes out.old 0 (block_lines (func_of func.now)) out.new result }
    ensures laid_out { LaidOut (func_of func.now) (func_of func.now).regions work.old work.new }
{
    if func.region_total() == 0 {
        return 0;
    }
    let count = blocks(func, work);
    let visits = Visits {
        func: &*func,
        work,
        count,
    };
    put_lines(&Shown { visits }, out)
}

// The lines of a text, or its refusal's.
pub fn put_answer(text: &[u8], func: &mut [u32], work: &mut [u32], out: &mut [u8]) -> usize
    ensures put_bytes { PutBytes out.old 0 (blocks_bytes (parse text.now (length func.old) (length work.old))) out.new result }
    ensures func_after { func.new ≡ func_after (parse text.now (length func.old) (length work.old)) func.old }
    ensures work_after { WorkAfter (parse text.now (length func.old) (length work.old)) work.old work.new }
{
    match reader::parse(text, func, work) {
        Ok(()) => put_function(&Function::new(func), work, out),
        Err(r) => print_refusal::refused(u32::from(r), out),
    }
}
