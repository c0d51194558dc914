// What each command prints for an input, and what is printed for a stored case.
#![tactic(auto)]

ghost use Rattle.std.specs.Prelude.{◌≡◌, ◌++◌, ◌≤◌, IfSome, OnOk, length};
ghost use Rattle.std.specs.Io.KnownBytes.{Appends};
ghost use Rattle.lifting.specs.Bytes.{bytes};
ghost use Rattle.print_bytes.specs.Put.{PutBytes};
ghost use Rattle.print_room.specs.Most.{max_case};
ghost use Rattle.print_command.specs.Printed.{case_bytes, command_bytes, printed_for};

use command::Command;
use print_blocks::put_answer;
use print_bytes::Printer;
use print_lifted::put_input;
use print_read::put_read;
use print_room::ROOM;
use std::io;
use std::io::{Read, Write};

// These bytes.
fn put_text(out: &mut [u8], text: &[u8]) -> usize
    ensures { PutBytes out.old 0 text.now out.new result }
{
    let mut to = Printer { out, at: 0 };
    to.put_bytes(text);
    to.at
}

// By the command, with slices that the caller lends.
fn put_of(
    command: Command,
    out: &mut [u8],
    input: &[u8],
    func: &mut [u32],
    work: &mut [u32],
    words: &mut [u32],
) -> usize
    ensures { PutBytes out.old 0 (command_bytes command input.now (length func.old) (length work.old) (length words.old)) out.new result }
{
    match command {
        Command::Lift => put_input(out, input, func, work, words),
        Command::Read => put_read(out, input, func, work),
        Command::Blocks => put_answer(input, func, work, out),
        Command::Help => put_text(
            out,
            b"spv COMMAND reads an input on standard input. The commands:\n  lift    the instruction list of a text behind a line (first N)\n  read    whether the reader accepts a text, or the number of the refusal\n  blocks  the kept blocks of a text\n  help    these lines\n",
        ),
        Command::Unknown => put_text(out, b"spv: no such command (spv help names them)\n"),
    }
}

// The bytes that a command prints for an input stand in `out`: how many. Those for which there is no room are counted, not stored.
pub fn put(command: Command, out: &mut [u8], input: &[u8]) -> usize
    ensures printed { PutBytes out.old 0 (printed_for command input.now) out.new result }
{
    let mut func = [0u32; 16384];
    let mut work = [0u32; 16384];
    let mut words = [0u32; 16384];
    put_of(command, out, input, &mut func, &mut work, &mut words)
}

// Those of a stored case, whose first line names its command, and the line that ends them.
pub fn put_case(out: &mut [u8], case: &[u8]) -> usize
    ensures printed { PutBytes out.old 0 (case_bytes case.now ++ bytes "%%\n") out.new result }
{
    let opened = command::opened(case);
    let command = opened.command;
    let at = opened.at;
    let n = put(command, out, &case[at..]);
    let mut end = Printer { out, at: n };
    end.put_bytes(b"%%\n");
    end.at
}

// Prints what a command prints for an input.
pub fn print<W: Write>(writer: &mut W, command: Command, input: &[u8]) -> io::Result<()>
    ensures printed { OnOk result (Appends (W.contents writer.old) (W.contents writer.new) (printed_for command input.now)) }
{
    let mut out = [0u8; ROOM];
    let n = put(command, &mut out, input);
    writer.write_all(&out[..n])
}

// Prints what is printed for a stored case, through a buffer that is lent: made anew for each case, it would be cleared each time.
pub fn print_case_by<W: Write>(writer: &mut W, out: &mut [u8], case: &[u8]) -> io::Result<()>
    requires { max_case ≤ length out.old }
    ensures printed { OnOk result (Appends (W.contents writer.old) (W.contents writer.new) (case_bytes case.now ++ bytes "%%\n")) }
    ensures out_len_unchanged { length out.new ≡ length out.old }
{
    let n = put_case(out, case);
    writer.write_all(&out[..n])
}

// Prints it through a buffer of its own.
pub fn print_case<W: Write>(writer: &mut W, case: &[u8]) -> io::Result<()>
    ensures printed { OnOk result (Appends (W.contents writer.old) (W.contents writer.new) (case_bytes case.now ++ bytes "%%\n")) }
{
    let mut out = [0u8; ROOM];
    print_case_by(writer, &mut out, case)
}

// Reads an input as far as it decides, and prints what a command prints for all of it.
pub fn run<R: Read, W: Write>(reader: &mut R, writer: &mut W, command: Command) -> io::Result<()>
    ensures printed { OnOk result (IfSome (R.remaining reader.old) (λ input. Appends (W.contents writer.old) (W.contents writer.new) (printed_for command input))) }
{
    let mut input = [0u8; read_input::INPUT];
    let n = read_input::read(reader, command, &mut input)?;
    print(writer, command, &input[..n])
}
