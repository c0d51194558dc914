// How much of its input a program reads: as much as decides what it prints. The decision is a function of the bytes that were read, and the room for
// them is asked of the caller: there is no heap, so that the input stands in a lent slice, and how much of it was read beside it.
#![tactic(auto)]

ghost use Rattle.std.specs.Prelude.{◌≡◌, ◌⊎◌, ℕ, ◌+◌, ◌≤◌, ◌<◌, IfOk, OnErr, IsTrue, length, take, drop};
ghost use Rattle.std.specs.Io.KnownBytes.{Consumes, IsAtEnd, Keeps};
ghost use Rattle.read_first.specs.Cut.{input_room};
ghost use Rattle.read_input.specs.Counts.{IsPrefixLen};
ghost use Rattle.read_input.specs.Known.{known_by, known_for, text_known};

use command::Command;
use read_first::first_line;
use refusals::limits::MAX_BYTES;
use std::io;
use std::io::Read;

// The bytes of the longest line `(first N)`.
const LINE: usize = 19;

// The bytes of a text that decide, and those of an input, a line `(first N)` and a text.
const TEXT: usize = MAX_BYTES + 1;

pub const INPUT: usize = LINE + TEXT;

// Whether the bytes so far of an input with a first line decide, whatever follows: there are enough of them, or their first line is bad.
fn input_known(input: &[u8]) -> bool
    ensures { result ≡ known_by input.now }
{
    if input.len() < LINE {
        return false;
    }
    if INPUT <= input.len() {
        return true;
    }
    first_line(input).is_none()
}

// Whether those of a text alone decide.
#[tactic(auto, unfolding(crate::specs::Known::text_known))]
fn text_known(text: &[u8]) -> bool
    ensures { result ≡ text_known text.now }
{
    TEXT <= text.len()
}

// Whether the bytes so far decide what a command prints.
#[tactic(auto, unfolding(crate::specs::Known::known_for))]
pub fn known(command: Command, input: &[u8]) -> bool
    ensures { result ≡ known_for command input.now }
{
    match command {
        Command::Lift => input_known(input),
        Command::Read => text_known(input),
        Command::Blocks => text_known(input),
        Command::Help => true,
        Command::Unknown => true,
    }
}

// Reads once, behind the first `n` bytes: how many bytes came. None come only at the end, where there is room for one.
fn more<R: Read>(reader: &mut R, input: &mut [u8], n: usize) -> io::Result<usize>
    requires { n ≤ length input.old }
    ensures within { IfOk result (λ got. n + got ≤ length input.new) }
    ensures kept { take n input.new ≡ take n input.old }
    ensures came { IfOk result (λ got. Consumes (R.remaining reader.old) (R.remaining reader.new) (take got (drop n input.new))) }
    ensures none_came { IfOk result (λ got. got ≡ 0 → n < length input.old → IsAtEnd (R.remaining reader.new)) }
    ensures failed { OnErr result (Keeps (R.remaining reader.old) (R.remaining reader.new)) }
{
    reader.read(&mut input[n..])
}

// Reads until it is known what a command prints, or the input ends: how many bytes of it stand there. After an error too, no byte is lost that was read.
pub fn read<R: Read>(reader: &mut R, command: Command, input: &mut [u8]) -> io::Result<usize>
    requires { input_room ≤ length input.old }
    ensures count { IfOk result (λ n. IsPrefixLen n input.new) }
    ensures bytes { IfOk result (λ n. Consumes (R.remaining reader.old) (R.remaining reader.new) (take n input.new)) }
    ensures decided { IfOk result (λ n. IsTrue (known_for command (take n input.new)) ⊎ IsAtEnd (R.remaining reader.new)) }
    ensures none_lost { (n : ℕ) × (n ≤ length input.new) × Consumes (R.remaining reader.old) (R.remaining reader.new) (take n input.new) }
{
    let mut n: usize = 0;
    while !known(command, &input[..n]) {
        let got = more(reader, input, n)?;
        if got == 0 {
            return Ok(n);
        }
        n += got;
    }
    Ok(n)
}
