// Runs stored cases: reads a batch on standard input, case by case, and prints what the command that a case names prints for its input.
#![tactic(auto)]

ghost use Rattle.std.specs.Prelude.{◌≡◌, ◌+◌, ◌-◌, ◌^◌, ◌≤◌, ◌<◌, IfOk, IfSome, OnOk, length, take};
ghost use Rattle.std.specs.Io.KnownBytes.{Appends};
ghost use Rattle.command.specs.Opened.{line_room};
ghost use Rattle.read_first.specs.Cut.{input_room};
ghost use Rattle.read_cases.specs.Held.{CountsWithin};
ghost use Rattle.read_cases.specs.Kept.{end_mark};
ghost use Rattle.print_room.specs.Most.{max_case};
ghost use Rattle.replay.specs.Batch.{Rests, TurnsWell, batch_bytes, printed_if};

use print_command::print_case_by;
use print_room::ROOM;
use read_cases::{State, refilled, rested, taken, unmarked};
use std::io;
use std::io::{Read, Write};

// The bytes of a piece at most.
const PIECE: usize = 65536;

// A case that has ended is run.
fn run<W: Write>(writer: &mut W, out: &mut [u8], text: &[u8], state: State) -> io::Result<State>
    requires within { CountsWithin 65536 (length text.now) state }
    requires room { max_case ≤ length out.old }
    ensures counts { IfOk result (CountsWithin 65536 (length text.now)) }
    ensures rested { IfOk result (Rests state) }
    ensures printed { OnOk result (Appends (W.contents writer.old) (W.contents writer.new) (printed_if state.matched (take (state.len - 3) text.now))) }
    ensures out_len_unchanged { length out.new ≡ length out.old }
{
    if state.matched == 4 {
        print_case_by(writer, out, unmarked(text, state.len))?;
    }
    Ok(rested(state))
}

// Takes what follows of the last piece, up to the end of a case, or reads the next one.
fn step<R: Read, W: Write>(
    reader: &mut R,
    writer: &mut W,
    out: &mut [u8],
    buffer: &mut [u8],
    text: &mut [u8],
    state: State,
) -> io::Result<State>
    requires { CountsWithin 65536 (length text.old) state × (length buffer.old ≡ 65536) × (max_case ≤ length out.old) }
    ensures state { IfOk result (CountsWithin 65536 (length text.new)) }
    ensures rooms { (length text.new ≡ length text.old) × (length buffer.new ≡ 65536) × (length out.new ≡ length out.old) }
    ensures turn { IfOk result (λ next. TurnsWell (W.contents writer.old) (W.contents writer.new) (R.remaining reader.old) (R.remaining reader.new) buffer.old text.old state buffer.new text.new next) }
{
    let till = state.till;
    if state.from < till {
        let next = taken(&buffer[..till], text, state);
        return run(writer, out, text, next);
    }
    refilled(reader, buffer, state)
}

// Case by case, to the end of the batch. A proved loop has to end, so its turns are bounded, by a number that no run uses up.
fn all<R: Read, W: Write>(
    reader: &mut R,
    writer: &mut W,
    out: &mut [u8],
    buffer: &mut [u8],
    text: &mut [u8],
) -> io::Result<()>
    requires { (length buffer.old ≡ 65536) × (max_case ≤ length out.old) }
    ensures printed { OnOk result (IfSome (R.remaining reader.old) (λ batch. line_room + input_room + length end_mark ≤ length text.old → length batch < 2 ^ 63 → Appends (W.contents writer.old) (W.contents writer.new) (batch_bytes batch))) }
{
    let mut state = read_cases::start();
    for _ in 0..u64::MAX {
        if !state.more {
            break;
        }
        state = step(reader, writer, out, buffer, text, state)?;
    }
    Ok(())
}

// Answers a batch: for each of its cases it prints what the case's command prints for its input, and a line `%%`.
fn answer<R: Read, W: Write>(reader: &mut R, writer: &mut W) -> io::Result<()>
    ensures printed { OnOk result (IfSome (R.remaining reader.old) (λ batch. length batch < 2 ^ 63 → Appends (W.contents writer.old) (W.contents writer.new) (batch_bytes batch))) }
{
    let mut out = [0u8; ROOM];
    let mut buffer = [0u8; PIECE];
    let mut text = read_cases::room();
    all(reader, writer, &mut out, &mut buffer, &mut text)
}

fn main(rt: HostRuntime) -> io::Result<()> {
    answer(&mut rt.reader(), &mut io::writer(&rt))
}
