// Reads a batch on standard input, cases that each end with a line `%%`, piece by piece, as reads give them. What follows the last such line is no case.
// A case longer than the room for it keeps its first bytes, which decide what is printed for it.
#![tactic(auto)]

ghost use Rattle.std.specs.Prelude.{◌≡◌, ◌+◌, ◌-◌, ◌≤◌, ◌<◌, ◌↔◌, IfOk, OnErr, IsTrue, length, take, drop};
ghost use Rattle.std.proofs.Math.Seq.{paste};
ghost use Rattle.std.specs.Io.KnownBytes.{Consumes, IsAtEnd, Keeps};
ghost use Rattle.read_first.specs.Cut.{input_room};
ghost use Rattle.command.specs.Opened.{line_room};
ghost use Rattle.read_marks.specs.Cut.{cut_of, fitting_bytes};
ghost use Rattle.read_cases.specs.Held.{CountsWithin, held_after, held_of, held_case, len_after, taken_part};
ghost use Rattle.read_cases.specs.Kept.{end_mark};

use read_marks::{cut, keep};
use std::io;
use std::io::Read;

// The bytes of a line `%%`.
const MARK: usize = 3;

// The bytes of a case that decide, and its line `%%`.
pub const ROOM: usize = command::LINE + read_input::INPUT + MARK;

// How many bytes of a case have been kept, and how much of its mark they end with; which bytes of the last piece are still to be taken; and whether
// there may be more pieces.
#[derive(Clone, Copy)]
pub struct State {
    pub len: usize,
    pub matched: u32,
    pub from: usize,
    pub till: usize,
    pub more: bool,
}

// A case without its line `%%`.
pub fn unmarked(text: &[u8], len: usize) -> &[u8]
    requires { len ≤ length text.now }
    ensures { result.now ≡ take (len - 3) text.now }
{
    &text[..len.saturating_sub(MARK)]
}

// Before anything was read.
pub fn start() -> State
    ensures none { (result.len ≡ 0) × (result.matched ≡ 1) × (result.from ≡ 0) × (result.till ≡ 0) }
    ensures more { IsTrue result.more }
{
    State {
        len: 0,
        matched: 1,
        from: 0,
        till: 0,
        more: true,
    }
}

// Room for a case as far as it decides what is printed for it.
pub fn room() -> [u8; ROOM]
    ensures { line_room + input_room + length end_mark ≤ length result }
{
    [0; ROOM]
}

// Takes the bytes of a piece that follow, up to the end of a case.
pub fn taken(piece: &[u8], text: &mut [u8], state: State) -> State
    requires { (state.from < state.till) × (state.len ≤ length text.old) × (state.till ≡ length piece.now) }
    ensures cut { (result.from, result.matched) ≡ cut_of state.from state.matched (drop state.from piece.now) }
    ensures count { result.len ≡ state.len + fitting_bytes text.old state.len (taken_part state.from result.from piece.now) }
    ensures kept { text.new ≡ paste text.old state.len (taken_part state.from result.from piece.now) (fitting_bytes text.old state.len (taken_part state.from result.from piece.now)) }
    ensures held_case { held_after (held_case text.new (len_after result.matched result.len) result.matched) (drop result.from piece.now) ≡ held_after (held_of text.old state) (drop state.from piece.now) }
    ensures within { CountsWithin state.till (length text.new) result × (length text.new ≡ length text.old) }
    ensures rest { (result.till ≡ state.till) × IsTrue result.more }
{
    let place = cut(piece, state.from, state.matched);
    let len = keep(text, state.len, &piece[state.from..place.end]);
    State {
        len,
        matched: place.matched,
        from: place.end,
        more: true,
        ..state
    }
}

// A case that has ended is held no longer.
pub fn rested(state: State) -> State
    ensures rested { (result.len ≡ len_after state.matched state.len) × (result.matched ≡ state.matched) × (result.from ≡ state.from) × (result.till ≡ state.till) × (result.len ≤ state.len) }
    ensures more { result.more ≡ state.more }
{
    if state.matched == 4 {
        return State { len: 0, ..state };
    }
    state
}

// Reads the next piece. No bytes come only at the end, where there is room for one.
pub fn refilled<R: Read>(reader: &mut R, buffer: &mut [u8], state: State) -> io::Result<State>
    ensures state { IfOk result (λ next. (next.len ≡ state.len) × (next.matched ≡ state.matched) × (next.from ≡ 0) × (next.till ≤ length buffer.new)) }
    ensures more { IfOk result (λ next. IsTrue next.more ↔ 0 < next.till) }
    ensures came { IfOk result (λ next. Consumes (R.remaining reader.old) (R.remaining reader.new) (take next.till buffer.new)) }
    ensures none_came { IfOk result (λ next. next.till ≡ 0 → 0 < length buffer.old → IsAtEnd (R.remaining reader.new)) }
    ensures failed { OnErr result (Keeps (R.remaining reader.old) (R.remaining reader.new)) }
{
    let n = reader.read(buffer)?;
    Ok(State {
        from: 0,
        till: n,
        more: 0 < n,
        ..state
    })
}
