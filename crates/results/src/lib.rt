// What the reader and the entry answer, and the numbers that a caller of the library gets of it.
#![tactic(auto)]

ghost use Rattle.std.specs.Prelude.{◌≡◌};
ghost use Rattle.results.specs.Told.{lift_number, next_after, no_list, read_number, words_after};

use refusals::Refusal;

// A list: its count of words, and the next free id.
#[derive(Clone, Copy)]
pub struct Lifted {
    pub words: usize,
    pub next: u32,
}

// Why there is no list, and after 11 how many words it has.
#[derive(Clone, Copy)]
pub struct Unlifted {
    pub refusal: Refusal,
    pub wanted: usize,
}

// Any other refusal wants no words.
impl From<Refusal> for Unlifted {
    ghost from_gives = { λ r e. e ≡ no_list r };

    fn from(refusal: Refusal) -> Unlifted {
        Unlifted { refusal, wanted: 0 }
    }
}

// 0 for a text that is read, else the refusal's number.
pub fn read_number(r: Result<(), Refusal>) -> u32
    ensures { result ≡ read_number r }
{
    match r {
        Ok(()) => 0,
        Err(x) => u32::from(x),
    }
}

// 0 for a list, else the refusal's number.
pub fn lift_number(r: Result<Lifted, Unlifted>) -> u32
    ensures { result ≡ lift_number r }
{
    match r {
        Ok(_) => 0,
        Err(e) => u32::from(e.refusal),
    }
}

// What `words` holds after a call, where it held `old` before: a list's count, or after 11 how many words are wanted.
pub fn words_after(r: Result<Lifted, Unlifted>, old: usize) -> usize
    ensures { result ≡ words_after r old }
{
    match r {
        Ok(list) => list.words,
        Err(e) if e.refusal == Refusal::Output => e.wanted,
        Err(_) => old,
    }
}

// What `next` holds then: a refusal leaves it as it was.
pub fn next_after(r: Result<Lifted, Unlifted>, old: u32) -> u32
    ensures { result ≡ next_after r old }
{
    match r {
        Ok(list) => list.next,
        Err(_) => old,
    }
}
