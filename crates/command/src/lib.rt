// The commands: which one a word names, which one a program's arguments ask for, and which one a stored case tries.
#![tactic(auto)]

ghost use Rattle.std.specs.Prelude.{◌≡◌, ◌≤◌, length, take};
ghost use Rattle.command.specs.Named.{chosen_by, name_of};
ghost use Rattle.command.specs.Opened.{index_of, line_room, opened_of, word_of};

// The list of an input with a first line; the reader's answer to a text; a text's kept blocks; what there is; and a word that names none.
#[derive(Clone, Copy, PartialEq, Eq)]
pub enum Command {
    Lift,
    Read,
    Blocks,
    Help,
    Unknown,
}

// What a case tries, and the place where its input starts.
#[derive(Clone, Copy)]
pub struct Case {
    pub command: Command,
    pub at: usize,
}

// The command that a word names.
#[tactic(auto, unfolding(crate::specs::Named::name_of))]
pub fn named(word: &[u8]) -> Command
    ensures { result ≡ name_of word.now }
{
    match word {
        b"lift" => Command::Lift,
        b"read" => Command::Read,
        b"blocks" => Command::Blocks,
        b"help" => Command::Help,
        _ => Command::Unknown,
    }
}

// The command of a program that was started with so many arguments, its own name among them, of which this is the first behind its name.
#[tactic(auto, unfolding(crate::specs::Named::chosen_by))]
pub fn chosen(count: usize, word: &[u8]) -> Command
    ensures { result ≡ chosen_by count word.now }
{
    if count == 2 {
        return named(word);
    }
    Command::Help
}

// The bytes in which the first line of a case must end.
pub const LINE: usize = 128;

#[tactic(auto, using(std::proofs::lemmas::List::take_min))]
fn front(case: &[u8]) -> &[u8]
    ensures { result.now ≡ take line_room case.now }
{
    &case[..LINE.min(case.len())]
}

// The place of a byte in a line, or the line's length where it doesn't stand there.
fn find(line: &[u8], byte: u8) -> usize
    ensures place { result ≡ index_of byte line.now }
    ensures in_bounds { result ≤ length line.now }
{
    line.iter().position(|b| *b == byte).unwrap_or(line.len())
}

// The command that the first word of a line names.
#[tactic(auto, unfolding(crate::specs::Opened::word_of))]
fn first_word(line: &[u8]) -> Command
    ensures { result ≡ word_of line.now }
{
    let n = find(line, b' ');
    named(&line[..n])
}

// A case begins with a line that names its command, with a space and a remark behind it or not; then comes its input.
pub fn opened(case: &[u8]) -> Case
    ensures at_value { (result.command, result.at) ≡ opened_of case.now }
    ensures at_in_bounds { result.at ≤ length case.now }
{
    let head = front(case);
    let end = find(head, b'\n');
    if end == head.len() {
        return Case {
            command: Command::Unknown,
            at: 0,
        };
    }
    let command = first_word(&head[..end]);
    Case {
        command,
        at: end + 1,
    }
}
