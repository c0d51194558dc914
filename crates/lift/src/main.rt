// Reads a line `(first N)` and a text on standard input, as far as they decide, and prints the text's list, or `(refused N)`.
#![tactic(auto)]

use command::Command;
use std::io;

fn main(rt: HostRuntime) -> io::Result<()> {
    print_command::run(&mut rt.reader(), &mut io::writer(&rt), Command::Lift)
}
