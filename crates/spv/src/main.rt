// Runs the command that its argument names on one input, which it reads on standard input as far as it decides. Without an argument it names the commands.
#![tactic(auto)]

use command::{Command, chosen};
use std::env::{Env, FillError};
use std::io;

// The bytes of the longest argument that is looked at. No command has so long a name.
const WORD: usize = 4096;

// How many arguments the program was started with, its own name among them; more than three count as three.
fn arg_count(rt: &impl Env) -> usize {
    for i in 0..3usize {
        if let Err(FillError::NotPresent) = rt.arg(i, &mut []) {
            return i;
        }
    }
    3
}

// The command that the arguments ask for.
fn asked(rt: &impl Env) -> Command {
    let mut word = [0u8; WORD];
    match rt.arg(1, &mut word) {
        Ok(length) => chosen(arg_count(rt), &word[..length]),
        Err(_) => chosen(arg_count(rt), b""),
    }
}

fn main(rt: HostRuntime) -> io::Result<()> {
    print_command::run(&mut rt.reader(), &mut io::writer(&rt), asked(&rt))
}
