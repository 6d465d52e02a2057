// The lab's program: logs and checkpoints of HC-128 and HC-256 at a bench. Each command is a task of the crate `lab`, with its files.
#![tactic(auto)]

mod commands;
mod files;
mod log;
mod say;
mod words;

use arrayvec::ArrayVec;
use lab::Command;
use say::Stop;
use std::rt::Runtime;
use words::Word;

// Runs the command that the first word names.
fn run<'a>(rt: &impl Runtime, words: &'a [Word]) -> Result<(), Stop<'a>> {
    let Some((command, words)) = words.split_first() else {
        return Err(Stop::Usage);
    };
    match lab::command_of(command.as_bytes()) {
        Some(Command::Cipher) => commands::cipher(rt, words),
        Some(Command::Describe) => commands::describe(rt, words),
        Some(Command::Recover) => commands::recover(rt, words),
        Some(Command::Open) => commands::open(rt, words),
        Some(Command::At) => commands::at(rt, words),
        Some(Command::Write) => commands::write(rt, words),
        Some(Command::SameRun) => commands::same_run(rt, words),
        Some(Command::Help) => Ok(print!(rt; "{}", say::USAGE)?),
        None => Err(Stop::Usage),
    }
}

// Runs the words of the command line, and says why it stops where it does.
fn run_line(rt: &impl Runtime) {
    let mut words = ArrayVec::new();
    match words::read(rt, &mut words) {
        Ok(()) => {
            if let Err(stop) = run(rt, &words) {
                stop.say(rt);
            }
        }
        Err(stop) => stop.say(rt),
    }
}

fn main(rt: HostRuntime) {
    run_line(&rt)
}
