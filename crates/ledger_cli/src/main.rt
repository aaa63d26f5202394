//! The program of the ledger.
//!
//! The commands, and what each does, stand in the table of `cli_words`.
//!
//! `commands::program` is all of it but the machine: it takes the words of the command line, the
//! files by `cli_lines::Files`, and where lines are printed. `Disk` is the files of a machine, and
//! `Terminal` tells how far a replay is. `threads` and `public` are here; the other commands do their
//! work in `cli_session`, `cli_show` and `cli_peer`.
#![tactic(auto)]

mod commands;
mod disk;
mod opening;
mod public;
mod terminal;
mod threading;
mod trouble;
mod verdict;

use cli_lines::Printer;
pub use commands::program;
pub use disk::Disk;
use std::io::ErrorKind;
use std::process::ExitCode;
use std::{env, io};

/// The words of the command line. None where one is not UTF-8: then they name no task, as no words
/// do.
fn words_of(rt: &HostRuntime) -> io::Result<Vec<String>> {
    let mut words = Vec::new(rt.alloc());
    match env::args(rt) {
        Ok(args) => {
            for word in args.skip(1) {
                words.push(word)?;
            }
        }
        Err(error) if error.kind() == ErrorKind::InvalidData => {}
        Err(error) => return Err(error),
    }
    Ok(words)
}

/// Runs the program on the words of the command line.
fn main(rt: HostRuntime) -> io::Result<ExitCode> {
    let words = words_of(&rt)?;
    let mut output = io::writer(&rt);
    let status = program(
        &rt,
        rt.alloc(),
        &words,
        &mut Disk::new(&rt),
        &mut Printer::new(rt.alloc(), &mut output)?,
    );
    Ok(ExitCode::from(status))
}
