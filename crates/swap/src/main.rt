// The workshop program of document 01: reads pool.bin and limits.bin from the current folder and prints what the report tells of them.
// A plan must be made of whole files and be printed whole: for anything else it writes one line to standard error, and no more to standard output.
#![tactic(auto)]

mod failure;
mod files;

use failure::Failure;
use files::{load, write_whole};
use report::{COUNTED, ROOM, report};
use std::io;
use std::io::ErrorKind;
use std::process::ExitCode;
use std::rt::Files;

// The status of a program that the system ended because nobody reads what it writes: 128 and the number of that signal, SIGPIPE.
const UNREAD: u8 = 141;

fn main(rt: HostRuntime) -> ExitCode {
    let ended = match run(&rt) {
        Err(Failure::Output(error)) if error.kind() == ErrorKind::BrokenPipe => Err(error),
        // One line to standard error.
        Err(failure) => eprintln!(rt; "swap: {failure}"),
        Ok(()) => Ok(()),
    };
    match ended {
        Err(error) if error.kind() == ErrorKind::BrokenPipe => ExitCode::from(UNREAD),
        _ => ExitCode::SUCCESS,
    }
}

fn run(rt: &(impl Files + Print)) -> Result<(), Failure> {
    let mut pool = [0u8; COUNTED];
    let pool = load(rt, "pool.bin", &mut pool).map_err(Failure::Pool)?;
    // A third byte shows that the file is too long.
    let mut limits = [0u8; 3];
    let limits = load(rt, "limits.bin", &mut limits).map_err(Failure::Limits)?;
    print(rt, pool, limits).map_err(Failure::Output)
}

// The text's length is told beside its buffer, as `report` tells it: memory is fixed, so no String.
fn print(rt: &impl Print, pool: &[u8], limits: &[u8]) -> io::Result<()> {
    let mut text = [0u8; ROOM];
    match report(pool, limits, &mut text) {
        Some(length) => write_whole(&mut io::writer(rt), &text[..length]),
        None => Ok(()),
    }
}
