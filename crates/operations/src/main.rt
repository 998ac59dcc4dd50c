// Runs single operations of the libraries, so that the tests can compare them. A command is 16 bytes of standard input; its answer is numbers,
// one to a line. Numbers of more than one byte have their lowest byte first. Anything that is no command ends the program.
//
// | byte 0 | operation | bytes 1 to 3 | bytes 8 to 15 | behind the command | answer |
// |---|---|---|---|---|---|
// | S | set | vertex, set (2) | | | lowest, size, with the vertex, without it, 1 where it has it and else 0 |
// | L | limits | Lc, Lp | | | 0, Lc, Lp, or the number and spot of the refusal |
// | R | record k | 0, length (2) | k | 256 bytes, of which the first are the plan | the record's length and bytes |
// | V | clear a pool value | Lc, Lp | | 58 bytes: places, houses, 14 sets and the weeks of 14 places | 0, served, records and all bytes of the plan, or the number and spot of the refusal |
#![tactic(auto)]

mod answers;
mod command;
mod input;

use answers::{clear_next, try_limits, try_record, try_set};
use command::Command;
use input::read_full;
use std::io;
use std::io::Read;

// Every loop must end; no test has so many.
const MOST_COMMANDS: usize = 1000000;

fn main(rt: HostRuntime) -> io::Result<()> {
    for _ in 0..MOST_COMMANDS {
        let Some(command) = next_command(&mut rt.stdin())? else {
            return Ok(());
        };
        run(&rt, &mut rt.stdin(), command)?;
    }
    Ok(())
}

// The next command, if there is one.
fn next_command(input: &mut impl Read) -> io::Result<Option<Command>> {
    let mut bytes = [0u8; 16];
    if read_full(input, &mut bytes)? < bytes.len() {
        return Ok(None);
    }
    Ok(Command::try_from(bytes).ok())
}

// Output and input side by side, here and in `answers`: two operations need no input, and `read_full` needs no output.
fn run(rt: &impl Print, input: &mut impl Read, command: Command) -> io::Result<()> {
    match command {
        Command::Set { set, vertex } => try_set(rt, set, vertex),
        Command::Limits { cycle, chain } => try_limits(rt, cycle, chain),
        Command::Record { length, k } => try_record(rt, input, length, k),
        Command::Value { limits } => clear_next(rt, input, limits),
    }
}
