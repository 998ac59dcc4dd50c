// The operations, each with the answer that it tells.
use crate::input::read_full;
use clearing::clear_value;
use plans::{PlanRecord, record};
use pool::{Limits, Pool, Refusal};
use sets::VertexSet;
use std::io;
use std::io::Read;

// How many places the largest pool has: `PoolRecord::MOST` of reading, on which this program does not rest.
const PLACES: usize = 14;

// The tests ask for a set's number; `Debug` would print the type's name with it.
// Here and below each number is written by itself: where a write fails, those before it are out.
pub(crate) fn try_set(rt: &impl Print, set: VertexSet, v: u8) -> io::Result<()> {
    println!(rt; "{}", set.lowest())?;
    println!(rt; "{}", set.size())?;
    println!(rt; "{}", set.with(v).0)?;
    println!(rt; "{}", set.without(v).0)?;
    println!(rt; "{}", u8::from(set.has(v)))
}

pub(crate) fn try_limits(rt: &impl Print, cycle: u8, chain: u8) -> io::Result<()> {
    match Limits::new(cycle, chain) {
        Ok(limits) => {
            println!(rt; "0")?;
            println!(rt; "{}", limits.cycle)?;
            println!(rt; "{}", limits.chain)
        }
        Err(refusal) => say_refused(rt, refusal),
    }
}

// The command's form (src/main): 256 bytes, of which the first `length` are the plan.
pub(crate) fn try_record(
    rt: &impl Print,
    input: &mut impl Read,
    length: u16,
    k: usize,
) -> io::Result<()> {
    let mut plan = [0u8; 256];
    read_full(input, &mut plan)?;
    let n = plan.len().min(usize::from(length));
    let part = record(&plan[..n], k);
    println!(rt; "{}", part.len())?;
    say_all(rt, part)
}

// Clears a pool value that stands on standard input.
// No heap: the arrays stand in this frame, as in `report`; a struct that makes them would hand 98,528 bytes back by value.
pub(crate) fn clear_next(rt: &impl Print, input: &mut impl Read, limits: Limits) -> io::Result<()> {
    let mut exchanges = [0u16; Pool::SETS];
    let mut best = [0u32; Pool::SETS];
    let mut plan = [0u8; PlanRecord::PLAN];
    let pool = next_value(input)?;
    match clear_value(pool, limits, &mut exchanges, &mut best, &mut plan) {
        Ok(cleared) => {
            println!(rt; "0")?;
            println!(rt; "{}", cleared.served)?;
            println!(rt; "{}", cleared.records)?;
            say_all(rt, &plan)
        }
        Err(refusal) => say_refused(rt, refusal),
    }
}

// Places, houses, the sets and the weeks.
fn next_value(input: &mut impl Read) -> io::Result<Pool> {
    let mut counts = [0u8; 2];
    read_full(input, &mut counts)?;
    let [size, altruists] = counts;
    let gives = next_numbers(input)?;
    let weeks = next_numbers(input)?;
    Ok(Pool {
        size,
        altruists,
        gives,
        weeks,
    })
}

// A number of two bytes for each place.
fn next_numbers(input: &mut impl Read) -> io::Result<[u16; PLACES]> {
    let mut numbers = [[0u8; 2]; PLACES];
    read_full(input, numbers.as_flattened_mut())?;
    Ok(numbers.map(|bytes| u16::from_le_bytes(bytes)))
}

fn say_refused(rt: &impl Print, refusal: Refusal) -> io::Result<()> {
    println!(rt; "{}", refusal.cause.number())?;
    println!(rt; "{}", refusal.at)
}

fn say_all(rt: &impl Print, bytes: &[u8]) -> io::Result<()> {
    for byte in bytes {
        println!(rt; "{byte}")?;
    }
    Ok(())
}
