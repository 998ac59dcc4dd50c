// Filling the two tables, for C, which has no generic calls: one call for each.
ghost use Rattle.std.specs.Prelude.{◌≡◌};
ghost use Rattle.pool.specs.Limits.{limits_of};
ghost use Rattle.tables.specs.Calls.{best_outcome, best_left};
ghost use Rattle.exchanges.specs.ExchangesCall.{exchanges_outcome, exchanges_left};
ghost use Rattle.capi.specs.Answers.{pool_from, count_answer, best_answer};

use crate::answer::Answer;
use pool::{Limits, Pool};

// Entries written: the exchange table of a pool value under limits.
// C tells the limits by their two numbers, and here and below a pool value by its parts.
#[unsafe(no_mangle)]
pub extern "C" fn swap_fill_exchanges(
    places: u8,
    houses: u8,
    gives: &[u16; 14],
    weeks: &[u16; 14],
    lc: u8,
    lp: u8,
    table: &mut [u16],
) -> Answer
    ensures answer { result ≡ count_answer (exchanges_outcome (pool_from places houses gives.now weeks.now) (limits_of lc lp) table.old) }
    ensures left { table.new ≡ exchanges_left (pool_from places houses gives.now weeks.now) (limits_of lc lp) table.old }
{
    let value = pool_from(places, houses, gives, weeks);
    let limits = Limits {
        cycle: lc,
        chain: lp,
    };
    exchanges::fill_exchanges(value, limits, table)
        .map(|entries| (entries as u64, 0))
        .into()
}

// Entries written and parts tried: the best table of the sets marked in a lent exchange table, which may hold anything.
#[unsafe(no_mangle)]
pub extern "C" fn swap_fill_best(
    places: u8,
    houses: u8,
    gives: &[u16; 14],
    weeks: &[u16; 14],
    exchanges: &[u16],
    table: &mut [u32],
) -> Answer
    ensures answer { result ≡ best_answer (best_outcome (pool_from places houses gives.now weeks.now) exchanges.now table.old) }
    ensures left { table.new ≡ best_left (pool_from places houses gives.now weeks.now) exchanges.now table.old }
{
    let value = pool_from(places, houses, gives, weeks);
    tables::fill_best(value, exchanges, table)
        .map(|filled| (filled.entries as u64, filled.tried as u64))
        .into()
}

// The pool value that C tells by its parts.
fn pool_from(places: u8, houses: u8, gives: &[u16; 14], weeks: &[u16; 14]) -> Pool
    ensures { result ≡ pool_from places houses gives.now weeks.now }
{
    Pool {
        size: places,
        altruists: houses,
        gives: *gives,
        weeks: *weeks,
    }
}
