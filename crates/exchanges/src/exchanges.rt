// The exchange table: for every set of vertices, those that can stand last in an exchange that uses exactly the set and begins
// at its lowest vertex.
ghost use Rattle.std.specs.Prelude.{◌≡◌};
ghost use Rattle.pool.specs.Refusals.{accepted, outcome, outcome_of, tested};
ghost use Rattle.exchanges.specs.ExchangesCall.{exchanges_tests, exchanges_outcome, exchanges_left};

use crate::filling::Filling;
use pool::{Cause, Limits, Pool, Refusal};

// Fills the entries of all sets of the pool's places, and tells their number. Refuses by 6, 7 and 8, in that order, and then leaves the
// table as it was.
// Pool and limits stay side by side in public calls: each is tested by itself, and the best table takes no limits.
pub fn fill_exchanges(pool: Pool, limits: Limits, table: &mut [u16]) -> Result<usize, Refusal>
    ensures outcome { outcome result ≡ exchanges_outcome pool limits table.old }
    ensures left { table.new ≡ exchanges_left pool limits table.old }
{
    test_exchanges(pool, limits, table.len())?;
    let filling = Filling::new(pool, limits);
    filling.fill_by_lowest(table);
    Ok(filling.sets())
}

// Causes 6, 7 and 8, by the length of the table alone: no entry is read, so none has to be lent.
pub fn test_exchanges(pool: Pool, limits: Limits, table: usize) -> Result<(), Refusal>
    ensures { outcome_of result pool ≡ tested (exchanges_tests pool limits table) 0 (accepted pool) }
{
    pool.test()?;
    limits.test()?;
    // By a shift: the lengths are tested before there is a type of a pool that fits, and a public method of `Pool` may ask for nothing.
    if table < 1usize << pool.size {
        return Err(Cause::ExchangeTable.into());
    }
    Ok(())
}
