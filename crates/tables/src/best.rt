// Filling the best table.
ghost use Rattle.std.specs.Prelude.{◌≡◌};
ghost use Rattle.pool.specs.Refusals.{outcome};
ghost use Rattle.tables.specs.Calls.{best_outcome, best_left};

use crate::worths::VertexWorths;
use pool::{Cause, Pool, Refusal};

// What filling comes to: the entries written, 2 to the power of the number of places, and the parts tried over all sets.
#[derive(Clone, Copy, Debug, PartialEq, Eq)]
pub struct BestFilled {
    pub entries: usize,
    pub tried: usize,
}

// Fills the best table from the marks of a lent exchange table, whatever that holds, or refuses: 6, 8, 9.
pub fn fill_best(pool: Pool, exchanges: &[u16], table: &mut [u32]) -> Result<BestFilled, Refusal>
    ensures outcome { outcome result ≡ best_outcome pool exchanges.now table.old }
    ensures left { table.new ≡ best_left pool exchanges.now table.old }
{
    pool.test()?;
    // By a shift, as in `test_exchanges` (exchanges): before there is a type of a pool that fits.
    let entries = 1usize << pool.size;
    if exchanges.len() < entries {
        return Err(Cause::ExchangeTable.into());
    }
    if table.len() < entries {
        return Err(Cause::BestTable.into());
    }
    let tried = VertexWorths::new(pool).fill_best(exchanges, table);
    Ok(BestFilled { entries, tried })
}
