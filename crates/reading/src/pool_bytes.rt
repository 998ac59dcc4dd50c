// Reading pool bytes to a pool value.
ghost use Rattle.std.specs.Prelude.{◌≡◌};
ghost use Rattle.pool.specs.Refusals.{outcome};
ghost use Rattle.reading.specs.Records.{read_pool};

use crate::fields::PoolRecord;
use crate::places::Places;
use pool::{Cause, Pool, Refusal};

// The pool that the bytes hold, or the first refusal.
#[tactic(auto, unfolding(pool::specs::Refusals::tested, crate::specs::Records::read_pool))]
pub fn read_pool(bytes: &[u8]) -> Result<Pool, Refusal>
    ensures { outcome result ≡ read_pool bytes.now }
{
    let (records, rest) = bytes.as_chunks::<{ PoolRecord::WIDTH }>();
    if !rest.is_empty() {
        return Err(Cause::PoolLength.into());
    }
    if PoolRecord::MOST < records.len() {
        return Err(Cause::PoolSize.into());
    }
    let places = Places { records };
    Ok(Pool {
        size: records.len() as u8,
        altruists: places.count_houses()?,
        gives: places.takers(),
        weeks: places.waited(),
    })
}
