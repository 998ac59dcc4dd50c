// Reading a pool, for C.
ghost use Rattle.std.specs.Prelude.{◌≡◌};
ghost use Rattle.reading.specs.Records.{read_pool};
ghost use Rattle.pool.specs.Refusals.{left_by};
ghost use Rattle.capi.specs.Answers.{pool_answer};

use crate::answer::Answer;
use pool::Pool;

// Places and houses; gives holds the pool value's sets and weeks its weeks, and both are untouched on a refusal.
// C has no pool value: it gets the parts, the two arrays in memory of its own.
#[unsafe(no_mangle)]
pub extern "C" fn swap_read_pool(
    bytes: &[u8],
    gives: &mut [u16; 14],
    weeks: &mut [u16; 14],
) -> Answer
    ensures answer { result ≡ pool_answer (read_pool bytes.now) }
    ensures gives { gives.new ≡ left_by (read_pool bytes.now) (λ p. p.gives) gives.old }
    ensures weeks { weeks.new ≡ left_by (read_pool bytes.now) (λ p. p.weeks) weeks.old }
{
    match reading::read_pool(bytes) {
        Ok(pool) => {
            let Pool {
                size,
                altruists,
                gives: sets,
                weeks: waited,
            } = pool;
            *gives = sets;
            *weeks = waited;
            Answer::accepted(u64::from(size), u64::from(altruists))
        }
        Err(refusal) => refusal.into(),
    }
}
