// Clearing: pool bytes, limits, both tables and a plan buffer; the plan is the best of the legal plans: most members, then most weeks,
// then the records that come first.
ghost use Rattle.std.specs.Prelude.{◌≡◌};
ghost use Rattle.pool.specs.Refusals.{accepted, outcome_of, tested};
ghost use Rattle.clearing.specs.Clearing.{cleared_outcome, lent_tests, clearable, clearable_value};
ghost use Rattle.clearing.specs.computed.Cleared.{clear_outcome, exchanges_cleared, best_cleared, plan_cleared};

use crate::choosing::write_plan;
use exchanges::{fill_exchanges, test_exchanges};
use plans::PlanRecord;
use pool::{Cause, Limits, Pool, Refusal};
use reading::read_pool;
use tables::{MEMBER, fill_best};

// The plan in short: the members served, and the number of records written, since C lends the plan buffer.
#[derive(Clone, Copy, Debug, PartialEq, Eq)]
pub struct Cleared {
    pub served: u8,
    pub records: usize,
}

// Clears the pool that the bytes hold, or refuses (the causes of reading, and 7 to 10) and leaves all that is lent as it was.
// Tables and buffer come one by one, here and below, as C lends them. What `clear` and `clear_value` share is the latter: only the promise is told twice.
pub fn clear(
    pool: &[u8],
    limits: Limits,
    exchanges: &mut [u16],
    best: &mut [u32],
    plan: &mut [u8],
) -> Result<Cleared, Refusal>
    ensures outcome { cleared_outcome result ≡ clear_outcome limits (clearable pool.now limits exchanges.old best.old plan.old) }
    ensures exchanges { exchanges.new ≡ exchanges_cleared limits (clearable pool.now limits exchanges.old best.old plan.old) exchanges.old }
    ensures best { best.new ≡ best_cleared limits (clearable pool.now limits exchanges.old best.old plan.old) best.old }
    ensures plan { plan.new ≡ plan_cleared limits (clearable pool.now limits exchanges.old best.old plan.old) plan.old }
{
    clear_value(read_pool(pool)?, limits, exchanges, best, plan)
}

// Clears a pool value, or refuses (causes 6 to 10) and leaves all that is lent as it was. All is tested before anything is written.
pub fn clear_value(
    pool: Pool,
    limits: Limits,
    exchanges: &mut [u16],
    best: &mut [u32],
    plan: &mut [u8],
) -> Result<Cleared, Refusal>
    ensures outcome { cleared_outcome result ≡ clear_outcome limits (clearable_value pool limits exchanges.old best.old plan.old) }
    ensures exchanges { exchanges.new ≡ exchanges_cleared limits (clearable_value pool limits exchanges.old best.old plan.old) exchanges.old }
    ensures best { best.new ≡ best_cleared limits (clearable_value pool limits exchanges.old best.old plan.old) best.old }
    ensures plan { plan.new ≡ plan_cleared limits (clearable_value pool limits exchanges.old best.old plan.old) plan.old }
{
    test_lent(pool, limits, exchanges.len(), best.len(), plan.len())?;
    Ok(clear_accepted(pool, limits, exchanges, best, plan))
}

// Fills both tables and writes the plan: what is lent has passed all tests, so both filling calls accept it.
fn clear_accepted(
    pool: Pool,
    limits: Limits,
    exchanges: &mut [u16],
    best: &mut [u32],
    plan: &mut [u8],
) -> Cleared
    requires { accepted pool ≡ clearable_value pool limits exchanges.old best.old plan.old }
    ensures outcome { accepted (result.served, result.records) ≡ clear_outcome limits (accepted pool) }
    ensures exchanges { exchanges.new ≡ exchanges_cleared limits (accepted pool) exchanges.old }
    ensures best { best.new ≡ best_cleared limits (accepted pool) best.old }
    ensures plan { plan.new ≡ plan_cleared limits (accepted pool) plan.old }
{
    fill_exchanges(pool, limits, exchanges).unwrap();
    let entries = fill_best(pool, exchanges, best).unwrap().entries;
    Cleared {
        records: write_plan(pool, limits, exchanges, best, plan),
        served: (best[entries - 1] / MEMBER) as u8,
    }
}

// Causes 6 to 10, by the lengths of what is lent alone: no entry is read.
fn test_lent(
    pool: Pool,
    limits: Limits,
    exchanges: usize,
    best: usize,
    plan: usize,
) -> Result<(), Refusal>
    ensures { outcome_of result pool ≡ tested (lent_tests pool limits exchanges best plan) 0 (accepted pool) }
{
    test_exchanges(pool, limits, exchanges)?;
    // By a shift, as in `test_exchanges`: before there is a type of a pool that fits.
    let entries = 1usize << pool.size;
    let bytes = PlanRecord::WIDTH * usize::from(pool.size);
    if best < entries {
        return Err(Cause::BestTable.into());
    }
    if plan < bytes {
        return Err(Cause::PlanBuffer.into());
    }
    Ok(())
}
