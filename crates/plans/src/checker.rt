// The checker: are plan bytes the record form of a legal plan, and how many members does it serve?
ghost use Rattle.std.specs.Prelude.{◌≡◌};
ghost use Rattle.pool.specs.Refusals.{outcome};
ghost use Rattle.pool.specs.Value.{graph_of};
ghost use Rattle.plans.specs.Check.{check};
ghost use Rattle.plans.specs.CheckCall.{check_outcome};

use crate::check_record::Before;
use crate::record_part::PlanRecord;
use crate::rules::Rules;
use pool::{Cause, Limits, Refusal};
use reading::read_pool;
use sets::VertexSet;

// The members served, or the first cause met: those of reading the pool, 7, and then 11 to 17.
pub fn check(pool: &[u8], limits: Limits, plan: &[u8]) -> Result<u8, Refusal>
    ensures { outcome result ≡ check_outcome pool.now limits plan.now }
{
    let pool = read_pool(pool)?;
    limits.test()?;
    Rules { pool, limits }.check_records(plan)
}

impl Rules {
    // Causes 11 to 17.
    fn check_records(&self, plan: &[u8]) -> Result<u8, Refusal>
        ensures { outcome result ≡ check (graph_of self.now.pool) self.now.limits.cycle self.now.limits.chain plan.now }
    {
        let (records, rest) = plan.as_chunks::<{ PlanRecord::WIDTH }>();
        if !rest.is_empty() {
            return Err(Cause::PlanLength.into());
        }
        let mut before = Before {
            met: VertexSet::EMPTY,
            least: 0,
            served: 0,
        };
        for (at, record) in records.iter().enumerate() {
            before = self
                .check_record(before, record)
                .map_err(|cause| Refusal { cause, at })?;
        }
        Ok(before.served)
    }
}
