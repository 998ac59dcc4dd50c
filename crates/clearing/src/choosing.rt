// The plan chosen exchange by exchange over the two tables: of the legal plans that are worth most the one whose records come first.
ghost use Rattle.std.specs.Prelude.{◌≡◌, ◌-◌, ◌*◌, ◌^◌, ◌≤◌, T, length};
ghost use Rattle.pool.specs.Limits.{limits_fit};
ghost use Rattle.pool.specs.Value.{pool_fits};
ghost use Rattle.clearing.specs.computed.Cleared.{plan_of, plan_written};
ghost use Rattle.clearing.specs.inner.Taking.{TablesHold, Clean};

use crate::choice::Choice;
use plans::PlanRecord;
use pool::{Limits, Pool, all_givers};
use sets::VertexSet;

impl Choice<'_> {
    // Step by step, while something can be gained from the free vertices: an exchange is taken from the lowest on, or that vertex is
    // left out.
    fn choose(&self, dead: &mut [u16], plan: &mut [u8]) -> usize
        requires dead_room { 2 ^ self.now.pool.size ≤ length dead.old }
        requires clean { Clean (2 ^ self.now.pool.size - 1) dead.old }
        requires room { 16 * self.now.pool.size ≤ length plan.old }
        ensures records { result ≡ length (plan_of self.now.pool self.now.limits) }
        ensures written { plan.new ≡ plan_written self.now.pool self.now.limits plan.old }
    {
        let mut free = VertexSet::below(self.pool.size);
        let mut records = 0;
        // No range or chain: the table tells when to stop, and a turn may write no record.
        while self.best[usize::from(free.0)] != 0 {
            if let Some(taken) = self.take_exchange(free, dead) {
                let at = PlanRecord::WIDTH * records;
                plan[at..at + PlanRecord::WIDTH].copy_from_slice(&taken.bytes);
                records += 1;
                free = free - taken.set;
            } else {
                free = free.without(free.lowest());
            }
        }
        records
    }
}

// Writes the records of the plan at the front of the plan buffer, and tells how many there are.
// The number goes beside the buffer, since C lends the buffer: no Vec.
pub(crate) fn write_plan(
    pool: Pool,
    limits: Limits,
    exchanges: &[u16],
    best: &[u32],
    plan: &mut [u8],
) -> usize
    requires fitting_pool { T (pool_fits pool) }
    requires fitting_limits { T (limits_fit limits) }
    requires hold { TablesHold pool limits exchanges.now best.now }
    requires room { 16 * pool.size ≤ length plan.old }
    ensures records { result ≡ length (plan_of pool limits) }
    ensures written { plan.new ≡ plan_written pool limits plan.old }
{
    let choice = Choice {
        pool,
        limits,
        givers: all_givers(pool),
        exchanges,
        best,
    };
    if pool.size <= Pool::FEW {
        choice.choose(&mut [0; Pool::FEW_SETS], plan)
    } else {
        choice.choose(&mut [0; Pool::SETS], plan)
    }
}
