// Clearing, for C.
ghost use Rattle.std.specs.Prelude.{◌≡◌};
ghost use Rattle.pool.specs.Limits.{limits_of};
ghost use Rattle.clearing.specs.Clearing.{clearable};
ghost use Rattle.clearing.specs.computed.Cleared.{clear_outcome, exchanges_cleared, best_cleared, plan_cleared};
ghost use Rattle.capi.specs.Answers.{clear_answer};

use crate::answer::Answer;
use pool::Limits;

// Members served and records written, of the best plan: most members, then most weeks, then the records that come first.
// C tells the limits by their two numbers.
#[unsafe(no_mangle)]
pub extern "C" fn swap_clear(
    pool: &[u8],
    lc: u8,
    lp: u8,
    exchanges: &mut [u16],
    best: &mut [u32],
    plan: &mut [u8],
) -> Answer
    ensures answer { result ≡ clear_answer (clear_outcome (limits_of lc lp) (clearable pool.now (limits_of lc lp) exchanges.old best.old plan.old)) }
    ensures exchanges { exchanges.new ≡ exchanges_cleared (limits_of lc lp) (clearable pool.now (limits_of lc lp) exchanges.old best.old plan.old) exchanges.old }
    ensures best { best.new ≡ best_cleared (limits_of lc lp) (clearable pool.now (limits_of lc lp) exchanges.old best.old plan.old) best.old }
    ensures plan { plan.new ≡ plan_cleared (limits_of lc lp) (clearable pool.now (limits_of lc lp) exchanges.old best.old plan.old) plan.old }
{
    let limits = Limits {
        cycle: lc,
        chain: lp,
    };
    clearing::clear(pool, limits, exchanges, best, plan)
        .map(|cleared| (u64::from(cleared.served), cleared.records as u64))
        .into()
}
