// The checker, for C.
ghost use Rattle.std.specs.Prelude.{◌≡◌};
ghost use Rattle.pool.specs.Limits.{limits_of};
ghost use Rattle.plans.specs.CheckCall.{check_outcome};
ghost use Rattle.capi.specs.Answers.{count_answer};

use crate::answer::Answer;
use pool::Limits;

// Members served by plan bytes that are the record form of a legal plan.
// C tells the limits by their two numbers.
#[unsafe(no_mangle)]
pub extern "C" fn swap_check(pool: &[u8], lc: u8, lp: u8, plan: &[u8]) -> Answer
    ensures { result ≡ count_answer (check_outcome pool.now (limits_of lc lp) plan.now) }
{
    let limits = Limits {
        cycle: lc,
        chain: lp,
    };
    plans::check(pool, limits, plan)
        .map(|served| (u64::from(served), 0))
        .into()
}
