// The limits of exchanges: Lc members in a cycle, Lp members in a chain.
ghost use Rattle.std.specs.Prelude.{◌≡◌, ◌≤◌};
ghost use Rattle.pool.specs.Refusals.{outcome, outcome_of};
ghost use Rattle.pool.specs.Limits.{limits_fit, test_limits, limits_of, most_vertices};

use crate::refusal::{Cause, Refusal};

#[derive(Clone, Copy, Debug, PartialEq, Eq)]
pub struct Limits {
    pub cycle: u8,
    pub chain: u8,
}

impl Limits {
    pub const MOST: u8 = 14;

    // Limits of these numbers, unless one is above 14 (cause 7).
    pub fn new(cycle: u8, chain: u8) -> Result<Limits, Refusal>
        ensures { outcome result ≡ test_limits (limits_of cycle chain) }
    {
        let limits = Limits { cycle, chain };
        limits.test()?;
        Ok(limits)
    }

    // Cause 7: the fields are public, so every call that is lent limits tests them.
    // `Pool::test` is the same by cause 6: a trait for both, with its law, would be longer than they are.
    pub fn test(self) -> Result<(), Refusal>
        ensures { outcome_of result self ≡ test_limits self }
    {
        if !self.fit() {
            return Err(Cause::Limit.into());
        }
        Ok(())
    }

    // How many vertices an exchange may have. Lp counts the members of a chain, and not its altruist.
    // By a flag, as `is_altruist` tells it, and not by the kind: the kinds of exchanges are those of plan records, in a crate above.
    pub fn most_vertices(self, of_chain: bool) -> usize
        ensures most { result ≡ most_vertices self of_chain }
        ensures small { result ≤ 256 }
    {
        if of_chain {
            usize::from(self.chain) + 1
        } else {
            usize::from(self.cycle)
        }
    }

    fn fit(self) -> bool
        ensures { result ≡ limits_fit self }
    {
        self.cycle <= Limits::MOST && self.chain <= Limits::MOST
    }
}
