// The kinds of exchanges, each told by byte 14 of its record.
ghost use Rattle.std.specs.Prelude.{◌≡◌, ◌≢◌, MatchResult};
ghost use Rattle.pool.specs.declared.refusal.Cause.TheVariants.{PlanEnd};
ghost use Rattle.plans.specs.Kind.{byte_of};

use pool::Cause;

// A chain, and a cycle (01: ring).
#[derive(Clone, Copy, Debug, PartialEq, Eq)]
pub enum ExchangeKind {
    Chain = 67,
    Ring = 82,
}

// The byte that tells a kind.
impl From<ExchangeKind> for u8 {
    ghost from_gives = { λ kind code. code ≡ byte_of kind };

    fn from(kind: ExchangeKind) -> u8 {
        kind as u8
    }
}

// The kind that a byte tells; 17 where it tells none.
impl TryFrom<u8> for ExchangeKind {
    type Error = Cause;

    ghost try_from_gives = { λ code r. MatchResult r (λ kind. code ≡ byte_of kind) (λ cause. (cause ≡ PlanEnd) × (code ≢ 67) × (code ≢ 82)) };

    fn try_from(code: u8) -> Result<ExchangeKind, Cause> {
        match code {
            67 => Ok(ExchangeKind::Chain),
            82 => Ok(ExchangeKind::Ring),
            _ => Err(Cause::PlanEnd),
        }
    }
}
