// Whose a record is, told by its first byte.
ghost use Rattle.std.specs.Prelude.{◌≡◌, ◌≢◌, MatchResult};
ghost use Rattle.reading.specs.inner.Reading.{byte_of};
ghost use Rattle.pool.specs.declared.refusal.Cause.TheVariants.{RecordKind};

use pool::Cause;

#[derive(Clone, Copy, PartialEq, Eq)]
pub(crate) enum Kind {
    House,
    Member,
}

// As for `ExchangeKind` in plans, with other bytes: an impl by a macro of our own is refused.
impl TryFrom<u8> for Kind {
    type Error = Cause;

    ghost try_from_gives = { λ code r. MatchResult r (λ kind. code ≡ byte_of kind) (λ cause. (cause ≡ RecordKind) × (code ≢ 72) × (code ≢ 77)) };

    fn try_from(code: u8) -> Result<Kind, Cause> {
        match code {
            72 => Ok(Kind::House),
            77 => Ok(Kind::Member),
            _ => Err(Cause::RecordKind),
        }
    }
}
