// The causes of document 01's table and of document 02's requests, and what a refusal tells.
ghost use Rattle.std.specs.Prelude.{◌≡◌};
ghost use Rattle.pool.specs.Refusals.{number_of};

#[derive(Clone, Copy, Debug, PartialEq, Eq)]
pub enum Cause {
    PoolLength,
    PoolSize,
    RecordKind,
    RecordClass,
    AltruistAfterMember,
    PoolValue,
    Limit,
    ExchangeTable,
    BestTable,
    PlanBuffer,
    PlanLength,
    PlanVertex,
    VertexMet,
    PlanOrder,
    ArcMissing,
    ExchangeLength,
    PlanEnd,
    WeeksOrMachine,
    RecordGrade,
    AltruistTakes,
}

impl Cause {
    // The number that the documents give the cause, by a match, as 01 asks.
    pub fn number(self) -> u8
        ensures { result ≡ number_of self }
    {
        match self {
            Cause::PoolLength => 1,
            Cause::PoolSize => 2,
            Cause::RecordKind => 3,
            Cause::RecordClass => 4,
            Cause::AltruistAfterMember => 5,
            Cause::PoolValue => 6,
            Cause::Limit => 7,
            Cause::ExchangeTable => 8,
            Cause::BestTable => 9,
            Cause::PlanBuffer => 10,
            Cause::PlanLength => 11,
            Cause::PlanVertex => 12,
            Cause::VertexMet => 13,
            Cause::PlanOrder => 14,
            Cause::ArcMissing => 15,
            Cause::ExchangeLength => 16,
            Cause::PlanEnd => 17,
            Cause::WeeksOrMachine => 18,
            Cause::RecordGrade => 19,
            Cause::AltruistTakes => 20,
        }
    }
}

// The cause met and its spot: the record, and as 01 asks 0 and no `None` where there is none.
#[derive(Clone, Copy, Debug, PartialEq, Eq)]
pub struct Refusal {
    pub cause: Cause,
    pub at: usize,
}

// What meets a cause as a whole is refused at spot 0.
impl From<Cause> for Refusal {
    ghost from_gives = { λ c r. r ≡ record { cause = c; at = 0 } };

    fn from(cause: Cause) -> Refusal {
        Refusal { cause, at: 0 }
    }
}
