// The tests of a record.
ghost use Rattle.std.specs.Prelude.{◌≡◌, List, ℕ, length};
ghost use Rattle.pool.specs.Refusals.{accepted, tested};
ghost use Rattle.reading.specs.Records.{grades_fit, takes_nothing, weeks_and_machine_fit, field_tests, none_of};
ghost use Rattle.reading.specs.Fields.{tells_member};
ghost use Rattle.reading.specs.inner.Reading.{record_outcome};

use crate::fields::{PoolRecord, Record, machine, taken, weeks};
use crate::kind::Kind;
use pool::{Cause, Pool};

// One record: its kind, then all its other tests, the first that fails decides. Only a house has to pass those of 20 and 5; 5 asks whether only houses
// came before it.
#[tactic(auto, unfolding(pool::specs::Refusals::tested, crate::specs::Records::field_tests))]
pub(crate) fn read_record(bytes: &Record, houses_only: bool) -> Result<Kind, Cause>
    ensures { (before : List (List ℕ)) → houses_only ≡ none_of tells_member before → record_outcome result (length before) ≡ tested (field_tests before bytes.now) (length before) (accepted (tells_member bytes.now)) }
{
    let kind = Kind::try_from(bytes[PoolRecord::KIND])?;
    let house = kind == Kind::House;
    if 31 < bytes[PoolRecord::CLASS] {
        return Err(Cause::RecordClass);
    }
    if !grades_fit(bytes) {
        return Err(Cause::RecordGrade);
    }
    if house & !takes_nothing(bytes) {
        return Err(Cause::AltruistTakes);
    }
    if house & !houses_only {
        return Err(Cause::AltruistAfterMember);
    }
    if !weeks_and_machine_fit(bytes) {
        return Err(Cause::WeeksOrMachine);
    }
    Ok(kind)
}

// Are both grades in their range?
fn grades_fit(bytes: &Record) -> bool
    ensures { result ≡ grades_fit bytes.now }
{
    bytes[PoolRecord::GRADE] <= 100 && bytes[PoolRecord::LEAST] <= 100
}

// Is there neither a least grade nor a class taken?
fn takes_nothing(bytes: &Record) -> bool
    ensures { result ≡ takes_nothing bytes.now }
{
    bytes[PoolRecord::LEAST] == 0 && taken(bytes) == 0
}

// Is the time waited, and the machine's number, in its range?
fn weeks_and_machine_fit(bytes: &Record) -> bool
    ensures { result ≡ weeks_and_machine_fit bytes.now }
{
    weeks(bytes) <= Pool::MOST_WEEKS && machine(bytes) != 0
}
