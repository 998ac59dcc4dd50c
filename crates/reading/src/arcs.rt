// The rule of arcs: does one record give to another?
ghost use Rattle.std.specs.Prelude.{◌≡◌};
ghost use Rattle.kep.specs.Sets.{has};
ghost use Rattle.reading.specs.Fields.{taken_of, tells_member};
ghost use Rattle.reading.specs.computed.Pool.{record_gives};

use crate::fields::{PoolRecord, Record, taken};
use crate::kind::Kind;

// Does the giver's record give to the taker's?
#[tactic(auto, unfolding(crate::specs::computed::Pool::record_gives))]
pub(crate) fn gives(giver: &Record, taker: &Record) -> bool
    ensures { result ≡ record_gives giver.now taker.now }
{
    // The class first: so that of a giver is looked up once for all takers.
    takes(taker, giver[PoolRecord::CLASS])
        && is_member(taker)
        && taker[PoolRecord::LEAST] <= giver[PoolRecord::GRADE]
}

// Is the record a member's?
fn is_member(bytes: &Record) -> bool
    ensures { result ≡ tells_member bytes.now }
{
    matches!(Kind::try_from(bytes[PoolRecord::KIND]), Ok(Kind::Member))
}

// Is the class among those taken? None above 31 is.
// By a bit: a `VertexSet` has room for 16, and one test needs no type of its own.
fn takes(bytes: &Record, class: u8) -> bool
    ensures { result ≡ has (taken_of bytes.now) class }
{
    let classes = taken(bytes);
    class < 32 && (classes >> class) % 2 == 1
}
