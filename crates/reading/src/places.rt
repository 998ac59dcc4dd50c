// The records of a pool: a place for each.
ghost use Rattle.std.specs.Prelude.{◌≡◌, ◌≤◌, [], ltb, length, get_or};
ghost use Rattle.kep.specs.Lists.{keep};
ghost use Rattle.kep.specs.Sets.{counted, set_where};
ghost use Rattle.pool.specs.Refusals.{outcome, accepted};
ghost use Rattle.reading.specs.Records.{records_tested};
ghost use Rattle.reading.specs.Fields.{most_records, tells_house};
ghost use Rattle.reading.specs.computed.Pool.{record_gives, takers_of, weeks_at, for_places};

use crate::arcs::gives;
use crate::fields::{PoolRecord, Record, weeks};
use crate::kind::Kind;
use crate::records::read_record;
use pool::Refusal;
use sets::VertexSet;

// As many as a pool has at most.
#[derive(Clone, Copy)]
pub(crate) struct Places<'a> {
    pub records: &'a [Record],
    ghost few: { length records.now ≤ most_records },
}

impl Places<'_> {
    // How many are houses', if all records pass their tests, made in their order; else the first refusal.
    pub(crate) fn count_houses(&self) -> Result<u8, Refusal>
        ensures { outcome result ≡ records_tested [] self.now.records.now (accepted (length (keep tells_house self.now.records.now))) }
    {
        let mut houses = 0;
        // A flag by itself: 5 asks no more of the records before, and no value goes with it.
        let mut houses_only = true;
        for (at, record) in self.records.iter().enumerate() {
            // As in plans' `check_records`: one expression, for which a method of `Cause` would be a name.
            let kind = read_record(record, houses_only).map_err(|cause| Refusal { cause, at })?;
            match kind {
                Kind::House => houses += 1,
                Kind::Member => houses_only = false,
            }
        }
        Ok(houses)
    }

    // For each the set of the places that it gives to, as `Pool` holds it; nothing from places that are not there.
    pub(crate) fn takers(&self) -> [u16; PoolRecord::MOST]
        ensures { result ≡ for_places (takers_of self.now.records.now) (length self.now.records.now) }
    {
        std::array::from_fn(|u| self.takers_at(u))
    }

    // The set of the places that place u gives to; nothing from one that is not there. By a match and no `map_or`: each case is found by itself.
    fn takers_at(&self, u: usize) -> u16
        ensures { result ≡ counted (ltb u (length self.now.records.now)) (takers_of self.now.records.now u) }
    {
        match self.records.get(u) {
            Some(giver) => self.takers_of(giver).0,
            None => 0,
        }
    }

    // The places that a giver gives to.
    fn takers_of(&self, giver: &Record) -> VertexSet
        ensures { result.0 ≡ set_where (length self.now.records.now) (λ v. record_gives giver.now (get_or self.now.records.now v [])) }
    {
        let mut set = VertexSet::EMPTY;
        for (v, taker) in self.records.iter().enumerate() {
            if gives(giver, taker) {
                set = set.with(v as u8);
            }
        }
        set
    }

    // The weeks that each has waited; 0 for places that are not there.
    pub(crate) fn waited(&self) -> [u16; PoolRecord::MOST]
        ensures { result ≡ for_places (weeks_at self.now.records.now) (length self.now.records.now) }
    {
        std::array::from_fn(|u| self.records.get(u).map_or(0, weeks))
    }
}
