// The vertices that a plan record lists, and what the checker tests of them: causes 12 to 14.
ghost use Rattle.std.specs.Prelude.{◌≡◌, ◌≤◌, ◌<◌, ◌-◌, T, MatchOption, length, get_or, ltb, leb, eqb};
ghost use Rattle.std.specs.List.{list_all, prefix_len};
ghost use Rattle.kep.specs.Exchange.{head_of};
ghost use Rattle.pool.specs.Value.{graph_of};
ghost use Rattle.plans.specs.Check.{all_below, rising, lists_vertices};
ghost use Rattle.plans.specs.inner.CheckSteps.{Listed, bits, met_with};

use crate::record_part::PlanRecord;
use crate::rules::Rules;
use sets::VertexSet;

// Vertices of a pool as a record lists them, 1 to 14.
#[derive(Clone, Copy)]
pub(crate) struct Vertices<'a> {
    pub(crate) listed: &'a [u8],
    ghost some: { 1 ≤ length listed.now },
    ghost few: { length listed.now ≤ 14 },
    ghost below: { T (all_below 14 listed.now) },
}

impl Rules {
    // Cause 12: the vertices of the pool that the bytes 0 to 13 list, filled up with 255; none where they are no such list.
    pub(crate) fn listed<'a>(&self, bytes: &'a [u8; PlanRecord::WIDTH]) -> Option<Vertices<'a>>
        ensures { MatchOption result (T (lists_vertices (graph_of self.now.pool) bytes.now) → ⊥) (λ vertices. Listed self.now.pool bytes.now vertices.listed.now) }
    {
        let places = &bytes[..PlanRecord::KIND];
        let (listed, filler) = places.split_at(lead(places, self.pool.size));
        if listed.is_empty() || !all_filler(filler) {
            return None;
        }
        Some(Vertices { listed })
    }
}

// How many bytes stand before the first that is not below the end.
fn lead(bytes: &[u8], end: u8) -> usize
    ensures { result ≡ prefix_len (λ b. ltb b end) bytes.now }
{
    bytes.iter().take_while(|b| **b < end).count()
}

fn all_filler(bytes: &[u8]) -> bool
    ensures { result ≡ list_all (λ b. eqb b 255) bytes.now }
{
    bytes.iter().all(|b| *b == PlanRecord::FILLER)
}

impl Vertices<'_> {
    // The vertex that the exchange begins at.
    #[tactic(auto, using(crate::proofs::CheckArcs::head_here, crate::proofs::CheckArcs::head_below))]
    pub(crate) fn first(self) -> u8
        ensures value { result ≡ head_of self.entry.listed.now }
        ensures below { result < 14 }
    {
        self.listed[0]
    }

    // The vertex that it ends at.
    pub(crate) fn last(self) -> u8
        ensures { result ≡ get_or self.entry.listed.now (length self.entry.listed.now - 1) 0 }
    {
        self.listed[self.listed.len() - 1]
    }

    // Cause 13: the vertices met before, here or in an earlier record, with these; none where one of them was met before.
    pub(crate) fn meet(self, met: VertexSet) -> Option<VertexSet>
        ensures { bits result ≡ met_with met.0 self.entry.listed.now }
    {
        let mut all = met;
        for vertex in self.listed {
            if all.has(*vertex) {
                return None;
            }
            all = all.with(*vertex);
        }
        Some(all)
    }

    // Cause 14: is the first vertex high enough, and no other lower?
    pub(crate) fn rises(self, least: u8) -> bool
        ensures { result ≡ rising least self.entry.listed.now }
    {
        let first = self.first();
        least <= first && self.none_lower(first)
    }

    fn none_lower(self, least: u8) -> bool
        ensures { result ≡ list_all (λ y. leb least y) self.entry.listed.now }
    {
        self.listed.iter().all(|v| least <= *v)
    }
}
