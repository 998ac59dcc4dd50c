// A pool as a value, and its test (cause 6).
ghost use Rattle.std.specs.Prelude.{◌&&◌, ◌≡◌, ◌≤◌, ◌<◌, ltb, leb, get_or};
ghost use Rattle.kep.specs.Graph.{is_altruist, is_member};
ghost use Rattle.kep.specs.Sets.{counted, has, set_where};
ghost use Rattle.pool.specs.Refusals.{outcome_of};
ghost use Rattle.pool.specs.Value.{graph_of, test_pool, pool_fits, takers_fit, arcs_fit, weeks_fit, most_weeks_waited, empty_pool};

use crate::refusal::{Cause, Refusal};
use sets::VertexSet;

// Two arrays, as C lends them; and since the fields are public, a value may hold anything: crates above have types of one that passes its test.
#[derive(Clone, Copy, Debug, PartialEq, Eq)]
pub struct Pool {
    // The places: vertices 0 to size - 1.
    pub size: u8,
    // The houses: vertices 0 to altruists - 1.
    pub altruists: u8,
    // For each place the set of the places that it gives to, as the number that C hands over.
    pub gives: [u16; 14],
    // For each place the weeks that it has waited; a house's count nowhere.
    pub weeks: [u16; 14],
}

impl Pool {
    pub const MOST_WEEKS: u16 = 999;

    // How many sets the places of the largest pool have.
    pub const SETS: usize = 1 << 14;

    // Few places, and how many sets they have at most. What a call keeps for each set is kept in a small array for so few: to empty the large one
    // takes longer than such a pool.
    pub const FEW: u8 = 8;

    pub const FEW_SETS: usize = 1 << 8;

    // The pool with no place.
    pub fn empty() -> Pool
        ensures { result ≡ empty_pool }
    {
        Pool {
            size: 0,
            altruists: 0,
            gives: [0; 14],
            weeks: [0; 14],
        }
    }

    // Cause 6: over 14 places, more houses than places, an arc into a house or from or to a place that is not there, weeks above 999
    // or of a place that is not there.
    pub fn test(self) -> Result<(), Refusal>
        ensures { outcome_of result self ≡ test_pool self }
    {
        if !self.fits() {
            return Err(Cause::PoolValue.into());
        }
        Ok(())
    }

    // Is v a house?
    pub fn is_altruist(self, v: u8) -> bool
        ensures { result ≡ is_altruist (graph_of self) v }
    {
        v < self.altruists
    }

    // Does u give to v?
    pub fn arc(self, u: u8, v: u8) -> bool
        ensures { result ≡ (graph_of self).arc u v }
    {
        u < 14 && self.gives_to(u, v)
    }

    // The same of a place for which there is room, for loops over many arcs.
    // Here and below vertices are plain numbers, as in all calls: so who looks one up in an array asks that it is below 14.
    pub(crate) fn gives_to(&self, u: u8, v: u8) -> bool
        requires { u < 14 }
        ensures { result ≡ (graph_of self.now).arc u v }
    {
        u < self.size && v < self.size && VertexSet(self.gives[usize::from(u)]).has(v)
    }

    // All members, of the places that a set has room for.
    pub fn members(self) -> VertexSet
        ensures { result.0 ≡ set_where 16 (is_member (graph_of self)) }
    {
        VertexSet::below(self.size) - VertexSet::below(self.altruists)
    }

    fn fits(&self) -> bool
        ensures { result ≡ pool_fits self.now }
    {
        self.size <= 14 && self.altruists <= self.size && self.arcs_fit() && self.weeks_fit()
    }

    // Do all arcs lead from places that are there to members?
    fn arcs_fit(&self) -> bool
        requires size_bound { self.now.size ≤ 14 }
        requires altruists_bound { self.now.altruists ≤ self.now.size }
        ensures { result ≡ arcs_fit self.now.size self.now.altruists self.now.gives }
    {
        let members = self.members();
        (0..14).all(|u| self.takers_fit(members, u))
    }

    fn takers_fit(&self, members: VertexSet, u: usize) -> bool
        requires place { u < 14 }
        requires size_bound { self.now.size ≤ 14 }
        requires members { members.0 ≡ set_where 16 (is_member (graph_of self.now)) }
        ensures { result ≡ takers_fit self.now.size self.now.altruists self.now.gives u }
    {
        let places = usize::from(self.size);
        let allowed = if u < places {
            members
        } else {
            VertexSet::EMPTY
        };
        (VertexSet(self.gives[u]) - allowed).is_empty()
    }

    // Has no place waited longer than it may, and what is not there not at all?
    fn weeks_fit(&self) -> bool
        ensures { result ≡ weeks_fit self.now.size self.now.weeks }
    {
        (0..14).all(|v| self.waited_fits(v))
    }

    fn waited_fits(&self, v: usize) -> bool
        requires { v < 14 }
        ensures { result ≡ leb (get_or self.now.weeks v 0) (counted (ltb v self.now.size) most_weeks_waited) }
    {
        let places = usize::from(self.size);
        let most = if v < places { Pool::MOST_WEEKS } else { 0 };
        self.weeks[v] <= most
    }
}
