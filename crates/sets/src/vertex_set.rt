// A set of vertices as one value.
ghost use Rattle.std.specs.Prelude.{◌≡◌, ◌&&◌, ◌^◌, not, ltb, eqb, if◌then◌else◌, Some, None};
ghost use Rattle.kep.specs.Sets.{has as has_vertex, counted, lowest_below, set_where, size_below, with_vertex, without_vertex};

use std::ops::{BitAnd, Sub};

// The sum of 2 to the power v over the vertices v of the set.
#[derive(Clone, Copy, Debug, PartialEq, Eq)]
pub struct VertexSet(pub u16);

impl VertexSet {
    // The set with no vertex.
    pub const EMPTY: VertexSet = VertexSet(0);

    // The vertices before the end, of those that a set has room for.
    pub fn below(end: u8) -> VertexSet
        ensures { result.0 ≡ set_where 16 (λ u. ltb u end) }
    {
        if 15 < end {
            return VertexSet(u16::MAX);
        }
        VertexSet((1 << end) - 1)
    }

    // Is v in it? No number above 15 is.
    pub fn has(self, v: u8) -> bool
        ensures { result ≡ has_vertex self.0 v }
    {
        self.0 & bit(v) != 0
    }

    // The lowest vertex; as 01 asks, 16 and no `None` for the empty set.
    pub fn lowest(self) -> u8
        ensures { result ≡ lowest_below 16 self.0 }
    {
        self.0.trailing_zeros() as u8
    }

    // Takes its lowest vertex out and tells it; `None` for the empty set, which stays as it is.
    pub fn take_lowest(&mut self) -> Option<u8>
        ensures told { result ≡ (if eqb self.old.0 0 then None else Some (lowest_below 16 self.old.0)) }
        ensures left { self.new.0 ≡ without_vertex 16 self.old.0 (lowest_below 16 self.old.0) }
    {
        if self.is_empty() {
            return None;
        }
        let lowest = self.lowest();
        self.0 &= self.0 - 1;
        Some(lowest)
    }

    // Has it no vertex?
    pub fn is_empty(self) -> bool
        ensures { result ≡ eqb self.0 0 }
    {
        self == VertexSet::EMPTY
    }

    // How many vertices it has.
    pub fn size(self) -> u8
        ensures { result ≡ size_below 16 self.0 }
    {
        self.0.count_ones() as u8
    }

    // With vertex v; unchanged for a number above 15.
    pub fn with(self, v: u8) -> VertexSet
        ensures { result.0 ≡ with_vertex 16 self.0 v }
    {
        VertexSet(self.0 | bit(v))
    }

    // Without vertex v; unchanged for a number above 15.
    pub fn without(self, v: u8) -> VertexSet
        ensures { result.0 ≡ without_vertex 16 self.0 v }
    {
        let one = bit(v);
        VertexSet((self.0 | one) - one)
    }
}

// `a & b`: the vertices in both.
impl BitAnd for VertexSet {
    type Output = VertexSet;

    ghost bitand_gives = { λ a b both. both.0 ≡ set_where 16 (λ u. has_vertex a.0 u && has_vertex b.0 u) };

    fn bitand(self, other: VertexSet) -> VertexSet {
        VertexSet(self.0 & other.0)
    }
}

// `a - b`: the vertices of the first that are not in the second.
impl Sub for VertexSet {
    type Output = VertexSet;

    ghost sub_gives = { λ a b rest. rest.0 ≡ set_where 16 (λ u. has_vertex a.0 u && not (has_vertex b.0 u)) };

    fn sub(self, other: VertexSet) -> VertexSet {
        VertexSet(self.0 & !other.0)
    }
}

// The set of v alone; the empty set for a number above 15.
fn bit(v: u8) -> u16
    ensures { result ≡ counted (ltb v 16) (2 ^ v) }
{
    if v < 16 { 1 << v } else { 0 }
}
