// Pass one at a set: the ends of the paths on it, from those on smaller sets.
ghost use Rattle.std.specs.Prelude.{◌≡◌, ◌-◌, ◌^◌, ◌<◌, length};
ghost use Rattle.std.specs.Int.Count.{ones};
ghost use Rattle.kep.specs.inner.Lowest.{lowest};
ghost use Rattle.pool.specs.Value.{graph_of};
ghost use Rattle.kep.specs.inner.Filling.{ends as ends_of};
ghost use Rattle.exchanges.specs.inner.ByLowest.{Known};
ghost use Rattle.exchanges.specs.inner.Abreast.{bit_where};

use crate::filling::Filling;
use crate::vertices::Vertices;

// The bit, if two sets met.
pub(crate) fn bit_where(met: u16, bit: u16) -> u16
    ensures { result ≡ bit_where met bit }
{
    if met == 0 { 0 } else { bit }
}

// The ends of the paths on a set, and how many vertices it has.
#[derive(Clone, Copy)]
pub(crate) struct PathEnds {
    pub ends: u16,
    pub vertices: usize,
}

impl Filling {
    // The ends of the paths on a set of two vertices or more that begin at its lowest, whose bit is `first`. A vertex that is no end
    // adds nothing: no branch but the loop's (at full width, where none is made of the choice).
    pub(crate) fn path_ends(&self, set: usize, first: usize, table: &[u16]) -> PathEnds
        requires set_in_pool { set < 2 ^ self.now.pool.size }
        requires set_in_table { set < length table.now }
        requires first_is_lowest { first ≡ 2 ^ lowest set }
        requires several { first < set }
        requires smaller_known { Known (graph_of self.now.pool) set (set - first) table.now }
        ensures ends { result.ends ≡ ends_of (graph_of self.now.pool) set }
        ensures vertices { result.vertices ≡ ones set }
    {
        let mut ends: usize = 0;
        // Counted on the way: asked for behind the loop, their number makes tables at limits from 4 to 12 up to a quarter slower.
        let mut vertices = 1;
        for (bit, v) in Vertices(set - first) {
            let before = set - bit;
            let met = table[before] & self.givers[v];
            // Not `bit_where`: that is of 16 bits, and the bit is at full width here.
            ends |= if met == 0 { 0 } else { bit };
            vertices += 1;
        }
        PathEnds {
            ends: ends as u16,
            vertices,
        }
    }
}
