// What the checker tests of the vertices of an exchange in the pool's graph: causes 15 and 16.
ghost use Rattle.std.specs.Prelude.{◌≡◌};
ghost use Rattle.pool.specs.Value.{graph_of};
ghost use Rattle.kep.specs.Exchange.{walk};
ghost use Rattle.plans.specs.Check.{joined, within_limits};

use crate::rules::Rules;
use crate::vertices::Vertices;

impl Rules {
    // Does the vertex give to the first of these, and each of them to the next?
    fn walks(&self, from: u8, vertices: &[u8]) -> bool
        ensures { result ≡ walk (graph_of self.now.pool) from vertices.now }
    {
        let mut giver = from;
        for taker in vertices {
            if !self.pool.arc(giver, *taker) {
                return false;
            }
            giver = *taker;
        }
        true
    }

    // Cause 15: is no needed arc missing? The last vertex of a cycle also gives to the first.
    pub(crate) fn all_joined(&self, vertices: Vertices<'_>) -> bool
        ensures { result ≡ joined (graph_of self.now.pool) vertices.entry.listed.now }
    {
        let first = vertices.first();
        if self.pool.is_altruist(first) {
            return self.walks(first, &vertices.listed[1..]);
        }
        self.walks(vertices.last(), vertices.listed)
    }

    // Cause 16: has a chain 1 to Lp members, a cycle at most Lc? A lone house is no chain.
    pub(crate) fn within_limits(&self, vertices: Vertices<'_>) -> bool
        ensures { result ≡ within_limits (graph_of self.now.pool) self.now.limits.cycle self.now.limits.chain vertices.entry.listed.now }
    {
        let count = vertices.listed.len();
        let of_chain = self.pool.is_altruist(vertices.first());
        (count <= self.limits.most_vertices(of_chain)) & !(of_chain & (count == 1))
    }
}
