// The arcs of a pool read backwards: for each vertex the set of those that give to it.
ghost use Rattle.std.specs.Prelude.{◌≡◌, ◌<◌};
ghost use Rattle.kep.specs.Lists.{tabulate};
ghost use Rattle.kep.specs.Graph.{givers as giver_set};
ghost use Rattle.pool.specs.Value.{graph_of};

use crate::value::Pool;
use sets::VertexSet;

// The givers of every vertex, worked out once; as numbers, since exchanges meets them with entries of its table.
pub fn all_givers(pool: Pool) -> [u16; 14]
    ensures { result ≡ tabulate (giver_set (graph_of pool)) 14 }
{
    std::array::from_fn(|v| givers_of(&pool, v as u8).0)
}

// The vertices that give to v.
fn givers_of(pool: &Pool, v: u8) -> VertexSet
    requires { v < 14 }
    ensures { result.0 ≡ giver_set (graph_of pool.now) v }
{
    let mut givers = VertexSet::EMPTY;
    for u in 0..14 {
        if pool.gives_to(u, v) {
            givers = givers.with(u);
        }
    }
    givers
}
