// What one filling of the exchange table goes by.
ghost use Rattle.std.specs.Prelude.{◌≡◌, ◌^◌, T};
ghost use Rattle.kep.specs.Lists.{tabulate};
ghost use Rattle.kep.specs.Graph.{givers as giver_set};
ghost use Rattle.pool.specs.Value.{graph_of, pool_fits};

use pool::{Limits, Pool, all_givers};

// A pool that passes its test, the limits, and the givers of every vertex, worked out once. The table is lent beside it: were it a
// field, every contract would have to say that the others stay, in place of that the table has room.
#[derive(Drop)]
pub(crate) struct Filling {
    pub pool: Pool,
    pub limits: Limits,
    pub givers: [u16; 14],
    // The number of sets of vertices, each with its entry: worked out once, so that loops over sets only compare.
    sets: usize,
    ghost fits: { T (pool_fits pool) },
    ghost counted: { sets ≡ 2 ^ pool.size },
    ghost given: { givers ≡ tabulate (giver_set (graph_of pool)) 14 },
}

impl Filling {
    pub(crate) fn new(pool: Pool, limits: Limits) -> Filling
        requires { T (pool_fits pool) }
        ensures pool { result.pool ≡ pool }
        ensures limits { result.limits ≡ limits }
    {
        let givers = all_givers(pool);
        Filling {
            pool,
            limits,
            givers,
            sets: 1usize << pool.size,
        }
    }

    // The number of sets of vertices, each with its entry.
    // As `VertexWorths::sets` in tables: a public method of `Pool` may ask for nothing, and that there are few places is known here.
    pub(crate) fn sets(&self) -> usize
        ensures { result ≡ 2 ^ self.now.pool.size }
    {
        self.sets
    }
}
