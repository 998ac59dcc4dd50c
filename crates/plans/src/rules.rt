// What a plan is checked against.
ghost use Rattle.std.specs.Prelude.{T};
ghost use Rattle.pool.specs.Value.{pool_fits};

use pool::{Limits, Pool};

// A pool that passes its own test, and limits.
#[derive(Clone, Copy)]
pub(crate) struct Rules {
    pub(crate) pool: Pool,
    pub(crate) limits: Limits,
    ghost pool_fits: { T (pool_fits pool) },
}
