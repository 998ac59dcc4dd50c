// What the choice of a plan goes by: a pool, limits, and both tables, which hold their meaning.
ghost use Rattle.clearing.specs.inner.Taking.{Choosing};

use pool::{Limits, Pool};

#[derive(Drop)]
pub(crate) struct Choice<'a> {
    pub pool: Pool,
    pub limits: Limits,
    // For each vertex the set of those that give to it, as the number that `all_givers` tells.
    pub givers: [u16; 14],
    // The exchange table and the best table, by the same sets, as C lends them.
    pub exchanges: &'a [u16],
    pub best: &'a [u32],
    ghost choosing: { Choosing pool limits givers exchanges.now best.now },
}
