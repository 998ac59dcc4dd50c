// The entries of the best table, upward: each from those before it.
ghost use Rattle.std.specs.Prelude.{◌≡◌, ℕ, ◌^◌, ◌≤◌, length};
ghost use Rattle.kep.specs.Lists.{written_to};
ghost use Rattle.kep.specs.Trying.{tried_over};
ghost use Rattle.kep.specs.computed.Table.{best};
ghost use Rattle.kep.specs.inner.BestFilling.{worth_by};
ghost use Rattle.tables.specs.Calls.{marked};

use crate::parts::{Found, try_parts};
use crate::worths::{MARK, VertexWorths};
use pool::Pool;

impl VertexWorths {
    // The entries by the worths of the vertices, and the parts tried. What the sets offer is kept in an array of this call.
    pub(crate) fn fill_best(&self, exchanges: &[u16], table: &mut [u32]) -> usize
        requires exchanges_long { 2 ^ self.now.size ≤ length exchanges.now }
        requires table_long { 2 ^ self.now.size ≤ length table.old }
        ensures left { table.new ≡ written_to (best (worth_by self.now.each self.now.size) (marked exchanges.now)) (2 ^ self.now.size) table.old }
        ensures tried { let v = worth_by self.now.each self.now.size in let m = marked exchanges.now in result ≡ tried_over v (best v m) m (2 ^ self.now.size) }
    {
        if self.size <= Pool::FEW {
            self.fill_best_by::<{ Pool::FEW_SETS }>(exchanges, table)
        } else {
            self.fill_best_by::<{ Pool::SETS }>(exchanges, table)
        }
    }

    // Sets are numbers, the places of their entries. Each offers its worth, and the mark rides on it where the set is marked.
    // Not inlined, so that a call with the small array has a small frame.
    #[inline(never)]
    fn fill_best_by<const OFFERS: usize>(&self, exchanges: &[u16], table: &mut [u32]) -> usize
        requires offers_long { 2 ^ self.now.size ≤ OFFERS }
        requires offers_fit { OFFERS ≤ 2 ^ 14 }
        requires exchanges_long { 2 ^ self.now.size ≤ length exchanges.now }
        requires table_long { 2 ^ self.now.size ≤ length table.old }
        ensures left { table.new ≡ written_to (best (worth_by self.now.each self.now.size) (marked exchanges.now)) (2 ^ self.now.size) table.old }
        ensures tried { let v = worth_by self.now.each self.now.size in let m = marked exchanges.now in result ≡ tried_over v (best v m) m (2 ^ self.now.size) }
    {
        let mut offers = [0u32; OFFERS];
        self.fill_worths(&mut offers);
        let mut marks: usize = 0;
        let mut tried: usize = 0;
        for s in 0..self.sets() {
            let worth = offers[s];
            let all = MARK + worth;
            let found = if exchanges[s] != 0 {
                marks += 1;
                offers[s] = all;
                // It serves all its members itself.
                Found {
                    most: all,
                    tried: usize::from(worth != 0),
                }
            } else if worth == 0 {
                // It has no members, and tries none.
                Found { most: 0, tried: 0 }
            } else {
                try_parts(s, 16 * marks < s, all, &offers, table)
            };
            table[s] = found.most.saturating_sub(MARK);
            tried += found.tried;
        }
        tried
    }
}
