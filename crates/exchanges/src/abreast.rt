// Pass one for all sets, eight abreast. The sets that differ in the vertices 0, 1 and 2 alone have their other vertices in common,
// and stand side by side in the table. So each of those vertices is looked at for all eight by one loop without a branch.
ghost use Rattle.std.specs.Prelude.{◌≡◌, ℕ, ◌+◌, ◌-◌, ◌%◌, ◌^◌, ◌≤◌, ◌<◌, length, get_or};
ghost use Rattle.kep.specs.Lists.{tabulate};
ghost use Rattle.pool.specs.Value.{graph_of};
ghost use Rattle.kep.specs.inner.Filling.{ends as ends_of};
ghost use Rattle.exchanges.specs.inner.Changed.{Changed};
ghost use Rattle.exchanges.specs.inner.ByLowest.{Known};
ghost use Rattle.exchanges.specs.inner.Abreast.{Lanes, opened};

use crate::filling::Filling;
use crate::path_ends::bit_where;
use crate::vertices::Vertices;

// What a filling goes by, of a pool that has all three: its sets stand in eights.
#[derive(Clone, Copy)]
pub(crate) struct Eights<'a> {
    pub filling: &'a Filling,
    ghost three_vertices: { 3 ≤ filling.now.pool.size },
}

impl Eights<'_> {
    // The ends of the paths on every set.
    pub(crate) fn fill_path_ends(&self, table: &mut [u16])
        requires room { 2 ^ self.now.filling.now.pool.size ≤ length table.old }
        ensures { Changed (λ i. i ≡ i) (2 ^ self.now.filling.now.pool.size) (ends_of (graph_of self.now.filling.now.pool)) table.old table.new }
    {
        for base in (0..self.filling.sets()).step_by(8) {
            let eight = self.common_ends(base, table);
            let found = self.all_ends(base, eight);
            store_eight(base, found, table);
        }
    }

    // The ends on the eight sets from `base` on, but for the vertices 1 and 2 where a lower one stands beside them.
    fn common_ends(&self, base: usize, table: &[u16]) -> [u16; 8]
        requires room { base + 8 ≤ length table.now }
        requires sets_in_pool { base + 8 ≤ 2 ^ self.now.filling.now.pool.size }
        requires base_of_eight { base % 8 ≡ 0 }
        requires smaller_known { (j : ℕ) → j < 8 → Known (graph_of self.now.filling.now.pool) (base + j) base table.now }
        ensures { Lanes (graph_of self.now.filling.now.pool) base result }
    {
        if base == 0 {
            // A vertex alone is a path.
            return [0, 1, 2, 0, 4, 0, 0, 0];
        }
        let mut eight = [0u16; 8];
        for (bit, v) in Vertices(base) {
            let from = base - bit;
            add_open(from, self.filling.givers[v], bit as u16, table, &mut eight);
        }
        // The first set begins at a vertex that all have: no end of it, unless it is alone.
        let rest = (base - 1) & base;
        eight[0] = if rest == 0 {
            base as u16
        } else {
            eight[0] & rest as u16
        };
        eight
    }

    // All ends on the eight sets: the vertices 1 and 2 are tried by the ends on the sets without them.
    fn all_ends(&self, base: usize, eight: [u16; 8]) -> [u16; 8]
        requires base_of_eight { base % 8 ≡ 0 }
        requires lanes { Lanes (graph_of self.now.filling.now.pool) base eight }
        ensures { result ≡ tabulate (λ j. ends_of (graph_of self.now.filling.now.pool) (base + j)) 8 }
    {
        let one = self.filling.givers[1];
        let two = self.filling.givers[2];
        let e0 = eight[0];
        let e1 = eight[1];
        let e2 = eight[2];
        let e4 = eight[4];
        let e3 = eight[3] | bit_where(e1 & one, 2);
        let e5 = eight[5] | bit_where(e1 & two, 4);
        let e6 = eight[6] | bit_where(e2 & two, 4);
        let e7 = eight[7] | bit_where(e5 & one, 2) | bit_where(e3 & two, 4);
        [e0, e1, e2, e3, e4, e5, e6, e7]
    }
}

// Adds a bit to each of the eight sets whose entry, from `from` on, meets the givers.
// Room for eight is asked for here, above and below: the table is lent beside the numbers, as beside a `Filling`.
fn add_open(from: usize, givers: u16, bit: u16, table: &[u16], eight: &mut [u16; 8])
    requires { from + 8 ≤ length table.now }
    ensures { Changed (λ i. i ≡ i) 8 (opened table.now from givers bit eight.old) eight.old eight.new }
{
    // By number: of a `zip` of `iter_mut` a proof knows no more than how many there are.
    for j in 0..8 {
        eight[j] |= bit_where(table[from + j] & givers, bit);
    }
}

// Stores eight entries, from `base` on.
fn store_eight(base: usize, found: [u16; 8], table: &mut [u16])
    requires { base + 8 ≤ length table.old }
    ensures { Changed (λ i. base ≤ i) (base + 8) (λ i. get_or found (i - base) 0) table.old table.new }
{
    table[base..base + 8].copy_from_slice(&found);
}
