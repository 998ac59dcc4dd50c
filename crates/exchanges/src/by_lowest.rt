// The exchange table, filled by lowest vertex: the sets that begin at vertex 0, then those that begin at 1, and so on. The entries
// of the sets that begin at a vertex rest on no others, and share one limit. Pass one writes the ends of paths, since those of a
// larger set are found from those of smaller ones, whether or not these close a cycle; only then does pass two keep the ends of
// exchanges.
ghost use Rattle.std.specs.Prelude.{true, false, ◌≡◌, ℕ, ◌^◌, ◌≤◌, ◌<◌, length};
ghost use Rattle.std.specs.Int.Count.{ones};
ghost use Rattle.pool.specs.Value.{graph_of};
ghost use Rattle.kep.specs.Lists.{written_to};
ghost use Rattle.exchanges.specs.inner.Changed.{Changed};
ghost use Rattle.exchanges.specs.inner.ByLowest.{Begins, Closes, Allowed, Next, Held, entry_of, ends_within, closing_at, kept_of, limit_at};

use crate::abreast::Eights;
use crate::filling::Filling;

impl Filling {
    // All entries.
    pub(crate) fn fill_by_lowest(&self, table: &mut [u16])
        requires room { 2 ^ self.now.pool.size ≤ length table.old }
        ensures { table.new ≡ written_to (entry_of self.now.pool self.now.limits) (2 ^ self.now.pool.size) table.old }
    {
        if self.pool.size > 2 && self.allows_most_sets() {
            Eights { filling: self }.fill_from_all_paths(table);
        } else {
            self.fill_allowed_sets(table);
        }
    }

    // Are all chains or most cycles that begin at vertex 0 allowed, which use half of all sets? The table is the same either way.
    fn allows_most_sets(&self) -> bool {
        let most = self.limit_of(0);
        let enough = if self.pool.is_altruist(0) {
            most
        } else {
            2 * most
        };
        usize::from(self.pool.size) <= enough
    }

    // Where few are allowed only those are looked at: both passes for each vertex, from a table with no entry.
    fn fill_allowed_sets(&self, table: &mut [u16])
        requires room { 2 ^ self.now.pool.size ≤ length table.old }
        ensures { table.new ≡ written_to (entry_of self.now.pool self.now.limits) (2 ^ self.now.pool.size) table.old }
    {
        clear_table(self.sets(), table);
        for low in 0..self.pool.size {
            SetsFrom { filling: self, low }.fill_exchanges(table);
        }
    }

    // How many vertices an exchange that begins at the vertex may have.
    fn limit_of(&self, low: u8) -> usize
        ensures small { result ≤ 256 }
        ensures limit { result ≡ limit_at (graph_of self.now.pool) self.now.limits.cycle self.now.limits.chain low }
    {
        self.limits.most_vertices(self.pool.is_altruist(low))
    }
}

impl Eights<'_> {
    // Where most sets are allowed: pass one for all sets, eight abreast, and then pass two for each vertex.
    // Not one loop with `fill_allowed_sets`: it would take the step as a closure, and have to say of it what the table holds before.
    fn fill_from_all_paths(&self, table: &mut [u16])
        requires room { 2 ^ self.now.filling.now.pool.size ≤ length table.old }
        ensures { let f = self.now.filling.now in table.new ≡ written_to (entry_of f.pool f.limits) (2 ^ f.pool.size) table.old }
    {
        self.fill_path_ends(table);
        let filling = self.filling;
        for low in 0..filling.pool.size {
            SetsFrom { filling, low }.keep_exchanges(table);
        }
    }
}

// The sets that begin at one vertex of a pool, as numbers: that of a set is the place of its entry.
#[derive(Clone, Copy)]
struct SetsFrom<'a> {
    filling: &'a Filling,
    low: u8,
    ghost in_pool: { low < filling.now.pool.size },
}

impl SetsFrom<'_> {
    // Where an exchange on them may end: a cycle at a giver of the vertex, a chain anywhere but at its altruist.
    fn closing(&self) -> u16
        ensures { let f = self.now.filling.now in Closes (graph_of f.pool) f.limits.cycle f.limits.chain self.now.low result }
    {
        if self.filling.pool.is_altruist(self.low) {
            65535 - (1u16 << self.low)
        } else {
            self.filling.givers[usize::from(self.low)]
        }
    }

    // The first of them: the vertex alone. The others follow by multiples of its double.
    fn first(&self) -> usize
        ensures { result ≡ 2 ^ self.now.low }
    {
        1usize << self.low
    }

    // Their entries, where the table has the ends of their paths.
    fn keep_exchanges(&self, table: &mut [u16])
        requires room { 2 ^ self.now.filling.now.pool.size ≤ length table.old }
        requires held { let f = self.now.filling.now in Held true (graph_of f.pool) self.now.low (2 ^ f.pool.size) table.old }
        ensures { let f = self.now.filling.now in Changed (Begins self.now.low) (2 ^ f.pool.size) (entry_of f.pool f.limits) table.old table.new }
    {
        let most = self.filling.limit_of(self.low);
        // Where the limit allows as many as there are, the vertices need not be counted.
        let counted = if usize::from(self.filling.pool.size) <= most + usize::from(self.low) {
            None
        } else {
            Some(most)
        };
        self.keep_ends(counted, self.closing(), table);
    }

    // Their entries, where the table has nothing for them yet.
    fn fill_exchanges(&self, table: &mut [u16])
        requires room { 2 ^ self.now.filling.now.pool.size ≤ length table.old }
        requires held { let f = self.now.filling.now in Held false (graph_of f.pool) self.now.low (2 ^ f.pool.size) table.old }
        ensures { let f = self.now.filling.now in Changed (Begins self.now.low) (2 ^ f.pool.size) (entry_of f.pool f.limits) table.old table.new }
    {
        self.fill_allowed(self.filling.limit_of(self.low), table);
        if self.filling.pool.is_altruist(self.low) {
            // Every path is a chain but that of the altruist alone.
            table[self.first()] = 0;
        } else {
            self.keep_ends(None, self.closing(), table);
        }
    }

    // Pass one for those of at most `most` vertices.
    fn fill_allowed(&self, most: usize, table: &mut [u16])
        requires room { 2 ^ self.now.filling.now.pool.size ≤ length table.old }
        requires held { let f = self.now.filling.now in Held false (graph_of f.pool) self.now.low (2 ^ f.pool.size) table.old }
        ensures { let f = self.now.filling.now in Changed (Begins self.now.low) (2 ^ f.pool.size) (ends_within (graph_of f.pool) most) table.old table.new }
    {
        let first = self.first();
        if most == 0 {
            return;
        }
        // A vertex alone is a path.
        table[first] = first as u16;
        if most == 1 {
            return;
        }
        let end = self.filling.sets();
        // No range: how far it is to the next set depends on the vertices counted in this one, so no iterator knows it before the turn.
        let mut set = 3 * first;
        while set < end {
            let found = self.filling.path_ends(set, first, table);
            table[set] = found.ends;
            set = next_allowed(set, first, found.vertices, most);
        }
    }

    // Pass two: of the ends those in the closing set, where a set has at most so many vertices. With no limit the vertices are not
    // counted.
    fn keep_ends(&self, most: Option<usize>, closing: u16, table: &mut [u16])
        requires room { 2 ^ self.now.filling.now.pool.size ≤ length table.old }
        ensures { Changed (Begins self.now.low) (2 ^ self.now.filling.now.pool.size) (kept_of most closing table.old) table.old table.new }
    {
        let first = self.first();
        for set in (first..self.filling.sets()).step_by(2 * first) {
            table[set] &= closing_within(set, most, closing);
        }
    }
}

// The table with no entry.
// The number of sets goes beside it: a lent table may be longer, and its rest stays.
fn clear_table(sets: usize, table: &mut [u16])
    requires { sets ≤ length table.old }
    ensures { Changed (λ i. i ≡ i) sets (λ _. 0) table.old table.new }
{
    table[..sets].fill(0);
}

// Sets as numbers, the places of their entries. The next set of at most `most` vertices that begins where `set` does. Those that begin there are `first` and more by multiples of
// its double; after one of `most` vertices every set up to that with the lowest bit of its others added has more, and is passed over.
fn next_allowed(set: usize, first: usize, vertices: usize, most: usize) -> usize
    requires several { first < set }
    requires small { set < 2 ^ 14 }
    ensures { (l : ℕ) → first ≡ 2 ^ l → vertices ≡ ones set → Allowed l most set → Next l most set result }
{
    if vertices < most {
        return set + 2 * first;
    }
    let others = set - first;
    let rest = (others - 1) & others;
    set + (others - rest)
}

// The closing set, if there is no limit, or the set has at most so many vertices.
fn closing_within(set: usize, most: Option<usize>, closing: u16) -> u16
    ensures { result ≡ closing_at most closing set }
{
    match most {
        Some(most) if most < set.count_ones() as usize => 0,
        _ => closing,
    }
}
