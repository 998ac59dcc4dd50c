// What vertices and sets of them are worth.
ghost use Rattle.std.specs.Prelude.{◌≡◌, ℕ, ◌+◌, ◌^◌, ◌≤◌, ◌<◌, T, length, get_or};
ghost use Rattle.kep.specs.Lists.{tabulate};
ghost use Rattle.kep.specs.Table.{per_member};
ghost use Rattle.kep.specs.inner.BestFilling.{Worths, worth_by};
ghost use Rattle.pool.specs.Value.{pool_fits};
ghost use Rattle.tables.specs.Calls.{worth_in};

use pool::Pool;

// What a member is worth beside the weeks that it has waited: more than all weeks of a pool.
pub const MEMBER: u32 = 65536;

// More than any set is worth, 2 to the 30: it rides on what a marked set offers, so that one sum tells of a part whether it is marked and
// what it comes to.
pub(crate) const MARK: u32 = 1073741824;

// The worth of every vertex, so little that the worth of a set is below the mark.
// Fixed memory: an array for as many vertices as a pool has at most. The tables are lent beside it: as fields, every contract would have to say that the others stay, in place of that there is room.
#[derive(Drop)]
pub(crate) struct VertexWorths {
    pub size: u8,
    pub each: [u32; 14],
    // The number of sets of vertices, each with its entry: worked out once, so that loops over sets only compare.
    sets: usize,
    ghost counted: { sets ≡ 2 ^ size },
    ghost small: { Worths size each },
}

impl VertexWorths {
    // Those of a pool that passes its test.
    pub(crate) fn new(pool: Pool) -> VertexWorths
        requires { T (pool_fits pool) }
        ensures size { result.size ≡ pool.size }
        ensures each { result.each ≡ tabulate (worth_in pool) 14 }
    {
        VertexWorths {
            size: pool.size,
            each: vertex_worths(pool),
            sets: 1usize << pool.size,
        }
    }

    // As `Filling::sets` in exchanges.
    pub(crate) fn sets(&self) -> usize
        ensures { result ≡ 2 ^ self.now.size }
    {
        self.sets
    }

    // The worth of every set; sets are numbers, the places of their entries. All beyond them may be anything.
    pub(crate) fn fill_worths(&self, table: &mut [u32])
        requires { 2 ^ self.now.size ≤ length table.old }
        ensures { (s : ℕ) → s < 2 ^ self.now.size → get_or table.new s 0 ≡ worth_by self.now.each self.now.size s }
    {
        table[0] = 0;
        for v in 0..usize::from(self.size) {
            self.add_vertex(v, table);
        }
    }

    // The sets of the vertices below one come once more, with that one.
    fn add_vertex(&self, v: usize, table: &mut [u32])
        requires in_pool { v < self.now.size }
        requires room { 2 ^ self.now.size ≤ length table.old }
        requires below { (s : ℕ) → s < 2 ^ v → get_or table.old s 0 ≡ worth_by self.now.each self.now.size s }
        ensures { (s : ℕ) → s < 2 ^ (v + 1) → get_or table.new s 0 ≡ worth_by self.now.each self.now.size s }
    {
        let sets = 1usize << v;
        let worth = self.each[v];
        for s in 0..sets {
            table[sets + s] = table[s] + worth;
        }
    }
}

// The worth of every vertex of a pool.
fn vertex_worths(pool: Pool) -> [u32; 14]
    ensures { result ≡ tabulate (worth_in pool) 14 }
{
    std::array::from_fn(|v| vertex_worth(pool, v))
}

// Of a member 65,536 and its weeks; of a house, and where there is no vertex, nothing.
fn vertex_worth(pool: Pool, v: usize) -> u32
    requires { v < 14 }
    ensures { result ≡ worth_in pool v }
{
    if pool.members().has(v as u8) {
        member_worth(pool.weeks[v])
    } else {
        0
    }
}

// The worth of a member that has waited so many weeks.
fn member_worth(weeks: u16) -> u32
    ensures { result ≡ per_member + weeks }
{
    MEMBER + u32::from(weeks)
}
