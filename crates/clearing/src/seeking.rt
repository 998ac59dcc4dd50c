// The search for the exchange that a step takes from the lowest free vertex on: depth first, the lowest vertex first, and an end
// looked at only after all ways on. So what it finds first comes first byte by byte. What failed is kept, so no set with a last
// vertex is searched twice.
ghost use Rattle.std.specs.Prelude.{◌≡◌, ◌≤◌, ◌<◌, ◌^◌, T, length, if◌then◌else◌, Some, None};
ghost use Rattle.kep.specs.Sets.{has, Part};

use sets::VertexSet;

// A path from the lowest free vertex on: the set of its vertices, and its last vertex.
// That its vertices are free is told where it meets a step: as a ghost field it would bind each path to its step.
#[derive(Clone, Copy)]
pub(crate) struct Path {
    pub set: VertexSet,
    pub last: u8,
    ghost ends_there: { T (has set.0 last) },
}

// What all paths of a step go by.
// What failed is lent beside it, as the tables beside a `Filling` (exchanges); it is an array by sets and no map, since memory is fixed.
#[derive(Drop)]
pub(crate) struct Step<'a> {
    // For each vertex the set of those that it gives to.
    pub gives: &'a [u16; 14],
    // The exchange table and the best table: a set's number is the place of its entry, as C lends them.
    pub exchanges: &'a [u16],
    pub best: &'a [u32],
    // The vertices that no exchange has taken.
    pub free: VertexSet,
    // The vertices at which a path that goes on may end.
    pub goal: VertexSet,
    ghost few: { free.0 < 2 ^ 14 },
    ghost in_exchanges: { free.0 < length exchanges.now },
    ghost in_best: { free.0 < length best.now },
}

impl Step<'_> {
    ghost use Rattle.clearing.specs.inner.Seeking.{ways_of, field_of, ends_of, open_at, kept_dead, Entering, DeadEnds, KeptBut, Sought};

    // May a path end where it is? It is an exchange then, so its entry in the best table is all that it is worth, and with what it
    // leaves the best of the free vertices can be reached.
    #[tactic(auto, using(crate::proofs::Seek::no_end, crate::proofs::Seek::end_by), unfolding(crate::specs::inner::Seeking::ends_of))]
    fn may_end(&self, path: Path) -> bool
        requires { path.set.0 ≤ self.now.free.0 }
        ensures { result ≡ has (ends_of (ways_of self.now) path.set.0) path.last }
    {
        let best = self.best;
        let here = usize::from(path.set.0);
        if !VertexSet(self.exchanges[here]).has(path.last) {
            return false;
        }
        let all = usize::from(self.free.0);
        let rest = all - here;
        u64::from(best[here]) + u64::from(best[rest]) == u64::from(best[all])
    }

    // The vertices to try next, where at most `more` may follow: those that the last gives to and that are free beside the path,
    // but what failed. None where no vertex is left at which the path may end: a first vertex with few givers would else cost a
    // search of all paths.
    #[tactic(auto, unfolding(crate::specs::inner::Seeking::open_at))]
    fn open_at(&self, dead: &[u16], path: Path, more: usize) -> VertexSet
        requires inside { Part path.set.0 self.now.free.0 }
        requires room { self.now.free.0 < length dead.now }
        ensures { result.0 ≡ open_at (ways_of self.now) dead.now path.set.0 path.last more }
    {
        if more == 0 {
            return VertexSet::EMPTY;
        }
        let rest = self.free - path.set;
        if (self.goal & rest).is_empty() {
            return VertexSet::EMPTY;
        }
        let ways = VertexSet(self.gives[usize::from(path.last)]) & rest;
        ways - VertexSet(dead[usize::from(path.set.0)])
    }

    // Nothing is left to go on to: tells the path's set where it may end, else keeps that it failed.
    fn end_at(&self, dead: &mut [u16], path: Path) -> Option<VertexSet>
        requires inside { path.set.0 ≤ self.now.free.0 }
        requires room { self.now.free.0 < length dead.old }
        ensures told { result ≡ (if has (ends_of (ways_of self.now) path.set.0) path.last then Some path.set else None) }
        ensures kept { dead.new ≡ kept_dead (has (ends_of (ways_of self.now) path.set.0) path.last) dead.old path.set.0 path.last }
    {
        if self.may_end(path) {
            return Some(path.set);
        }
        // By bits: `without` would ask again whether the vertex is below 16, on every path that fails; choices take 4 to 24 of 100 longer with it.
        let bit = 1u16 << path.last;
        let before = usize::from(path.set.0 - bit);
        dead[before] |= bit;
        None
    }

    // Seeks from the path's last vertex on. Where it finds an exchange it writes the vertices that follow, and tells the set of all. No
    // more vertices may follow than there are bytes.
    pub(crate) fn seek(&self, dead: &mut [u16], bytes: &mut [u8], path: Path) -> Option<VertexSet>
        requires room { self.now.free.0 < length dead.old }
        requires entering { Entering (ways_of self.now) dead.old path.set.0 path.last (length bytes.old) }
        ensures dead { DeadEnds (field_of (ways_of self.now)) dead.new }
        ensures kept { KeptBut path.set.0 path.last dead.old dead.new }
        ensures sought { Sought (field_of (ways_of self.now)) path.set.0 path.last bytes.old result bytes.new }
    {
        let mut left = self.open_at(dead, path, bytes.len());
        while let Some(v) = left.take_lowest() {
            let longer = Path {
                set: path.set.with(v),
                last: v,
            };
            if let Some(set) = self.seek(dead, &mut bytes[1..], longer) {
                bytes[0] = v;
                return Some(set);
            }
        }
        self.end_at(dead, path)
    }
}
