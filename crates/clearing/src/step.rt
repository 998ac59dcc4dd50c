// One step of choosing: the exchange taken from the lowest free vertex on, with its record.
ghost use Rattle.std.specs.Prelude.{◌≡◌, ◌-◌, ◌<◌, ◌^◌, ltb, length, get_or};
ghost use Rattle.kep.specs.inner.Lowest.{lowest};
ghost use Rattle.pool.specs.Value.{graph_of};
ghost use Rattle.clearing.specs.inner.Taking.{more_by, goal_by, Clean, pool_field, Stepped};

use crate::choice::Choice;
use crate::seeking::{Path, Step};
use plans::PlanRecord;
use sets::VertexSet;

// An exchange that a step takes: its set and its record.
#[derive(Clone, Copy)]
pub(crate) struct Taken {
    pub set: VertexSet,
    pub bytes: [u8; PlanRecord::WIDTH],
}

impl Choice<'_> {
    // The most vertices that may follow v in an exchange from it on.
    fn more_from(&self, v: u8) -> usize
        ensures { result ≡ more_by (ltb v self.now.pool.altruists) self.now.limits.cycle self.now.limits.chain }
    {
        self.limits
            .most_vertices(self.pool.is_altruist(v))
            .saturating_sub(1)
    }

    // The vertices at which an exchange from v on may end: any in a chain, in a cycle those that give to v.
    // Not the closing set of exchanges, which leaves the altruist out: every path has it already. `below(16)` would have a number for all that a set has room for, too.
    fn goal_from(&self, v: u8) -> VertexSet
        requires { v < 14 }
        ensures { result.0 ≡ goal_by (ltb v self.now.pool.altruists) (get_or self.now.givers v 0) }
    {
        if self.pool.is_altruist(v) {
            VertexSet(u16::MAX)
        } else {
            VertexSet(self.givers[usize::from(v)])
        }
    }

    // Takes an exchange from the lowest free vertex on if there is one with which the best can be reached. What fails is kept by sets
    // that have the lowest free vertex, which is free in no later step, so those find nothing kept on their own sets.
    pub(crate) fn take_exchange(&self, free: VertexSet, dead: &mut [u16]) -> Option<Taken>
        requires some { 0 < free.0 }
        requires inside { free.0 < 2 ^ self.now.pool.size }
        requires room { free.0 < length dead.old }
        requires clean { Clean free.0 dead.old }
        ensures clean { Clean (free.0 - 2 ^ lowest free.0) dead.new }
        ensures stepped { Stepped (graph_of self.now.pool) (pool_field self.now.pool self.now.exchanges.now self.now.best.now free.0) result }
    {
        let first = free.lowest();
        let step = Step {
            gives: &self.pool.gives,
            exchanges: self.exchanges,
            best: self.best,
            free,
            goal: self.goal_from(first),
        };
        let end = 1 + self.more_from(first);
        let path = Path {
            set: VertexSet::EMPTY.with(first),
            last: first,
        };
        let mut bytes = [PlanRecord::FILLER; PlanRecord::WIDTH];
        bytes[0] = first;
        let set = step.seek(dead, &mut bytes[1..end], path)?;
        bytes[PlanRecord::KIND] = self.kind_of(first).into();
        bytes[PlanRecord::SERVED] = self.members_in(set);
        Some(Taken { set, bytes })
    }
}
