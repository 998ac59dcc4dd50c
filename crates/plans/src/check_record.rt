// The check of one plan record: causes 12 to 17.
ghost use Rattle.std.specs.Prelude.{◌≡◌, ◌≤◌, T};
ghost use Rattle.pool.specs.Value.{graph_of};
ghost use Rattle.plans.specs.Check.{joined, ends_right};
ghost use Rattle.plans.specs.inner.CheckSteps.{Listed, RecordChecked};

use crate::kind::ExchangeKind;
use crate::record_part::PlanRecord;
use crate::rules::Rules;
use crate::vertices::Vertices;
use pool::Cause;
use sets::VertexSet;

// What stood before a record: the vertices met, the least first vertex allowed, the members served.
#[derive(Clone, Copy)]
pub(crate) struct Before {
    pub(crate) met: VertexSet,
    pub(crate) least: u8,
    pub(crate) served: u8,
}

impl Rules {
    // One record, whatever its spot: what stands before the next, or the cause met.
    pub(crate) fn check_record(
        &self,
        before: Before,
        bytes: &[u8; PlanRecord::WIDTH],
    ) -> Result<Before, Cause>
        requires { before.served ≤ 14 }
        ensures { RecordChecked self.now before bytes.now result }
    {
        let Some(vertices) = self.listed(bytes) else {
            return Err(Cause::PlanVertex);
        };
        let Some(met) = vertices.meet(before.met) else {
            return Err(Cause::VertexMet);
        };
        if !vertices.rises(before.least) {
            return Err(Cause::PlanOrder);
        }
        if !self.all_joined(vertices) {
            return Err(Cause::ArcMissing);
        }
        if !self.within_limits(vertices) {
            return Err(Cause::ExchangeLength);
        }
        if !self.ends_right(vertices, bytes) {
            return Err(Cause::PlanEnd);
        }
        Ok(Before {
            met,
            least: vertices.first() + 1,
            served: before.served + bytes[PlanRecord::SERVED],
        })
    }

    // Cause 17: are byte 14, the kind, and byte 15, the members served, right? All but a chain's first vertex are members, since no arc leads to an altruist.
    fn ends_right(&self, vertices: Vertices<'_>, bytes: &[u8; PlanRecord::WIDTH]) -> bool
        requires listed { Listed self.now.pool bytes.now vertices.listed.now }
        requires joined { T (joined (graph_of self.now.pool) vertices.listed.now) }
        ensures { result ≡ ends_right (graph_of self.now.pool) bytes.now }
    {
        let members = usize::from(bytes[PlanRecord::SERVED]);
        let of_chain = self.pool.is_altruist(vertices.first());
        match ExchangeKind::try_from(bytes[PlanRecord::KIND]) {
            Ok(ExchangeKind::Chain) => of_chain & (members + 1 == vertices.listed.len()),
            Ok(ExchangeKind::Ring) => !of_chain & (members == vertices.listed.len()),
            Err(_) => false,
        }
    }
}
