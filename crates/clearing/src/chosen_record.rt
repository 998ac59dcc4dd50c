// The record of an exchange: what stands behind its vertices, told from its first vertex and its set.
ghost use Rattle.std.specs.Prelude.{[], ◌∷◌, ◌≡◌};
ghost use Rattle.pool.specs.Value.{graph_of};
ghost use Rattle.kep.specs.Sets.{worth_of};
ghost use Rattle.kep.specs.Table.{member_worth};
ghost use Rattle.kep.specs.Plan.{kind_of};
ghost use Rattle.plans.specs.Kind.{byte_of};

use crate::choice::Choice;
use plans::ExchangeKind;
use sets::VertexSet;

impl Choice<'_> {
    // The members in a set.
    pub(crate) fn members_in(&self, set: VertexSet) -> u8
        ensures { result ≡ worth_of (member_worth (graph_of self.now.pool)) self.now.pool.size set.0 }
    {
        (set & self.pool.members()).size()
    }

    // The kind of an exchange, by its first vertex.
    #[tactic(auto, using(crate::proofs::RecordCode::chain_kind, crate::proofs::RecordCode::ring_kind))]
    pub(crate) fn kind_of(&self, first: u8) -> ExchangeKind
        ensures { byte_of result ≡ kind_of (graph_of self.now.pool) (first ∷ []) }
    {
        if self.pool.is_altruist(first) {
            ExchangeKind::Chain
        } else {
            ExchangeKind::Ring
        }
    }
}
