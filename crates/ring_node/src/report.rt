ghost use Rattle.std.specs.Prelude.{◌≡◌, Some, slice_get};
ghost use Rattle.ring_node.specs.Reports.{IsTruthful};

use crate::charter::Charter;
use ring_election::RingElection;
use ring_id::NodeId;
use std::marker::Model;
use std::sync::Arc;

/// A member of a term's ring, and the leader of that term.
///
/// The type keeps that the member is in the ring of the charter, and that the leader is the winner
/// of that ring. `Node::take` and `Node::report` promise more: the member's node knows the leader.
#[derive(Drop)]
pub struct Report<E: RingElection> {
    charter: Arc<Charter<E>>,
    position: usize,
    member: NodeId,
    leader: NodeId,
}

impl<E: RingElection> Model for Report<E> {
    ghost use Rattle.std.specs.Prelude.{◌≡◌, Some, slice_get};
    ghost use Rattle.ring_node.specs.Reports.{IsTruthful, Told};

    ghost Value = { Told E };

    ghost view = { λ a. record {
      charter = a.charter.value;
      member = a.member;
      leader = a.leader;
    } };

    ghost invariant = { λ a. IsTruthful (E.winner a.charter.value.algorithm) a.charter.value.roster
        a.member a.leader × (slice_get a.charter.value.roster a.position ≡ Some a.member) };
}

impl<E: RingElection> Report<E> {
    /// Returns the report of the member at this position of the charter's ring, and of the ring's
    /// winner. Does not allocate.
    pub fn new(
        charter: Arc<Charter<E>>,
        position: usize,
        member: NodeId,
        leader: NodeId,
    ) -> Report<E>
        requires truthful { IsTruthful (E.winner charter.value.algorithm) charter.value.roster
            member leader }
        requires there { slice_get charter.value.roster position ≡ Some member }
        ensures { result ≡ record { charter = charter.value; member = member; leader = leader } }
    {
        Report {
            charter,
            position,
            member,
            leader,
        }
    }

    /// The charter of the term. Does not allocate, like the other readers.
    pub fn charter(&self) -> &Arc<Charter<E>>
        ensures { result.now.value ≡ self.now.charter }
    {
        &self.charter
    }

    /// The member.
    pub fn member(&self) -> NodeId
        ensures value { result ≡ self.now.member }
        ensures truthful { IsTruthful (E.winner self.now.charter.algorithm) self.now.charter.roster
            self.now.member self.now.leader }
    {
        self.member
    }

    /// The position of that member on the charter's ring.
    pub fn position(&self) -> usize
        ensures there { slice_get self.now.charter.roster result ≡ Some self.now.member }
        ensures truthful { IsTruthful (E.winner self.now.charter.algorithm) self.now.charter.roster
            self.now.member self.now.leader }
    {
        self.position
    }

    /// The leader.
    pub fn leader(&self) -> NodeId
        ensures value { result ≡ self.now.leader }
        ensures truthful { IsTruthful (E.winner self.now.charter.algorithm) self.now.charter.roster
            self.now.member self.now.leader }
    {
        self.leader
    }
}
