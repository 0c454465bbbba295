ghost use Rattle.std.specs.Prelude.{◌≡◌, ◌∷◌, IfOk, IsOk, OnErr, OnOk, false, true};
ghost use Rattle.ring_election.specs.Tables.{rightward};
ghost use Rattle.ring_id.specs.declared.side.Side.TheVariants as side;
ghost use Rattle.ring_roster.specs.Ring.{greatest_of};

use ring_election::{RingElection, Sends};
use ring_id::{NoMemory, NodeId, Side};
use std::alloc::Global;
use std::marker::Model;

/// The algorithm of LeLann, in which every node elects the greatest identity by itself (LeLann,
/// Distributed systems: towards a formal approach, IFIP 1977; the ring is that of Lynch,
/// Distributed Algorithms, 3.1).
///
/// A message is an identity. A node sends its own to the right and passes all others on. If its own
/// comes back, it has seen every member, and it decides.
#[derive(Clone, Copy, PartialEq, Eq)]
pub struct LeLann;

/// The memory of a node of this algorithm.
///
/// Contracts see one record: the node's identity, the identities that it has seen, and its
/// decision.
#[derive(Drop)]
pub struct LeLannState {
    me: NodeId,
    seen: Vec<NodeId>,
    decided: Option<NodeId>,
}

impl Model for LeLannState {
    ghost use Rattle.ring_lelann.specs.LeLann.{Knowledge};

    ghost Value = { Knowledge };

    ghost view = { λ a. record { me = a.me; seen = a.seen.items; decided = a.decided } };
}

impl LeLannState {
    /// The identities of others that came from the left, in the order of their receipt. Does not
    /// allocate.
    pub fn seen(&self) -> &[NodeId]
        ensures { result.now ≡ self.now.seen }
    {
        &self.seen
    }
}

impl RingElection for LeLann {
    ghost use Rattle.std.specs.Prelude.{true, false};
    ghost use Rattle.std.proofs.Common.{rules};
    ghost use Rattle.ring_lelann.specs.laws.Bounded.{lelann_bounded};
    ghost use Rattle.ring_lelann.specs.laws.Deciding.{lelann_deciding};
    ghost use Rattle.ring_lelann.specs.laws.Lawful.{lelann_lawful};
    ghost use Rattle.ring_lelann.specs.LeLann.{lelann_bound, lelann_first, lelann_fits, lelann_next, lelann_sends, lelann_table};

    type Msg = NodeId;

    type State = LeLannState;

    ghost is_two_way = { λ _. false };

    ghost is_greatest = { λ _. true };

    ghost table = { λ _. lelann_table };

    ghost fits = { λ _. lelann_fits };

    ghost winner = { λ _. greatest_of };

    ghost bound = { λ _. lelann_bound };

    /// Never: messages go only to the right.
    fn two_way(&self) -> bool
        ensures { result ≡ false }
    {
        false
    }

    /// Always: the winner is the greatest identity.
    fn greatest(&self) -> bool
        ensures { result ≡ true }
    {
        true
    }

    /// Returns a state without seen identities and decision, and the node's own identity to the
    /// right. Does not allocate.
    fn start(&self, alloc: Global, me: NodeId) -> (LeLannState, Sends<NodeId>)
        ensures state { result.0 ≡ lelann_first me }
        ensures sends { result.1 ≡ rightward me }
    {
        let state = LeLannState {
            me,
            seen: Vec::new(alloc),
            decided: None,
        };
        let sends = Sends {
            left: None,
            right: Some(me),
        };
        (state, sends)
    }

    /// Takes a message. From the left, another's identity is added to those seen and passed on. The
    /// node's own identity decides the greatest known one, unless the node has decided before. A
    /// message from the right changes nothing.
    ///
    /// `NoMemory` only if the list of seen identities has to grow. The list grows before anything
    /// else changes, so a failed allocation leaves the state as it was.
    fn receive(
        &self,
        state: &mut LeLannState,
        from: Side,
        message: NodeId,
    ) -> Result<Sends<NodeId>, NoMemory>
        ensures free_at_home { message ≡ state.old.me → IsOk result }
        ensures free_from_right { from ≡ side.Right → IsOk result }
        ensures state { OnOk result (state.new ≡ lelann_next state.old from message) }
        ensures sends { IfOk result (λ s. s ≡ lelann_sends state.old from message) }
        ensures err { OnErr result (state.new ≡ state.old) }
    {
        let mut sends = Sends {
            left: None,
            right: None,
        };
        if from == Side::Left {
            if message != state.me {
                state.seen.push(message).map_err(|_| NoMemory)?;
                sends.right = Some(message);
            } else if state.decided.is_none() {
                state.decided = Some(greatest(state.me, &state.seen));
            }
        }
        Ok(sends)
    }

    /// The greatest identity known when the node's own first came back from the left; `None` if it
    /// has not come back.
    fn decision(&self, state: &LeLannState) -> Option<NodeId>
        ensures { result ≡ state.now.decided }
    {
        state.decided
    }

    ghost lawful = { λ _. lelann_lawful };

    ghost deciding = { λ _. lelann_deciding };

    ghost bounded = { λ _. lelann_bounded };

    ghost equal_same = { λ a b h. Prim.search rules };

    ghost equal_messages = { λ a b h. Prim.search rules };
}

/// The greatest of these identities.
fn greatest(me: NodeId, seen: &[NodeId]) -> NodeId
    ensures { result ≡ greatest_of (me ∷ seen.now) }
{
    let mut greatest = me;
    for node in seen {
        greatest = greatest.max(*node);
    }
    greatest
}
