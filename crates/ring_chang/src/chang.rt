ghost use Rattle.std.specs.Prelude.{◌≡◌, IfOk, IsOk, OnErr, OnOk, false, true};
ghost use Rattle.ring_chang.specs.Chang.{chang_first, chang_next, chang_sends};
ghost use Rattle.ring_election.specs.Tables.{rightward};

use ring_election::{RingElection, Sends};
use ring_id::{NoMemory, NodeId, Side};
use std::alloc::Global;

/// The algorithm of Chang and Roberts, which elects the greatest identity (Lynch, Distributed
/// Algorithms, 3.3 and 15.1.1: AsynchLCR).
///
/// A message is an identity. A node sends its own to the right and passes greater ones on. If its
/// own comes back, it decides on itself.
#[derive(Clone, Copy, PartialEq, Eq)]
pub struct Chang;

/// The memory of a node of this algorithm.
#[derive(Drop)]
pub struct ChangState {
    me: NodeId,
    decided: Option<NodeId>,
}

impl RingElection for Chang {
    ghost use Rattle.std.specs.Prelude.{true, false};
    ghost use Rattle.std.proofs.Common.{rules};
    ghost use Rattle.ring_roster.specs.Ring.{greatest_of};
    ghost use Rattle.ring_chang.specs.Chang.{chang_bound, chang_fits, chang_table};
    ghost use Rattle.ring_chang.specs.laws.Bounded.{chang_bounded};
    ghost use Rattle.ring_chang.specs.laws.Deciding.{chang_deciding};
    ghost use Rattle.ring_chang.specs.laws.Lawful.{chang_lawful};

    type Msg = NodeId;

    type State = ChangState;

    ghost is_two_way = { λ _. false };

    ghost is_greatest = { λ _. true };

    ghost table = { λ _. chang_table };

    ghost fits = { λ _. chang_fits };

    ghost winner = { λ _. greatest_of };

    ghost bound = { λ _. chang_bound };

    /// Never: messages go only to the right.
    fn two_way(&self) -> bool
        ensures { result ≡ false }
    {
        false
    }

    /// Always: the winner is the greatest identity.
    fn greatest(&self) -> bool
        ensures { result ≡ true }
    {
        true
    }

    /// Returns an undecided state and the node's own identity to the right. Does not allocate.
    fn start(&self, _: Global, me: NodeId) -> (ChangState, Sends<NodeId>)
        ensures state { result.0 ≡ chang_first me }
        ensures sends { result.1 ≡ rightward me }
    {
        let state = ChangState { me, decided: None };
        let sends = Sends {
            left: None,
            right: Some(me),
        };
        (state, sends)
    }

    /// Passes a greater identity from the left on, and decides if it is the node's own. Does not
    /// allocate.
    fn receive(
        &self,
        state: &mut ChangState,
        from: Side,
        message: NodeId,
    ) -> Result<Sends<NodeId>, NoMemory>
        ensures free { IsOk result }
        ensures state { OnOk result (state.new ≡ chang_next state.old from message) }
        ensures sends { IfOk result (λ s. s ≡ chang_sends state.old from message) }
        ensures err { OnErr result (state.new ≡ state.old) }
    {
        let mut sends = Sends {
            left: None,
            right: None,
        };
        if from == Side::Left {
            if message > state.me {
                sends.right = Some(message);
            } else if message == state.me {
                state.decided = Some(state.me);
            }
        }
        Ok(sends)
    }

    /// The node itself if its own identity came back from the left; otherwise `None`.
    fn decision(&self, state: &ChangState) -> Option<NodeId>
        ensures { result ≡ state.now.decided }
    {
        state.decided
    }

    ghost lawful = { λ _. chang_lawful };

    ghost deciding = { λ _. chang_deciding };

    ghost bounded = { λ _. chang_bounded };

    ghost equal_same = { λ a b h. Prim.search rules };

    ghost equal_messages = { λ a b h. Prim.search rules };
}
