ghost use Rattle.std.specs.Prelude.{◌≡◌, IfOk, OnErr, OnOk};

use crate::sends::Sends;
use ring_id::{NoMemory, NodeId, Side};
use std::alloc::Global;

/// An algorithm that elects a leader on a ring of nodes (Lynch, Distributed Algorithms, 3 and
/// 15.1).
/// The calls are its table: the first state and sends, the state and sends after one receipt, and
/// the decision of a state. No call sees the ring. The ghost members are the table, the messages
/// that fit a link, the winner of a ring, and the most messages of an election. The laws relate
/// them. Equal algorithms are identical, and so are equal messages.
pub trait RingElection: Copy + Eq {
    ghost use Rattle.std.specs.Prelude.{ℕ, Bool, List, true};
    ghost use Rattle.ring_election.specs.Tables.{Table};
    ghost use Rattle.ring_election.specs.Families.{Fitting};
    ghost use Rattle.ring_election.specs.Laws.{Bounded, Deciding, Lawful};

    /// A message from one node to another.
    type Msg: Copy + Eq;

    /// The memory of a node.
    type State: Drop;

    // whether it sends to the left
    ghost is_two_way: { Self → Bool };

    // whether it promises to elect the greatest identity
    ghost is_greatest: { Self → Bool };

    // what its calls compute: states, sends and decisions
    ghost table: { Self → Table Self.State Self.Msg };

    // which message may be the k-th of a link of a ring
    ghost fits: { Self → Fitting Self.Msg };

    // the winner of a ring
    ghost winner: { Self → List ℕ → ℕ };

    // the most messages that an election on a ring of this length takes
    ghost bound: { Self → ℕ → ℕ };

    /// Whether it sends to the left.
    fn two_way(&self) -> bool
        ensures { result ≡ is_two_way self.now };

    /// Whether it promises to elect the greatest identity.
    fn greatest(&self) -> bool
        ensures { result ≡ is_greatest self.now };

    /// Returns the first state of the node with this identity, and its first sends. Does not
    /// allocate.
    fn start(&self, alloc: Global, me: NodeId) -> (Self::State, Sends<Self::Msg>)
        ensures state { result.0 ≡ (table self.now).first me }
        ensures sends { result.1 ≡ (table self.now).first_sends me };

    /// Takes one message from that side: changes the state, and returns the messages sent in
    /// answer. `NoMemory` if an allocation fails; the state is then unchanged.
    fn receive(
        &self,
        state: &mut Self::State,
        from: Side,
        message: Self::Msg,
    ) -> Result<Sends<Self::Msg>, NoMemory>
        ensures state { OnOk result (state.new ≡ (table self.now).next state.old from message) }
        ensures sends { IfOk result (λ s. s ≡ (table self.now).next_sends state.old from message) }
        ensures err { OnErr result (state.new ≡ state.old) };

    /// The identity that this node has decided on by itself; `None` if it has not decided.
    fn decision(&self, state: &Self::State) -> Option<NodeId>
        ensures { result ≡ (table self.now).decided state.now };

    // the laws that keep a leader unique
    ghost lawful: { (a : Self)
        → Lawful (is_two_way a) (is_greatest a) (table a) (fits a) (winner a) };

    // if every sent message was taken, some node has decided
    ghost deciding: { (a : Self) → Deciding (table a) (fits a) };

    // no election takes more messages than the bound
    ghost bounded: { (a : Self) → Bounded (table a) (fits a) (bound a) };

    // equal algorithms are identical
    ghost equal_same: { (a b : Self) → Self.eq a b ≡ true → a ≡ b };

    // equal messages are identical
    ghost equal_messages: { (a b : Self.Msg) → Self.Msg.eq a b ≡ true → a ≡ b };
}
