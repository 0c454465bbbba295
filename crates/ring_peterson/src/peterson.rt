ghost use Rattle.std.specs.Prelude.{◌≡◌, IfOk, IsOk, OnErr, OnOk, false};

use ring_election::{RingElection, Sends};
use ring_id::{NoMemory, NodeId, Side};
use std::alloc::Global;

/// Peterson's algorithm, which elects one node of a ring, but not the greatest (PetersonLeader;
/// Lynch, Distributed Algorithms, 15.1.3).
///
/// A message is an identity, and all messages go to the right.
#[derive(Clone, Copy, PartialEq, Eq)]
pub struct Peterson;

/// Whether a node still takes part.
#[derive(Clone, Copy)]
pub enum Mode {
    /// It compares values.
    Active,
    /// It passes on each message that it receives.
    Relay,
}

/// The memory of a node of this algorithm: its identity, its mode, its value in this round (Lynch's
/// uid(1)), and whether it is chosen. Once the value of the active node to its left has come
/// (uid(2)), the node keeps that too.
#[derive(Clone, Copy)]
pub struct PetersonState {
    me: NodeId,
    mode: Mode,
    uid1: NodeId,
    uid2: Option<NodeId>,
    chosen: bool,
}

impl PetersonState {
    ghost use Rattle.ring_peterson.specs.Peterson.{left_next, left_sends};

    /// Takes one message from the left: changes the state, and returns the message to the right.
    fn receive_from_left(&mut self, message: NodeId) -> Option<NodeId>
        ensures state { self.new ≡ left_next self.old self.old.mode message }
        ensures sends { result ≡ (left_sends self.old self.old.mode message).right }
    {
        match (self.mode, self.uid2) {
            (Mode::Active, None) => {
                self.uid2 = Some(message);
                self.chosen = self.chosen || message == self.uid1;
                Some(message)
            }
            (Mode::Active, Some(second)) if second > self.uid1 && second > message => {
                self.uid1 = second;
                self.uid2 = None;
                Some(second)
            }
            (Mode::Active, Some(_)) => {
                self.mode = Mode::Relay;
                None
            }
            (Mode::Relay, _) => Some(message),
        }
    }
}

impl RingElection for Peterson {
    ghost use Rattle.std.proofs.Common.{rules};
    ghost use Rattle.std.specs.Prelude.{false};
    ghost use Rattle.ring_election.specs.Tables.{rightward};
    ghost use Rattle.ring_peterson.specs.laws.Bounded.{peterson_bounded};
    ghost use Rattle.ring_peterson.specs.laws.Deciding.{peterson_deciding};
    ghost use Rattle.ring_peterson.specs.laws.Lawful.{peterson_lawful};
    ghost use Rattle.ring_peterson.specs.Peterson.{peterson_decided, peterson_first, peterson_next, peterson_sends, peterson_table};
    ghost use Rattle.ring_peterson.specs.Rounds.{peterson_bound, peterson_fits, peterson_winner};

    type Msg = NodeId;

    type State = PetersonState;

    ghost is_two_way = { λ _. false };

    ghost is_greatest = { λ _. false };

    ghost table = { λ _. peterson_table };

    ghost fits = { λ _. peterson_fits };

    ghost winner = { λ _. peterson_winner };

    ghost bound = { λ _. peterson_bound };

    /// Never: messages go only to the right.
    fn two_way(&self) -> bool
        ensures { result ≡ false }
    {
        false
    }

    /// Never. Another identity may win, and does on each ring of two or more members in
    /// `the_last_position_alone_decides_by_peterson`: tested, not proved.
    fn greatest(&self) -> bool
        ensures { result ≡ false }
    {
        false
    }

    /// Returns an active state with the node's own identity, and that identity to the right. Does
    /// not allocate.
    fn start(&self, _: Global, me: NodeId) -> (PetersonState, Sends<NodeId>)
        ensures state { result.0 ≡ peterson_first me }
        ensures sends { result.1 ≡ rightward me }
    {
        let state = PetersonState {
            me,
            mode: Mode::Active,
            uid1: me,
            uid2: None,
            chosen: false,
        };
        let sends = Sends {
            left: None,
            right: Some(me),
        };
        (state, sends)
    }

    /// Takes a message. From the left, an active node keeps the first of two messages and passes it
    /// on. At the second it takes the first over and sends it, or becomes a relay and sends
    /// nothing. A relay passes each message on. A message from the right changes nothing. Does not
    /// allocate.
    fn receive(
        &self,
        state: &mut PetersonState,
        from: Side,
        message: NodeId,
    ) -> Result<Sends<NodeId>, NoMemory>
        ensures free { IsOk result }
        ensures state { OnOk result (state.new ≡ peterson_next state.old from message) }
        ensures sends { IfOk result (λ s. s ≡ peterson_sends state.old from message) }
        ensures err { OnErr result (state.new ≡ state.old) }
    {
        let right = match from {
            Side::Left => state.receive_from_left(message),
            Side::Right => None,
        };
        Ok(Sends { left: None, right })
    }

    /// The node itself once it is chosen; otherwise `None`.
    fn decision(&self, state: &PetersonState) -> Option<NodeId>
        ensures { result ≡ peterson_decided state.now }
    {
        if state.chosen { Some(state.me) } else { None }
    }

    ghost lawful = { λ _. peterson_lawful };

    ghost deciding = { λ _. peterson_deciding };

    ghost bounded = { λ _. peterson_bounded };

    ghost equal_same = { λ a b h. Prim.search rules };

    ghost equal_messages = { λ a b h. Prim.search rules };
}
