ghost use Rattle.std.specs.Prelude.{◌≡◌, ◌^◌, IsOk, IfOk, OnErr, OnOk, true, false};
ghost use Rattle.ring_election.specs.Tables.{nothing};
ghost use Rattle.ring_hirschberg.specs.Hirschberg.{counted, hirschberg_decided, hirschberg_first, hirschberg_first_sends, hirschberg_next, hirschberg_sends, new_token, one_to, passed, phase, to_both};

use ring_election::{RingElection, Sends};
use ring_id::{NoMemory, NodeId, Side};
use std::alloc::Global;

/// The greatest count of tokens come home; a count that has reached it stays. So the last phase is
/// 16, and its token makes 65536 hops. A ring of 256 needs no phase beyond 8.
const MOST: u8 = 16;

/// The Hirschberg-Sinclair algorithm without rounds (Lynch, Distributed Algorithms, 3.4).
///
/// It sends to both sides and elects the greatest identity.
#[derive(Clone, Copy, PartialEq, Eq)]
pub struct Hirschberg;

/// A token: Lynch's (v, out, h) and (v, in, 1).
#[derive(Clone, Copy, PartialEq, Eq)]
pub enum HirschbergMsg {
    /// On its way out; its last hop is the one with `hops` 1.
    Out { id: NodeId, hops: u32 },
    /// On its way home.
    Back { id: NodeId },
}

/// The memory of a node: how many of its tokens came home from each side, at most 16, and its
/// decision. The lesser of the two counts is its phase.
#[derive(Clone, Copy)]
pub struct HirschbergState {
    me: NodeId,
    left: u8,
    right: u8,
    decided: Option<NodeId>,
}

impl HirschbergState {
    /// How often both tokens came home.
    fn phase(&self) -> u8
        ensures { result ≡ phase self.now }
    {
        self.left.min(self.right)
    }

    /// Counts one more token that came home from that side.
    fn count(&mut self, side: Side)
        ensures { self.new ≡ counted self.old side }
    {
        match side {
            Side::Left if self.left < MOST => self.left += 1,
            Side::Right if self.right < MOST => self.right += 1,
            _ => {}
        }
    }

    /// Counts an own token that came home from that side. If that begins a phase, returns its token
    /// to both sides.
    #[inline(always)]
    fn come_home(&mut self, side: Side) -> Sends<HirschbergMsg>
        ensures state { self.new ≡ counted self.old side }
        ensures sends { result ≡ new_token self.old (counted self.old side) }
    {
        let before = self.phase();
        self.count(side);
        let phase = self.phase();
        if before < phase {
            token(self.me, 2u32.pow(u32::from(phase)))
        } else {
            none()
        }
    }
}

impl RingElection for Hirschberg {
    ghost use Rattle.std.proofs.Common.{rules};
    ghost use Rattle.ring_roster.specs.Ring.{greatest_of};
    ghost use Rattle.ring_hirschberg.specs.Hirschberg.{hirschberg_bound, hirschberg_fits, hirschberg_table};
    ghost use Rattle.ring_hirschberg.specs.laws.Bounded.{hirschberg_bounded};
    ghost use Rattle.ring_hirschberg.specs.laws.Deciding.{hirschberg_deciding};
    ghost use Rattle.ring_hirschberg.specs.laws.Lawful.{hirschberg_lawful};

    type Msg = HirschbergMsg;

    type State = HirschbergState;

    ghost is_two_way = { λ _. true };

    ghost is_greatest = { λ _. true };

    ghost table = { λ _. hirschberg_table };

    ghost fits = { λ _. hirschberg_fits };

    ghost winner = { λ _. greatest_of };

    ghost bound = { λ _. hirschberg_bound };

    /// True: tokens go to both sides.
    fn two_way(&self) -> bool
        ensures { result ≡ true }
    {
        true
    }

    /// True: the leader is the greatest member.
    fn greatest(&self) -> bool
        ensures { result ≡ true }
    {
        true
    }

    /// Returns a state of phase 0, and a token of one hop to both sides. Does not allocate.
    fn start(&self, _: Global, me: NodeId) -> (HirschbergState, Sends<HirschbergMsg>)
        ensures state { result.0 ≡ hirschberg_first me }
        ensures sends { result.1 ≡ hirschberg_first_sends me }
    {
        let state = HirschbergState {
            me,
            left: 0,
            right: 0,
            decided: None,
        };
        (state, token(me, 1))
    }

    /// Takes a token. Decides if the own token comes round, passes greater tokens on and drops
    /// smaller ones. If both own tokens have come home, it begins a phase. Does not allocate.
    #[inline(always)]
    fn receive(
        &self,
        state: &mut HirschbergState,
        from: Side,
        message: HirschbergMsg,
    ) -> Result<Sends<HirschbergMsg>, NoMemory>
        ensures free { IsOk result }
        ensures state { OnOk result (state.new ≡ hirschberg_next state.old from message) }
        ensures sends { IfOk result (λ s. s ≡ hirschberg_sends state.old from message) }
        ensures err { OnErr result (state.new ≡ state.old) }
    {
        let sends = match message {
            HirschbergMsg::Out { id, hops } => {
                if id == state.me {
                    state.decided = Some(id);
                    none()
                } else if id > state.me {
                    pass(from, id, hops)
                } else {
                    none()
                }
            }
            HirschbergMsg::Back { id } => {
                if id == state.me {
                    state.come_home(from)
                } else {
                    to(from.other(), HirschbergMsg::Back { id })
                }
            }
        };
        Ok(sends)
    }

    /// The node's own identity once its token came round; otherwise `None`.
    fn decision(&self, state: &HirschbergState) -> Option<NodeId>
        ensures { result ≡ hirschberg_decided state.now }
    {
        state.decided
    }

    ghost lawful = { λ _. hirschberg_lawful };

    ghost deciding = { λ _. hirschberg_deciding };

    ghost bounded = { λ _. hirschberg_bounded };

    ghost equal_same = { λ a b h. Prim.search rules };

    ghost equal_messages = { λ a b h. Prim.search rules };
}

/// No message to either side.
fn none() -> Sends<HirschbergMsg>
    ensures { result ≡ nothing HirschbergMsg }
{
    Sends {
        left: None,
        right: None,
    }
}

/// One message to that side.
fn to(side: Side, message: HirschbergMsg) -> Sends<HirschbergMsg>
    ensures { result ≡ one_to side message }
{
    match side {
        Side::Left => Sends {
            left: Some(message),
            right: None,
        },
        Side::Right => Sends {
            left: None,
            right: Some(message),
        },
    }
}

/// A token of this many hops to both sides.
fn token(id: NodeId, hops: u32) -> Sends<HirschbergMsg>
    ensures { result ≡ to_both (HirschbergMsg.Out id hops) }
{
    Sends {
        left: Some(HirschbergMsg::Out { id, hops }),
        right: Some(HirschbergMsg::Out { id, hops }),
    }
}

/// The next step of a greater token: on with one hop less, turned at its last hop, or dropped if it
/// has no hop left.
#[inline(always)]
fn pass(from: Side, id: NodeId, hops: u32) -> Sends<HirschbergMsg>
    ensures { result ≡ passed from id hops }
{
    match hops {
        0 => none(),
        1 => to(from, HirschbergMsg::Back { id }),
        _ => to(from.other(), HirschbergMsg::Out { id, hops: hops - 1 }),
    }
}
