ghost use Rattle.std.specs.Prelude.{◌≡◌, ◌↔◌, IfOk, IsOk, MatchOption, IsSomeAnd, OnErr, OnOk, false};
ghost use Rattle.ring_any.specs.Any.{any_greatest, any_table, any_two_way, grows, word_of};
ghost use Rattle.ring_any.specs.Kinds.{hirschberg_message, hirschberg_messages, token_put};
ghost use Rattle.ring_any.specs.Variants.{put_sends};
ghost use Rattle.ring_any.specs.declared.any.Any.{Any};

use ring_chang::{Chang, ChangState};
use ring_election::{RingElection, Sends};
use ring_hirschberg::{Hirschberg, HirschbergMsg, HirschbergState};
use ring_id::{NoMemory, NodeId, Side};
use ring_lelann::{LeLann, LeLannState};
use ring_peterson::{Peterson, PetersonState};
use std::alloc::Global;

/// One of the ring elections, each with its own guarantees (Lynch, Distributed Algorithms, 3 and
/// 15.1).
#[derive(Clone, Copy, PartialEq, Eq)]
pub enum Any {
    /// Every node elects the greatest identity by itself (LeLann, 1977).
    LeLann,
    /// The greatest identity goes all round and wins (Lynch, 15.1.1).
    Chang,
    /// The greatest identity wins; messages go both ways (Lynch, 3.4).
    Hirschberg,
    /// One node wins, but not the greatest, with few messages that go one way (Lynch, 15.1.3).
    Peterson,
}

/// A message of one of the elections. Each variant starts with the identity, and a token has no tag
/// of its own. So a message of an algorithm becomes one of the sum without moving bytes.
#[derive(Clone, Copy, PartialEq, Eq)]
pub enum AnyMsg {
    /// An identity sent in LeLann's election.
    LeLann(NodeId),
    /// An identity sent in Chang and Roberts' election.
    Chang(NodeId),
    /// A token of Hirschberg and Sinclair on its way out.
    Out { id: NodeId, hops: u32 },
    /// A token of Hirschberg and Sinclair on its way home.
    Back { id: NodeId },
    /// An identity sent in Peterson's election.
    Peterson(NodeId),
}

/// The memory of a node of one of the elections.
#[derive(Drop)]
pub enum AnyState {
    /// A node of LeLann's election.
    LeLann(LeLannState),
    /// A node of Chang and Roberts' election.
    Chang(ChangState),
    /// A node of Hirschberg and Sinclair's election.
    Hirschberg(HirschbergState),
    /// A node of Peterson's election.
    Peterson(PetersonState),
}

impl Any {
    /// The word of this kind in a line.
    pub fn word(&self) -> &'static [u8]
        ensures { result.now ≡ word_of self.now }
    {
        match self {
            Any::LeLann => b"lelann",
            Any::Chang => b"chang",
            Any::Hirschberg => b"hirschberg",
            Any::Peterson => b"peterson",
        }
    }

    /// Returns the kind with this word; `None` if no kind has it.
    pub fn from_word(word: &[u8]) -> Option<Any>
        ensures { (kind : Any) → (result ≡ Some kind) ↔ (word.now ≡ word_of kind) }
    {
        if word == Any::LeLann.word() {
            Some(Any::LeLann)
        } else if word == Any::Chang.word() {
            Some(Any::Chang)
        } else if word == Any::Hirschberg.word() {
            Some(Any::Hirschberg)
        } else if word == Any::Peterson.word() {
            Some(Any::Peterson)
        } else {
            None
        }
    }
}

impl RingElection for Any {
    ghost use Rattle.std.proofs.Common.{rules};
    ghost use Rattle.ring_any.specs.laws.Bounded.{any_bounded};
    ghost use Rattle.ring_any.specs.laws.Deciding.{any_deciding};
    ghost use Rattle.ring_any.specs.laws.Lawful.{any_lawful};
    ghost use Rattle.ring_any.specs.Any.{any_bound, any_fits, any_winner};

    type Msg = AnyMsg;

    type State = AnyState;

    ghost is_two_way = { any_two_way };

    ghost is_greatest = { any_greatest };

    ghost table = { any_table };

    ghost fits = { any_fits };

    ghost winner = { any_winner };

    ghost bound = { any_bound };

    /// Whether this kind sends to the left.
    fn two_way(&self) -> bool {
        match self {
            Any::LeLann => LeLann.two_way(),
            Any::Chang => Chang.two_way(),
            Any::Hirschberg => Hirschberg.two_way(),
            Any::Peterson => Peterson.two_way(),
        }
    }

    /// Whether this kind promises to elect the greatest identity.
    fn greatest(&self) -> bool {
        match self {
            Any::LeLann => LeLann.greatest(),
            Any::Chang => Chang.greatest(),
            Any::Hirschberg => Hirschberg.greatest(),
            Any::Peterson => Peterson.greatest(),
        }
    }

    /// Returns the first state of this kind, and its first sends. Does not allocate.
    fn start(&self, alloc: Global, me: NodeId) -> (AnyState, Sends<AnyMsg>) {
        match self {
            Any::LeLann => {
                let (state, sends) = LeLann.start(alloc, me);
                (AnyState::LeLann(state), wrapped(sends, AnyMsg::LeLann))
            }
            Any::Chang => {
                let (state, sends) = Chang.start(alloc, me);
                (AnyState::Chang(state), wrapped(sends, AnyMsg::Chang))
            }
            Any::Hirschberg => {
                let (state, sends) = Hirschberg.start(alloc, me);
                (AnyState::Hirschberg(state), tokens(sends))
            }
            Any::Peterson => {
                let (state, sends) = Peterson.start(alloc, me);
                (AnyState::Peterson(state), wrapped(sends, AnyMsg::Peterson))
            }
        }
    }

    /// Takes one message by this kind. A state or a message of another kind changes nothing and
    /// sends nothing. `NoMemory` only if LeLann's list has to grow; the state is then unchanged.
    #[inline(always)]
    fn receive(
        &self,
        state: &mut AnyState,
        from: Side,
        message: AnyMsg,
    ) -> Result<Sends<AnyMsg>, NoMemory>
        ensures free { grows self.now state.old from message ≡ false → IsOk result }
        ensures state { OnOk result (state.new ≡ (any_table self.now).next state.old from message) }
        ensures sends { IfOk result
            (λ s. s ≡ (any_table self.now).next_sends state.old from message) }
        ensures err { OnErr result (state.new ≡ state.old) }
    {
        match (self, state, message) {
            (Any::LeLann, AnyState::LeLann(state), AnyMsg::LeLann(message)) => {
                let sends = LeLann.receive(state, from, message)?;
                Ok(wrapped(sends, AnyMsg::LeLann))
            }
            (Any::Chang, AnyState::Chang(state), AnyMsg::Chang(message)) => {
                let sends = Chang.receive(state, from, message)?;
                Ok(wrapped(sends, AnyMsg::Chang))
            }
            (Any::Hirschberg, AnyState::Hirschberg(state), message) => {
                let Some(message) = token_of(message) else {
                    return Ok(NOTHING);
                };
                let sends = Hirschberg.receive(state, from, message)?;
                Ok(tokens(sends))
            }
            (Any::Peterson, AnyState::Peterson(state), AnyMsg::Peterson(message)) => {
                let sends = Peterson.receive(state, from, message)?;
                Ok(wrapped(sends, AnyMsg::Peterson))
            }
            _ => Ok(NOTHING),
        }
    }

    /// The decision of a state of this kind; `None` for a state of another kind.
    fn decision(&self, state: &AnyState) -> Option<NodeId> {
        match (self, state) {
            (Any::LeLann, AnyState::LeLann(state)) => LeLann.decision(state),
            (Any::Chang, AnyState::Chang(state)) => Chang.decision(state),
            (Any::Hirschberg, AnyState::Hirschberg(state)) => Hirschberg.decision(state),
            (Any::Peterson, AnyState::Peterson(state)) => Peterson.decision(state),
            _ => None,
        }
    }

    ghost lawful = { any_lawful };

    ghost deciding = { any_deciding };

    ghost bounded = { any_bounded };

    ghost equal_same = { λ a b h. Prim.search rules };

    ghost equal_messages = { λ a b h. Prim.search rules };
}

/// No sends.
const NOTHING: Sends<AnyMsg> = Sends {
    left: None,
    right: None,
};

/// The token of Hirschberg and Sinclair in a message of the sum, if it is one.
#[inline(always)]
fn token_of(message: AnyMsg) -> Option<HirschbergMsg>
    ensures { result ≡ hirschberg_message message }
{
    match message {
        AnyMsg::Out { id, hops } => Some(HirschbergMsg::Out { id, hops }),
        AnyMsg::Back { id } => Some(HirschbergMsg::Back { id }),
        AnyMsg::LeLann(_) | AnyMsg::Chang(_) | AnyMsg::Peterson(_) => None,
    }
}

/// A token of Hirschberg and Sinclair as a message of the sum.
#[inline(always)]
fn token(message: HirschbergMsg) -> AnyMsg
    ensures { result ≡ token_put message }
{
    match message {
        HirschbergMsg::Out { id, hops } => AnyMsg::Out { id, hops },
        HirschbergMsg::Back { id } => AnyMsg::Back { id },
    }
}

/// These sends, with each token made a message of the sum.
#[inline(always)]
fn tokens(sends: Sends<HirschbergMsg>) -> Sends<AnyMsg>
    ensures { result ≡ put_sends hirschberg_messages sends }
{
    let Sends { left, right } = sends;
    Sends {
        left: left.map(token),
        right: right.map(token),
    }
}

/// These sends, with each message made one of the sum.
fn wrapped<M, F: Fn(M) -> AnyMsg>(sends: Sends<M>, wrap: F) -> Sends<AnyMsg>
    requires { F.IsAlwaysCallable wrap }
    ensures left { MatchOption sends.left (result.left ≡ None)
        (λ m. IsSomeAnd result.left (F.post wrap m)) }
    ensures right { MatchOption sends.right (result.right ≡ None)
        (λ m. IsSomeAnd result.right (F.post wrap m)) }
{
    let Sends { left, right } = sends;
    Sends {
        left: left.map(&wrap),
        right: right.map(&wrap),
    }
}
