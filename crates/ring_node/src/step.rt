ghost use Rattle.std.specs.Prelude.{◌≡◌, ◌+◌, ◌^◌, ◌<◌, ◌≤◌, ◌++◌, ◌∷◌, [], vec_capacity, vec_len, IfOk, OnErr, OnOk, true, false};
ghost use Rattle.ring_id.specs.declared.side.Side.TheVariants.{Left, Right};
ghost use Rattle.ring_election.specs.Traces.{taken_from};
ghost use Rattle.ring_node.specs.Journals.{algo_count, algo_sends, brought, kept_or, leader_count, news, state_on};

use crate::packet::Packet;
use crate::port::Port;
use crate::room::find_room;
use ring_election::RingElection;
use ring_id::{NoMemory, NodeId, Side};

/// Finds room for the packets of a step and for its receipt, at a node of a ring of this length.
/// The packets sent, taken and received stay in any case.
#[inline(always)]
pub fn prepare<M: Copy>(
    two_way: bool,
    ring: usize,
    left: &mut Port<M>,
    right: &mut Port<M>,
    journal: &mut Vec<(Side, Packet<M>)>,
) -> Result<(), NoMemory>
    ensures left { (left.new.sent.items ≡ left.old.sent.items) × (left.new.algos ≡ left.old.algos)
        × (left.new.leaders ≡ left.old.leaders) }
    ensures right { (right.new.sent.items ≡ right.old.sent.items)
        × (right.new.algos ≡ right.old.algos) × (right.new.leaders ≡ right.old.leaders) }
    ensures journal { journal.new.items ≡ journal.old.items }
    ensures room_left { OnOk result
        (two_way ≡ true → vec_len left.new.sent + 2 ≤ vec_capacity left.new.sent) }
    ensures room_right { OnOk result (vec_len right.new.sent + 2 ≤ vec_capacity right.new.sent) }
    ensures room_journal { OnOk result (vec_len journal.new + 1 ≤ vec_capacity journal.new) }
{
    left.make_room(two_way, ring)?;
    right.make_room(true, ring)?;
    find_room(journal, 1, ring)
}

/// Gives a packet to the algorithm: changes the state, sends its messages, and returns the leader
/// that the packet brings. `NoMemory` if an allocation fails; nothing has changed then.
pub fn run<E: RingElection>(
    algorithm: E,
    state: &mut E::State,
    from: Side,
    packet: Packet<E::Msg>,
    left: &mut Port<E::Msg>,
    right: &mut Port<E::Msg>,
) -> Result<Option<NodeId>, NoMemory>
    requires room_left { E.is_two_way algorithm ≡ true
        → vec_len left.old.sent + 2 ≤ vec_capacity left.old.sent }
    requires closed { E.is_two_way algorithm ≡ false
        → algo_sends (E.table algorithm) Left state.old from packet ≡ [] }
    requires room_right { vec_len right.old.sent + 2 ≤ vec_capacity right.old.sent }
    ensures state { OnOk result (state.new ≡ state_on (E.table algorithm) state.old from packet) }
    ensures brought { IfOk result (λ o. o ≡ brought (E.table algorithm) state.old from packet) }
    ensures left { OnOk result
        (left.new.sent.items
        ≡ left.old.sent.items ++ algo_sends (E.table algorithm) Left state.old from packet) }
    ensures right { OnOk result
        (right.new.sent.items
        ≡ right.old.sent.items ++ algo_sends (E.table algorithm) Right state.old from packet) }
    ensures counts_left { (left.new.algos ≡ left.old.algos)
        × (left.new.leaders ≡ left.old.leaders) }
    ensures counts_right { (right.new.algos ≡ right.old.algos)
        × (right.new.leaders ≡ right.old.leaders) }
    ensures room { vec_len right.new.sent + 1 ≤ vec_capacity right.new.sent }
    ensures err { OnErr result (state.new ≡ state.old) }
    ensures err_left { OnErr result (left.new.sent.items ≡ left.old.sent.items) }
    ensures err_right { OnErr result (right.new.sent.items ≡ right.old.sent.items) }
{
    match packet {
        Packet::Algo(message) => {
            let sends = algorithm.receive(state, from, message)?;
            left.post(sends.left);
            right.post(sends.right);
            Ok(algorithm.decision(state))
        }
        Packet::Leader(leader) => Ok(Some(leader)),
    }
}

/// Keeps the first leader that is brought, and returns it as the news of this step.
pub fn learn(known: &mut Option<NodeId>, brought: Option<NodeId>) -> Option<NodeId>
    ensures known { known.new ≡ kept_or known.old brought }
    ensures news { result ≡ news known.old brought }
{
    if known.is_some() {
        return None;
    }
    let leader = brought?;
    *known = Some(leader);
    Some(leader)
}

/// Counts a packet at the side from which it was taken.
pub fn count<M: Copy>(from: Side, packet: Packet<M>, left: &mut Port<M>, right: &mut Port<M>)
    requires left_fits { (left.old.algos + 1 < 2 ^ 64) × (left.old.leaders + 1 < 2 ^ 64) }
    requires right_fits { (right.old.algos + 1 < 2 ^ 64) × (right.old.leaders + 1 < 2 ^ 64) }
    ensures sent_left { left.new.sent.items ≡ left.old.sent.items }
    ensures sent_right { right.new.sent.items ≡ right.old.sent.items }
    ensures algos_left { left.new.algos
        ≡ left.old.algos + algo_count (taken_from Left ((from, packet) ∷ [])) }
    ensures algos_right { right.new.algos
        ≡ right.old.algos + algo_count (taken_from Right ((from, packet) ∷ [])) }
    ensures leaders_left { left.new.leaders
        ≡ left.old.leaders + leader_count (taken_from Left ((from, packet) ∷ [])) }
    ensures leaders_right { right.new.leaders
        ≡ right.old.leaders + leader_count (taken_from Right ((from, packet) ∷ [])) }
{
    match from {
        Side::Left => left.count(packet),
        Side::Right => right.count(packet),
    }
}
