ghost use Rattle.std.specs.Prelude.{◌≡◌, ◌+◌, ◌<◌, ◌≤◌, ℕ, All, length, vec_len, IfErr, OnOk};
ghost use Rattle.std.specs.VecDeque.{deque_capacity, deque_len};
ghost use Rattle.ring_id.specs.Sides.{other};
ghost use Rattle.ring_node.specs.Nodes.{Gains, IsFault, envelope_of, sent_of};
ghost use Rattle.ring_workers.specs.Owners.{position_of};
ghost use Rattle.ring_workers.specs.private.Goings.{HandsTo};
ghost use Rattle.ring_workers.specs.private.Posts.{Posts};

use ring_election::RingElection;
use ring_id::{NoMemory, Side};
use ring_node::{Charter, Envelope, Node, Report, TakeFault};
use std::alloc::Global;
use std::collections::VecDeque;
use std::sync::Arc;

/// Finds room for `more` packets of a term: places in the outbox, and owners of the charter. The
/// packets in the outbox stay, whatever the result.
pub(crate) fn find_room<E: RingElection>(
    charter: &Arc<Charter<E>>,
    copies: &mut Vec<Arc<Charter<E>>>,
    outbox: &mut VecDeque<Envelope<E>>,
    more: usize,
) -> Result<(), NoMemory>
    requires { All (λ c. c.value ≡ charter.now.value) copies.old.items }
    ensures copies { All (λ c. c.value ≡ charter.now.value) copies.new.items }
    ensures outbox { outbox.new.items ≡ outbox.old.items }
    ensures many { OnOk result (more ≤ vec_len copies.new) }
    ensures room { OnOk result (deque_len outbox.new + more ≤ deque_capacity outbox.new) }
{
    outbox.reserve(more)?;
    let missing = more.saturating_sub(copies.len());
    copies.reserve(missing)?;
    for _ in 0..missing {
        copies.push_reserved(Arc::try_clone(charter)?);
    }
    Ok(())
}

/// Puts the packets that a node has sent to a side, from this place on, at the back of the outbox.
/// There is room for them, and a copy of the charter for each.
pub(crate) fn post<E: RingElection>(
    node: &Node<E>,
    side: Side,
    from: usize,
    copies: &mut Vec<Arc<Charter<E>>>,
    outbox: &mut VecDeque<Envelope<E>>,
)
    requires copies { All (λ c. c.value ≡ node.now.charter) copies.old.items }
    requires from { from ≤ length (sent_of E.table node.now side) }
    requires many { length (sent_of E.table node.now side) ≤ vec_len copies.old + from }
    requires room { deque_len outbox.old + length (sent_of E.table node.now side)
        ≤ deque_capacity outbox.old + from }
    ensures copies { All (λ c. c.value ≡ node.now.charter) copies.new.items }
    ensures posts { Posts (envelope_of E.table node.now side) from
        outbox.old.items outbox.new.items }
    ensures many { vec_len copies.new + length (sent_of E.table node.now side)
        ≡ vec_len copies.old + from }
    ensures len { deque_len outbox.new + from
        ≡ deque_len outbox.old + length (sent_of E.table node.now side) }
    ensures room { deque_capacity outbox.new ≡ deque_capacity outbox.old }
{
    for place in from..node.sent(side) {
        let copy = copies.pop().unwrap();
        let envelope = node.envelope(copy, side, place).unwrap();
        outbox.push_back_reserved(envelope);
    }
}

/// Hands an envelope to a node, and posts the packets that the node sends because of it. If the
/// node does not take the envelope, it comes back and nothing changes.
pub(crate) fn hand_to<E: RingElection>(
    node: &mut Node<E>,
    envelope: Envelope<E>,
    copies: &mut Vec<Arc<Charter<E>>>,
    outbox: &mut VecDeque<Envelope<E>>,
) -> Result<Option<Report<E>>, (TakeFault, Envelope<E>)>
    requires copies { All (λ c. c.value ≡ node.old.charter) copies.old.items }
    requires many { 3 ≤ vec_len copies.old }
    requires room { deque_len outbox.old + 3 ≤ deque_capacity outbox.old }
    ensures copies { All (λ c. c.value ≡ node.old.charter) copies.new.items }
    ensures handed { HandsTo E.table node.old envelope result node.new
        outbox.old.items outbox.new.items }
    ensures gains { OnOk result
        (Gains E.table node.old (other envelope.side) envelope.packet node.new) }
    ensures refused { IfErr result (λ r. IsFault node.old envelope r.0) }
{
    let left = node.sent(Side::Left);
    let right = node.sent(Side::Right);
    let report = node.take(envelope)?;
    post(node, Side::Left, left, copies, outbox);
    post(node, Side::Right, right, copies, outbox);
    Ok(report)
}

/// The position to which an envelope's link leads.
pub(crate) fn position<E: RingElection>(envelope: &Envelope<E>) -> usize
    ensures value { result ≡ position_of envelope.now }
    ensures inside { result < length envelope.now.charter.roster }
{
    let _packet = envelope.packet();
    let ring = envelope.charter().roster();
    ring.neighbour(envelope.from(), envelope.side())
}
