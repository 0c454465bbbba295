//! Nodes of the test cases by themselves. If an allocation fails, the call is made once more.

use crate::equal::equal;
use crate::memory::TWICE;
use ring_chang::Chang;
use ring_election::RingElection;
use ring_id::{NoMemory, Side};
use ring_node::{Charter, Envelope, Node, TakeFault};
use std::alloc::Global;
use std::process::Abort;
use std::sync::Arc;

/// The node at this position, which has received nothing.
fn seated_once<E: RingElection>(
    rt: &impl Abort,
    alloc: Global,
    charter: &Arc<Charter<E>>,
    position: usize,
) -> Result<Node<E>, NoMemory> {
    assert!(rt; position < charter.roster().len());
    let copy = Arc::try_clone(charter).expect(rt, "no copy");
    Node::seat(alloc, copy, position)
}

/// The same, with a second call if an allocation fails.
pub fn seated<E: RingElection>(
    rt: &impl Abort,
    alloc: Global,
    charter: &Arc<Charter<E>>,
    position: usize,
) -> Node<E> {
    match seated_once(rt, alloc, charter, position) {
        Ok(node) => node,
        Err(NoMemory) => seated_once(rt, alloc, charter, position).expect(rt, TWICE),
    }
}

/// The envelope of what a node has sent to the right at this place, if it has sent anything there.
pub fn envelope<E: RingElection>(
    rt: &impl Abort,
    node: &Node<E>,
    place: usize,
) -> Option<Envelope<E>> {
    let copy = Arc::try_clone(node.charter()).expect(rt, "no copy");
    node.envelope(copy, Side::Right, place)
}

/// How many packets a node has taken from the left, and sent to the right.
pub fn counts(node: &Node<Chang>) -> (usize, usize) {
    (node.taken(Side::Left), node.sent(Side::Right))
}

/// Offers an envelope, and once more if an allocation fails. Returns whether the node makes a
/// report, or the fault for which it does not take the envelope. Then the envelope comes back, and
/// the node stays as it was.
pub fn offer(
    rt: &impl Abort,
    node: &mut Node<Chang>,
    envelope: Envelope<Chang>,
) -> Result<bool, TakeFault> {
    let before = (counts(node), envelope.index());
    let packet = envelope.packet();
    let mut offered = envelope;
    for _ in 0..2 {
        match node.take(offered) {
            Ok(report) => {
                let reports = report.is_some();
                drop(report);
                return Ok(reports);
            }
            Err((fault, back)) => {
                let after = (counts(node), back.index());
                equal(rt, "what was not taken", after, before);
                assert!(rt; back.packet() == packet);
                if !matches!(fault, TakeFault::NoMemory) {
                    drop(back);
                    return Err(fault);
                }
                offered = back;
            }
        }
    }
    Err(TakeFault::NoMemory)
}
