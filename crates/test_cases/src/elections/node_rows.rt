//! A node of the election of Chang and Roberts on 3, 1, 2, receipt by receipt.

use crate::elections::nodes::{counts, envelope, offer, seated};
use crate::elections::rings::{charter, identity};
use crate::equal::equal;
use ring_chang::Chang;
use ring_id::{NodeId, Side};
use ring_node::{Charter, Node, Packet, TakeFault};
use std::alloc::Global;
use std::process::Abort;
use std::sync::Arc;

/// An offer of what another node has sent to the right at a place: whether the node makes a report,
/// or why it does not take the packet.
type Offer = (usize, Result<bool, TakeFault>);

/// Each offer to a node comes to what it says. No node of these test cases makes a report.
fn offers(rt: &impl Abort, node: &mut Node<Chang>, sender: &Node<Chang>, offers: &[Offer]) {
    for (place, wanted) in offers {
        let envelope = envelope(rt, sender, *place).expect(rt, "nothing was sent there");
        let found = (*place, offer(rt, node, envelope));
        equal(rt, "an offer", found, (*place, *wanted));
    }
}

/// The node at position 1, which has taken the first envelope of position 0.
fn passed_on(rt: &impl Abort, alloc: Global) -> Node<Chang> {
    let charter = charter(rt, alloc, 1, Chang, &[3, 1, 2]);
    let first = seated(rt, alloc, &charter, 0);
    let mut second = seated(rt, alloc, &charter, 1);
    drop(charter);
    offers(rt, &mut second, &first, &[(0, Ok(false))]);
    drop(first);
    second
}

/// The packet and the index of the envelope of what a node has sent to the right at this place.
fn sent(rt: &impl Abort, node: &Node<Chang>, place: usize) -> (Packet<NodeId>, usize) {
    let envelope = envelope(rt, node, place).expect(rt, "nothing was sent there");
    let found = (envelope.packet(), envelope.index());
    drop(envelope);
    found
}

#[test]
fn a_node_passes_a_greater_on_and_shows_what_it_has_received(rt: HostRuntime) {
    let (one, three) = (identity(&rt, 1), identity(&rt, 3));
    let second = passed_on(&rt, rt.alloc());
    equal(&rt, "taken and sent", counts(&second), (1, 2));
    let both = [sent(&rt, &second, 0), sent(&rt, &second, 1)];
    equal(
        &rt,
        "what was sent",
        both,
        [(Packet::Algo(one), 0), (Packet::Algo(three), 1)],
    );
    let receipts = [
        second.receipt(Side::Left, 0),
        second.receipt(Side::Left, 1),
        second.receipt(Side::Right, 0),
    ];
    let wanted = [Some(Packet::Algo(three)), None, None];
    equal(&rt, "receipts by place", receipts, wanted);
    let all = [(Side::Left, Packet::Algo(three))];
    equal(&rt, "all receipts", second.receipts(), all.as_slice());
    drop(second);
}

#[test]
fn a_link_is_taken_in_order_and_once(rt: HostRuntime) {
    let second = passed_on(&rt, rt.alloc());
    let mut third = seated(&rt, rt.alloc(), second.charter(), 2);
    let rows = [
        (1, Err(TakeFault::Gap)),
        (0, Ok(false)),
        (0, Err(TakeFault::Repeat)),
        (1, Ok(false)),
    ];
    offers(&rt, &mut third, &second, &rows);
    drop(second);
    let found = counts(&third);
    drop(third);
    equal(&rt, "taken and sent", found, (2, 2));
}

/// What another has sent is strange to the node at this position that has received nothing.
fn is_strange(
    rt: &impl Abort,
    alloc: Global,
    charter: &Arc<Charter<Chang>>,
    position: usize,
    sender: &Node<Chang>,
) {
    let strange = Err(TakeFault::Stranger);
    let mut node = seated(rt, alloc, charter, position);
    offers(rt, &mut node, sender, &[(0, strange), (1, strange)]);
    drop(node);
}

#[test]
fn a_packet_to_another_position_or_of_another_term_is_strange(rt: HostRuntime) {
    let alloc = rt.alloc();
    let second = passed_on(&rt, alloc);
    is_strange(&rt, alloc, second.charter(), 0, &second);
    let later = charter(&rt, alloc, 2, Chang, &[3, 1, 2]);
    is_strange(&rt, alloc, &later, 2, &second);
    drop(later);
    drop(second);
}
