//! The rings of the workers' test cases, and items of them.

use crate::elections::nodes::{envelope, seated};
use crate::elections::rings;
use ring_election::RingElection;
use ring_inbox::{Put, SenderPass};
use ring_node::Charter;
use ring_workers::Item;
use std::alloc::Global;
use std::process::Abort;
use std::sync::{Arc, Wait};

/// The ring of a term of group `a`: its term, and the numbers of its members.
pub type Ring = (u16, &'static [u32]);

/// The charter of an election on a ring.
pub fn charter<E: RingElection>(
    rt: &impl Abort,
    alloc: Global,
    algorithm: E,
    ring: Ring,
) -> Arc<Charter<E>> {
    rings::charter(rt, alloc, ring.0, algorithm, ring.1)
}

/// The item of the first packet that the node at position 0 sends to the right.
pub fn first_packet<E: RingElection>(
    rt: &impl Abort,
    alloc: Global,
    charter: Arc<Charter<E>>,
) -> Item<E> {
    let node = seated(rt, alloc, &charter, 0);
    drop(charter);
    let envelope = envelope(rt, &node, 0);
    drop(node);
    Item::Packet(envelope.expect(rt, "nothing was sent there"))
}

/// Puts an item into an inbox, and returns whether it was stored.
pub fn stores<E: RingElection, R: Wait>(
    rt: &R,
    to: &mut SenderPass<Item<E>>,
    item: Item<E>,
) -> bool {
    let put = to.put(rt, item);
    let is_stored = matches!(put, Put::Stored);
    drop(put);
    is_stored
}
