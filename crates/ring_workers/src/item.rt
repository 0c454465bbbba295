use ring_election::RingElection;
use ring_node::{Charter, Envelope};
use std::alloc::Global;
use std::sync::Arc;

/// An item that a worker takes from its inbox.
#[derive(Drop)]
pub enum Item<E: RingElection> {
    /// A term begins: the worker seats the nodes of its ring that it owns.
    Begin(Arc<Charter<E>>),
    /// A packet for a node that the worker owns.
    Packet(Envelope<E>),
    /// The worker ends.
    Stop,
}
