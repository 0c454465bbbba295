use ring_id::NodeId;

/// A packet on a link: a message of the algorithm, or the announcement of the leader.
#[derive(Clone, Copy, Debug, PartialEq, Eq)]
pub enum Packet<M> {
    /// A message of the algorithm.
    Algo(M),
    /// The leader, from a node that knows it.
    Leader(NodeId),
}
