/// Why a node did not take an envelope. The envelope comes back, and the node is unchanged.
#[derive(Clone, Copy, Debug, PartialEq, Eq)]
pub enum TakeFault {
    /// The envelope has another charter, or its link does not lead to this node.
    Stranger,
    /// A packet of this sort with this index was taken before on that link.
    Repeat,
    /// A message of the algorithm whose index is greater than the number taken from that link.
    Gap,
    /// An allocation failed.
    NoMemory,
}
