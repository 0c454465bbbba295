use ring_id::{NodeId, Refusal};

/// The outcome of a passage of the first packet of a link.
#[derive(Clone, Copy, Debug, PartialEq, Eq)]
pub enum Passage {
    /// It was taken. The leader is there if its receiver now knows it for the first time.
    Moved(Option<NodeId>),
    /// Nothing is in flight on this link, or it is cut.
    Idle,
    /// Refused, and nothing has changed.
    Refused(Refusal),
}

/// The outcome of passages one after another, each on the first link with something in flight at
/// that moment.
#[derive(Clone, Copy)]
pub struct Passages {
    /// How many were made.
    pub done: u32,
    /// The reason why there were no more.
    pub end: PassagesEnd,
}

/// The end of passages that were made one after another.
#[derive(Clone, Copy)]
pub enum PassagesEnd {
    /// By the last of them, and by no other, a node learnt the leader: its position, and the
    /// leader.
    Told(usize, NodeId),
    /// As many were made as were asked for, and no node learnt the leader.
    Made,
    /// Nothing is in flight, and no node learnt the leader.
    Quiet,
    /// An allocation failed at the next one, which has changed nothing. No node learnt the leader.
    Starved,
}
