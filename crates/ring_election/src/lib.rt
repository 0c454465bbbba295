//! Ring elections: the trait that each algorithm implements, with the definitions and the laws that
//! the layers above rest on.
//!
//! A node starts, receives messages from its two sides, and answers each with at most one message
//! to each side. No call sees the ring. An algorithm is one table of functions. The state and the
//! sends of a node are the table folded over the list of its receipts. The laws speak of such lists
//! only: they have no schedule, no time and no queue.
#![tactic(auto)]

mod agreement;
mod election;
mod sends;

pub use agreement::one_winner;
pub use election::RingElection;
pub use sends::Sends;
