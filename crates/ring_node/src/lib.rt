//! One node of a term: what it received, what it sent, and whether it knows the leader.
//!
//! A node runs its algorithm on the ring of a charter. Its journal has every packet that it
//! received. Its messages to each side follow from the journal. They are the algorithm's messages,
//! and an announcement to the right after those of the receipt by which the node first knows the
//! leader.
//!
//! The message in an envelope fits its link at its index. An announcement and a report name the
//! winner of the ring. These are facts of their types, whichever thread made them.
#![tactic(auto)]

mod charter;
mod envelope;
mod fault;
mod filed;
mod node;
mod packet;
mod port;
mod report;
mod room;
mod step;

pub use charter::Charter;
pub use envelope::Envelope;
pub use fault::TakeFault;
pub use filed::Filed;
pub use node::Node;
pub use packet::Packet;
pub use report::Report;
