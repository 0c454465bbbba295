//! The world of one term: all its nodes, and what is in flight between them.
//!
//! Contracts see a world as its charter, the journals of its nodes in the order of the ring, and
//! which links are cut. The packets on a link are those that its sender sent and its receiver has
//! not taken. They are in flight, or stuck if the link is cut. A delivery takes the first packet of
//! one link. At every moment the journals are a sound family that fits, and a leader that a node
//! knows is the winner.
//!
//! Next to its nodes a world keeps how many packets are in flight or stuck. It has one bit for each
//! link that says whether the link is cut, and one that says whether something is in flight there.
//! A delivery brings them up to date, and looks at the receiver and its neighbours alone.
//!
//! Quiet means known: if nothing is in flight and no link is cut, every node knows the leader.
//! `settle` finds the same of nodes that come back from elsewhere. Work is bounded: a world takes
//! at most as many packets as the algorithm's bound allows messages, and one announcement for each
//! position.
#![tactic(auto)]

mod circle;
mod delivery;
mod link_set;
mod owners;
mod packet_kind;
mod passage;
mod places;
mod settlement;
mod tallied_circle;
mod traffic;
mod world;

pub use delivery::Delivery;
pub use passage::{Passage, Passages, PassagesEnd};
pub use settlement::{Settlement, settle};
pub use tallied_circle::TalliedCircle;
pub use traffic::Traffic;
pub use world::World;
