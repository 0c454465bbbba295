//! Elections that run in threads: a worker owns some of the nodes of every ring, and packets go
//! from worker to worker through inboxes.
//!
//! A worker takes one item at a time from its own inbox: the charter of a term that begins, a
//! packet, or the word to stop. It keeps the nodes that it owns, by group and position. Their
//! packets wait in its outbox until the inbox of the receiver's owner has room. In every schedule,
//! each packet that a node sent waits in the outbox or was stored for its receiver's owner. A
//! worker stores nothing but packets for their receivers' owners.
//!
//! If nothing was dropped and the items of a group were of one term, each packet that was handled
//! is a receipt of the node to which its link leads. Each node that the worker owns of a charter
//! that began is then among those that it hands over. The contracts claim nothing of the order in
//! which items arrive, nor that they arrive.
#![tactic(auto)]

mod desk;
mod gate;
mod handed;
mod item;
mod nodes;
mod outbox;
mod owner;
mod post;
mod run;
mod term_nodes;
mod worker_state;

pub use desk::Desk;
pub use gate::{Gate, OpenGate, Pass};
pub use handed::{Handed, Rest, Why};
pub use item::Item;
pub use nodes::Nodes;
pub use owner::Worker;
pub use ring_node::Filed;
pub use run::run_worker;
