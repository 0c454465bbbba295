//! Peterson's election for messages that go one way (PetersonLeader; Lynch, Distributed Algorithms,
//! 15.1.3).
//!
//! The nodes that are still active hold a value each. In a round an active node compares the values
//! of the two active nodes to its left with its own. It either takes over its neighbour's value or
//! becomes a relay, so each round leaves at most half of them. The last active node names itself.
//!
//! The code does what its table says, for every message from either side. The messages of each link
//! are those of the rounds. The laws of a ring election are proved of the table. Only `round_of`
//! allocates.
#![tactic(auto)]

mod peterson;
mod rounds;

pub use peterson::{Peterson, PetersonState};
pub use rounds::{round_of, rounds_shrink};
