//! Schedules: lines of commands, deliveries, cuts and drains, each answered by a line from the mux.
//!
//! The worlds of this mux keep an `AnyTraffic`: the nodes of one algorithm, chosen once as the term
//! begins. A world of the sum asks at each delivery which of the four algorithms it is, and its
//! packets say it once more. In an `AnyTraffic` states and messages are those of its algorithm
//! alone, and each call asks for the kind once. Contracts see no difference: the passages, the
//! ready link and the pending packets are those of the sum. So a mux over this traffic is a mux
//! over the sum.
#![tactic(auto)]

mod any_traffic;
mod replaying;

pub use any_traffic::AnyTraffic;
pub use replaying::replay;
