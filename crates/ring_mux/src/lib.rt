//! Groups over worlds: commands, deliveries, cuts and drains, one at a time, and their replies.
//!
//! For every lawful ring election and every list of events, the replies and the groups are a run of
//! the election object. A term's leader is undecided until one delivery names one member of its
//! frozen ring, and never changes. A running term with nothing in flight and no cut link is known
//! at all its members.
#![tactic(auto)]

mod carried;
mod deliveries;
mod mux;

pub use mux::Mux;
pub use ring_events::{Command, Count, Event, Reply};
