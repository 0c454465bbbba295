//! The sum of the ring elections: one type whose values are the algorithms, itself an algorithm.
//!
//! A kind does what its algorithm does, with states and messages that name their kind. A state or a
//! message of another kind changes nothing, sends nothing and decides nothing. Such a message fits
//! no link, so the laws of each algorithm hold of its kind. Each kind has one word in a line, and
//! reading a written word gives back the kind. Only `receive` allocates, and only if LeLann's does.
#![tactic(auto)]

mod any;

pub use any::{Any, AnyMsg, AnyState};
