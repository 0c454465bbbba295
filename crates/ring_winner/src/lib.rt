//! The winner of a ring, worked out without an election.
//!
//! An election names its winner after many messages. `winner_of` returns the same member in one
//! walk over the ring, or for Peterson's election in one walk over each of its rounds. So a record
//! of an election is checked without the election.
#![tactic(auto)]

mod rounds;
mod winner;

pub use winner::winner_of;
