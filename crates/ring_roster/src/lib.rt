//! Rosters: the rings on which terms are decided.
//!
//! A roster is a list of 1 to 256 identities with different numbers. The right neighbour of a
//! position is the next position, and its left neighbour is the one before, cyclically.
#![tactic(auto)]

mod guesses;
mod index;
mod members;
mod order;
mod roster;

pub use roster::Roster;
