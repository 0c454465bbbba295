//! Worked test cases that cross crates: each is a run with the values that it must come to.
//!
//! Everything here is a test, except `drain`, by which tests bring a world to rest. A module has the
//! cases of one layer: elections on rings and the workers that run them, lines, tables and their
//! services, and the journal. Groups at once are in `tests/rows`, and the server has a crate of its
//! own, `test_server`.
#![tactic(auto)]

mod drains;
#[cfg(test)]
mod elections;
#[cfg(test)]
mod equal;
#[cfg(test)]
mod journal;
#[cfg(test)]
mod lines;
#[cfg(test)]
mod memory;
#[cfg(test)]
mod table;

pub use drains::drain;
