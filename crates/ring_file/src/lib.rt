//! The file of a journal: a medium on a file of the operating system, and its place in a folder.
//!
//! No contract speaks of the bytes of a file. The contracts speak of the batches that the calls
//! were made with. So this crate has to be read: each call makes the system calls that its comment
//! names, in that order. It notes exactly the bytes that they wrote.
#![tactic(auto)]

mod medium;
mod place;
mod tail;

pub use medium::FileMedium;
pub use place::{Place, PlaceFault, Replaces};
