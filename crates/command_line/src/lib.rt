//! The ends of a program with a command line: its words, and its exit status.
//!
//! `given_words` returns the words. If they are refused, `refused` prints why and returns status 2.
//! After the work, `ended` returns status 0, or prints the fault and returns status 1. A program
//! whose faults have several statuses calls `ended_with`.
#![tactic(auto)]

mod ending;
mod words;

pub use ending::{ended, ended_with, refused};
pub use words::{WordsFault, given_words};
