//! All lives of a service over one journal are one history, whatever each crash left of its file.
//!
//! `ring_lives` says so of lives that begin with the groups that were left. Here they begin with
//! the file that was left, as a service does. No other crate needs the law.
//!
//! The call does nothing. The law is its contract.
#![tactic(auto)]

mod history;

pub use history::one_history;
