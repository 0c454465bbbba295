//! Campaigns: a client is a member of a group for as long as its connection lasts.
//!
//! The client's first line is a join. The client gets the reply to it, and then the reply to `who`
//! for that member, each time that this changes. However the reader and the writer end, the member
//! is taken out. A new term is started if the member may have led the last one.
#![tactic(auto)]

mod attending;
mod caller;
mod candidate;
mod clearing;
mod finding;
mod joining;
mod leaving;
mod opening;
mod replies;
mod telling;

pub use clearing::clear;
pub use opening::campaign;
