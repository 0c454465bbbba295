//! The service: sessions over a table, and workers that run its elections.
//!
//! A `Service` serves sessions over any access to a table, each in the thread that calls `serve`.
//! When a session starts a term, the service puts a begin to each worker. The workers run in
//! threads of their own, and file reports of what their nodes know.
#![tactic(auto)]

mod access;
mod format;
mod front;
mod mesh;
mod pending;
mod pool;
mod service;
mod session;

pub use front::Front;
pub use pending::Waiting;
pub use ring_table::{
    Access, Answer, Entries, Entry, Filed, History, Kept, KeptReply, LockedSeat, LockedTable,
    Table, is_refused, is_starved,
};
pub use service::{Closing, Service, StartFault};
