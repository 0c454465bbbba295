//! A table: a book of groups and terms, and the list of all calls and filed reports.
//!
//! Each call and each filed report of a `Table` adds one entry, or runs out of memory and changes
//! nothing. The history, replayed from no groups at all, gives the book and every reply.
//!
//! By an `Access` many callers share a table, each through a seat that knows its own entries. A
//! `LockedTable` is a table under a lock.
//!
//! A `Recorded` is the same table over a `Recorder`, which decides how much is kept of each entry.
//! With `Unkept` that is only the number of entries: the history then exists only in the contracts.
//! Contracts see too how many of the first entries are kept for good. After `settle` they all are.
#![tactic(auto)]

mod access;
mod charters;
mod chunks;
mod entry;
mod happening;
mod history;
mod kept;
mod locked;
mod placed;
mod recorded;
mod recorder;
mod table;
mod tabled;
mod trace;

pub use access::{Access, Answer, QueueHead};
pub use entry::{Entry, is_refused};
pub use history::{Entries, History};
pub use kept::{Kept, KeptReply};
pub use locked::{LockedSeat, LockedTable};
pub use recorded::Recorded;
pub use recorder::{Recorder, Unkept};
pub use ring_node::Filed;
pub use table::{Table, is_starved};
pub use tabled::Tabled;
