//! Requests about groups, and the replies to them.
//!
//! An event is a client's command or a line of a schedule, and a reply answers one. The crates
//! above define which reply an event may get, and what changes then.
#![tactic(auto)]

mod count;
mod event;
mod lists;
mod reply;

pub use count::Count;
pub use event::{Command, Event};
pub use lists::{GroupList, MemberList, TermList};
pub use reply::Reply;
