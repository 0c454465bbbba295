//! Clients over sockets: accepting them, serving them, and the lines on standard output.
//!
//! `accept_all` serves one client for each handler, each in a thread of its own. An `Acceptor`
//! accepts clients until the process ends, and `attend` serves them on one thread for each
//! handler. A `ClientHandler` serves one client after another. A `ProgramFault` is why the program
//! ends before its work is done; its text is the line on standard error.
#![tactic(auto)]

mod acceptor;
mod fault;
mod serving;
mod telling;

pub use acceptor::{Acceptor, Entrance, Limits, attend};
pub use fault::{JournalFault, ProgramFault, SocketFault};
pub use serving::{ClientHandler, accept_all};
pub use telling::{say_closed, say_listening, say_listening_at, tell};
