//! The server: the service of a program, and its sessions over sockets.
//!
//! `accept_loop` serves `connections` clients, then returns. `run_loop` serves clients until the
//! process ends, `sessions` at a time. `resume_loop` does so with a table that was recovered from
//! its journal. Each serves by a configuration, and prints the line that it listens. Each session
//! reaches the table by a seat of the turn lock.
#![tactic(auto)]

mod base;
mod counting;
mod crowd;
mod directory;
mod handshake;
mod hosting;
mod lines;
mod listening;
mod metering;
mod noting;
mod patient;
mod resumed;
mod resuming;
mod running;
mod server;
mod sessions;
mod shown;
mod viewing;
mod watched;
mod watching;

pub use counting::Heeded;
pub use crowd::{Others, Web};
pub use hosting::{CampaignHandler, campaign_handlers};
pub use listening::accept_loop;
pub use metering::{Meter, Metered};
pub use resumed::Resumed;
pub use resuming::resume_loop;
pub use running::run_loop;
pub use sessions::{
    Access, Closing, Front, Seat, Service, SessionHandler, close, front, open, open_gated,
    session_handlers,
};
pub use viewing::{Viewer, viewers};
pub use watched::Watched;
pub use watching::{Known, Port, Watch};
