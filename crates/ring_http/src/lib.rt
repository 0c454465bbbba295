//! The answers of a running service to HTTP: its health, metrics, its groups as JSON, and a page.
//!
//! An `Asker` answers a request by questions of its seat of the table. The seat gains only
//! questions, which change nothing.
#![tactic(auto)]

mod asking;
mod beside;
mod figures;
mod gauges;
mod metrics;
mod page;
mod picture;
mod picturing;
mod route;
mod samples;
mod saying;
mod site;
mod text;
mod values;
mod waiting;

pub use asking::{Asker, Lack};
pub use beside::{Beside, Figures, JournalFigures, Served};
pub use gauges::Gauge;
pub use metrics::put_metrics;
pub use picture::GroupPicture;
pub use route::{Resource, Route, route_of};
pub use values::{put_group, put_names};
