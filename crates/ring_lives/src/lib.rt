//! Lives of a service. It is started again from the groups that the last crash left, and all its
//! lives together are one legal history.
//!
//! Each call does nothing. The law is its contract.
#![tactic(auto)]

mod exactly;
mod leaders;
mod lives;
mod replay;

pub use exactly::may_be_exact;
pub use leaders::one_leader;
pub use lives::all_lives;
pub use replay::{follows_replays, replays_exact};
