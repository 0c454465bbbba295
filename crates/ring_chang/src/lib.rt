//! The election of Chang and Roberts: the greatest identity of a ring goes all round it and wins.
//!
//! The code does what its table says, for every message from either side. Every message fits at its
//! index on its link. A node decides only on the greatest identity of its ring. A ring in which
//! every message was taken is decided. A ring of n takes at most n(n + 1)/2 messages. Only
//! `fitting` allocates.
#![tactic(auto)]

mod chang;
mod fits;
mod work;

pub use chang::{Chang, ChangState};
pub use fits::fitting;
pub use work::work_is_triangular;
