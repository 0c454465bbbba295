//! The election of LeLann: every identity goes all round the ring, and every node elects the
//! greatest by itself.
//!
//! The code does what its table says, for every message from either side. Every message fits at its
//! index on its link. A node decides only on the greatest identity of its ring. A ring in which
//! every message was taken is decided. A ring of n takes at most n * n messages, and exactly n * n
//! if every message was taken. Only `receive` allocates.
#![tactic(auto)]

mod lelann;
mod work;

pub use lelann::{LeLann, LeLannState};
pub use work::work_is_square;
