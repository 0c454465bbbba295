//! The Hirschberg-Sinclair election without rounds (Lynch, Distributed Algorithms, 3.4).
//!
//! Every node sends its identity to both sides as a token that may travel 1 hop. Each time both its
//! tokens have come home, they may travel twice as far. Greater nodes drop a token. Smaller nodes
//! pass it on and turn it at its last hop. A node whose token goes all round has the greatest
//! identity and is the leader.
//!
//! The code does what its table says, for every message from either side, and the laws of a ring
//! election are proved of that table. No phase exceeds the logarithm of the ring's length. A ring
//! of n takes at most 4n + 8n ceil(log₂ n) messages.
#![tactic(auto)]

mod hirschberg;
mod phases;
mod work;

pub use hirschberg::{Hirschberg, HirschbergMsg, HirschbergState};
pub use phases::phases_are_few;
pub use work::messages_are_few;
