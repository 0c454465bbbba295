//! Identities, group names, term numbers, sides and refusals: the words that all layers share.
//!
//! Contracts see an identity as its rank, one natural number, and not how it is stored. They see a
//! group name as the list of its bytes, and a term number as a number. Each of them has one value,
//! and each value has one spelling.
#![tactic(auto)]

mod group_name;
mod identity;
mod refusal;
mod side;
mod term;

pub use group_name::GroupName;
pub use identity::{NodeId, NodeNo, is_greater, same_ids};
pub use refusal::{NoMemory, Refusal};
pub use side::Side;
pub use term::TermNo;
