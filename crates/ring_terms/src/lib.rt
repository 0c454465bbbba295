//! The book of groups and terms: the groups, their members, and the leader of each term.
//!
//! Contracts see a book as the election object: groups in order of creation, each with its
//! algorithm, its members and its terms. A term freezes the member list as its ring, so joins and
//! leaves change only the next term. A term's leader is the winner of its ring, is named once and
//! stays.
//!
//! Filing a report informs its member. So does `inform`, whose caller proves that the leader is the
//! ring's winner. A refusal changes nothing.
#![tactic(auto)]

mod book;
mod group;
mod perform;
mod shown;
mod standing;
mod term;

pub use book::Book;
pub use ring_events::{GroupList, MemberList, TermList};
pub use shown::{ShownGroup, ShownTerm};
pub use standing::{Noting, Standing};
