//! The journal of a table: its changes are written as they come, and a restart recovers the table
//! from them.
//!
//! A `Written` records the entries of a table. It writes the line of each change to a journal, and
//! knows how many of the entries are kept for good. A crash may come at any moment of any call. It
//! leaves the changes of the first entries, and at least of those that were kept for good.
//!
//! A journal that has grown long is rewritten while its table is in use, by the changes that lead
//! to the present groups. A crash leaves the old text or the new one, which lead to the same
//! groups.
//!
//! Each recovery begins a new life of the journal, whose number is in the first line. So the places
//! in replies rise over all lives.
//!
//! `recover` reads these lines, and carries out each change by the call that made it, on a table
//! without groups. The table goes on over a new journal. It begins with the lines that were found,
//! or with fewer lines that lead to the same groups and terms.
//!
//! `list_journal` returns text for people: the groups that a restart would recover from the bytes of
//! a journal, and the end of its text. It refuses the bytes that a restart would refuse.
#![tactic(auto)]

mod alarm;
mod book_changes;
mod charters;
mod compaction;
mod fault;
mod heading;
mod life;
mod listing;
mod places;
mod recovered;
mod recovery;
mod replay;
mod restart;
mod resumption;
mod rewriting;
mod short;
mod written;

pub use alarm::{Alarm, Ending};
pub use fault::RecoverFault;
pub use life::Life;
pub use listing::list_journal;
pub use places::places_rise;
pub use recovered::Recovered;
pub use recovery::recover;
pub use restart::restarts_after_first;
pub use resumption::{resume, resumes_after_first};
pub use written::Written;
