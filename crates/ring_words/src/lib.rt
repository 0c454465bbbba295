//! The words of the program's command line, and the order that they give.
//!
//! The command line is `ringd replay`, `ringd serve`, `ringd run` or `ringd journal`. `read_words`
//! returns the order that the words give. If the command line does not take them, it returns clap's
//! error, with the kind of their mistake.
#![tactic(auto)]

mod commands;
mod journals;
mod places;
mod words;

pub use journals::{JournalAt, journal_at};
pub use places::{Place, misgiven, mode_of, place_of};
pub use words::{Order, asks_version, not_text, read_words, refusal};
