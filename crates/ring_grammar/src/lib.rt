//! The grammar of lines both ways: the events that lines spell, and the spellings of replies.
//!
//! Each event and each reply has one spelling, and no bytes spell two of them. A line that spells
//! no event is not of the grammar. Reading and printing do not allocate.
#![tactic(auto)]

mod parse;
mod parts;
mod print;
mod sink;
mod spell;
mod spelling;
mod values;

pub use parse::{parse_command, parse_event};
pub use print::{print_groups, print_members, print_reply, print_terms};
pub use sink::{Sink, SinkFailed};
pub use spell::Spell;
pub use spelling::one_spelling;
