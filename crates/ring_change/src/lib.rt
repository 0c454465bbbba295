//! Changes that commands and reports make: as values, and as lines that people read.
//!
//! A change by a command is spelled as that command. A line of a journal is a change and a check of
//! all changes so far. Printing and reading do not allocate.
#![tactic(auto)]

mod change;
mod check;
mod journal_line;
mod know;
mod line;
mod parse;
mod print;
mod spelling;

pub use change::{Change, change_of, change_of_filing};
pub use check::Check;
pub use journal_line::{print_line, read_line, spell_line};
pub use know::read_number;
pub use line::Line;
pub use parse::parse_change;
pub use print::print_change;
pub use spelling::one_change;
