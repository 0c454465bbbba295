//! The words of the command line, and the order that they give.
use clap::error::ErrorKind;
use clap::{Arg, ArgAction, ArgMatches, Command};
use command_line::WordsFault;
use std::alloc::{AllocError, Global};

// The end of the help.
const NOTES: &str =
    "A schedule is a text with one line for `ringd replay` on each line. LINE => REPLY is a line
that must get this reply. Empty lines and lines that begin with # are skipped. For example:

  create a chang
  join a 3
  join a 1
  start a
  drain a 9
  who a 1 => leader 1 3

ringchart prints one SVG with a picture of each term, in the order in which the terms start.
With --into it writes each picture to a file DIR/GROUP-TERM.svg, and prints the names of the
files. With --text it draws with characters.";

/// The order that the words give.
#[derive(Drop)]
pub struct Order {
    /// The file of the schedule; if there is none, standard input.
    pub path: Option<String>,
    /// The folder for the pictures; if there is none, standard output.
    pub folder: Option<String>,
    /// Whether to draw with characters.
    pub text: bool,
}

// The program's command line.
fn command<'a>(alloc: Global) -> Result<Command<'a>, AllocError> {
    let into = into_arg(alloc)?;
    Command::new(alloc, "ringchart")
        .about("Draws elections: a picture of each term of a schedule, message by message")
        .after_help(NOTES)
        .arg(into)?
        .arg(schedule_arg(alloc))?
        .arg(text_arg(alloc))
}

// The argument with the file of the schedule.
fn schedule_arg<'a>(alloc: Global) -> Arg<'a> {
    Arg::new(alloc, "schedule").value_name("FILE").help(
        "The file of the schedule; standard input if there is none",
    )
}

// The option with the folder for the pictures.
fn into_arg<'a>(alloc: Global) -> Result<Arg<'a>, AllocError> {
    Arg::new(alloc, "into")
        .long("into")
        .value_name("DIR")
        .help("Write each picture to a file in the folder DIR, which must exist")
        .conflicts_with("text")
}

// The option to draw with characters.
fn text_arg<'a>(alloc: Global) -> Arg<'a> {
    Arg::new(alloc, "text")
        .long("text")
        .action(ArgAction::SetTrue)
        .help("Draw with characters")
}

/// Returns the refusal of a command line with a word that is not UTF-8.
pub fn not_text(alloc: Global) -> Result<clap::Error, AllocError> {
    let mut command = command(alloc)?;
    let error = command.error(ErrorKind::ValueValidation, "a word is not UTF-8 text");
    drop(command);
    error
}

/// Returns the order that the words of a command line give. The first word is the program's name.
pub fn read_words(alloc: Global, words: &[String]) -> Result<Order, WordsFault> {
    let matches = command(alloc)?.try_get_matches_from(words)?;
    let order = order_of(alloc, &matches);
    drop(matches);
    Ok(order?)
}

// Returns the order that was given.
fn order_of(alloc: Global, matches: &ArgMatches<'_>) -> Result<Order, AllocError> {
    Ok(Order {
        path: owned(alloc, matches.get_str("schedule"))?,
        folder: owned(alloc, matches.get_str("into"))?,
        text: matches.get_flag("text"),
    })
}

// Returns a copy of the word, if there is one.
fn owned(alloc: Global, word: Option<&str>) -> Result<Option<String>, AllocError> {
    match word {
        Some(word) => Ok(Some(String::from_str(alloc, word)?)),
        None => Ok(None),
    }
}
