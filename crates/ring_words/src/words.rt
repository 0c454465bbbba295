//! The words of the command line, and the orders that they give.
ghost use Rattle.std.specs.Prelude.{◌≡◌, ◌↔◌, ◌∷◌, [], IfErr, IfOk, IsOkUnless, IsTrue, codes, map, option_map, string_bytes, true};
ghost use Rattle.clap.specs.Words.{found_of, kind_of, rows_of, takes, Text};
ghost use Rattle.clap.specs.declared.error.kind.ErrorKind.TheVariants.{DisplayVersion, ValueValidation};
ghost use Rattle.ring_words.specs.Words.{HasCause, IsGiven, ringd_app};
ghost use Rattle.ring_words.specs.private.Words.{HasFile, IsJournalOf, IsRun, IsRunOf, IsServeOf, IsServed};

use crate::commands::command;
use clap::ArgMatches;
use clap::error::ErrorKind;
use command_line::WordsFault;
use std::alloc::{AllocError, Global};

// The number of clients that `run` serves at a time without `--sessions`.
const SESSIONS: u32 = 16;

/// The order that the words give.
#[derive(Drop)]
pub enum Order {
    /// `ringd replay`: answer the lines of standard input on standard output.
    Replay,
    /// `ringd serve CONFIG --connections K`: serve `connections` clients, then exit.
    Serve {
        path: String,
        connections: u32,
        /// The path of the socket, if one is given in place of the port.
        socket: Option<String>,
        /// The text of its mode, if one is given.
        mode: Option<String>,
    },
    /// `ringd run CONFIG`: serve clients, `sessions` at a time, until a signal ends the process.
    Run {
        path: String,
        sessions: u32,
        idle: u32,
        places: bool,
        /// The text of the journal that keeps the groups, if one is given.
        journal: Option<String>,
        /// The text of the place for campaigns, if one is given.
        campaign: Option<String>,
        /// The text of the place for HTTP, if one is given.
        http: Option<String>,
        /// The path of the socket, if one is given in place of the port.
        socket: Option<String>,
        /// The text of the mode of each socket, if one is given.
        mode: Option<String>,
    },
    /// `ringd journal FILE`: print the content of a journal.
    Journal {
        /// The text of the journal.
        path: String,
    },
}

/// Returns the refusal of a command line with a word that is not UTF-8. `NoMemory` if an allocation
/// fails.
pub fn not_text(alloc: Global) -> Result<clap::Error, AllocError>
    ensures { IfOk result (λ error. kind_of error ≡ ValueValidation) }
{
    refusal(alloc, "a word is not UTF-8 text")
}

/// Returns a refusal of the command line with this message. `NoMemory` if an allocation fails.
pub fn refusal(alloc: Global, message: &str) -> Result<clap::Error, AllocError>
    ensures { IfOk result (λ error. kind_of error ≡ ValueValidation) }
{
    let mut command = command(alloc)?;
    let error = command.error(ErrorKind::ValueValidation, message);
    drop(command);
    error
}

/// Returns whether the words ask for the version.
pub fn asks_version(error: &clap::Error) -> bool
    ensures { IsTrue result ↔ (kind_of error.now ≡ DisplayVersion) }
{
    error.kind() == ErrorKind::DisplayVersion
}

/// Returns the order that the words of a command line give. The first word is the program's name.
///
/// If the command line takes the words, the result is their order, or `NoMemory` if an allocation
/// failed. `Usage` is returned only if the command line does not take them; its error has the kind
/// of their mistake. Requests for help and for the version count as such mistakes.
pub fn read_words(alloc: Global, words: &[String]) -> Result<Order, WordsFault>
    ensures order { IfOk result (IsGiven (map string_bytes words.now)) }
    ensures usage { IfErr result (HasCause (map string_bytes words.now)) }
    ensures taken { takes ringd_app (map string_bytes words.now) ≡ true
        → IsOkUnless result WordsFault.NoMemory }
    ensures replay { (program : Text)
        → map string_bytes words.now ≡ program ∷ codes "replay" ∷ []
        → IsOkUnless result WordsFault.NoMemory }
{
    let matches = command(alloc)?.try_get_matches_from(words)?;
    let Some((name, given)) = matches.subcommand() else {
        unreachable!("a subcommand is required");
    };
    match name {
        "replay" => Ok(Order::Replay),
        "serve" => serve_order(alloc, given),
        "run" => run_order(alloc, given),
        "journal" => journal_order(alloc, given),
        _ => unreachable!("the command line has no other subcommand"),
    }
}

// Returns the order of `serve`.
fn serve_order(alloc: Global, given: &ArgMatches<'_>) -> Result<Order, WordsFault>
    requires { IsServed (rows_of (found_of given.now)) }
    ensures order { IfOk result (IsServeOf (rows_of (found_of given.now))) }
    ensures only { IsOkUnless result WordsFault.NoMemory }
{
    let Some(path) = given.get_str("config") else {
        unreachable!("the file is required");
    };
    let Some(connections) = given.get_one::<u32>("connections") else {
        unreachable!("the number is required, and is in its range");
    };
    let socket = copy_of(alloc, given.get_str("socket"))?;
    let mode = copy_of(alloc, given.get_str("socket-mode"))?;
    Ok(Order::Serve {
        path: String::from_str(alloc, path)?,
        connections,
        socket,
        mode,
    })
}

// Returns the order of `run`.
fn run_order(alloc: Global, given: &ArgMatches<'_>) -> Result<Order, WordsFault>
    requires { IsRun (rows_of (found_of given.now)) }
    ensures order { IfOk result (IsRunOf (rows_of (found_of given.now))) }
    ensures only { IsOkUnless result WordsFault.NoMemory }
{
    let Some(path) = given.get_str("config") else {
        unreachable!("the file is required");
    };
    let sessions = given.get_one::<u32>("sessions").unwrap_or(SESSIONS);
    let idle = given.get_one::<u32>("idle").unwrap_or(0);
    let places = given.get_flag("places");
    let journal = copy_of(alloc, given.get_str("journal"))?;
    let campaign = copy_of(alloc, given.get_str("campaign"))?;
    let http = copy_of(alloc, given.get_str("http"))?;
    let socket = copy_of(alloc, given.get_str("socket"))?;
    let mode = copy_of(alloc, given.get_str("socket-mode"))?;
    Ok(Order::Run {
        path: String::from_str(alloc, path)?,
        sessions,
        idle,
        places,
        journal,
        campaign,
        http,
        socket,
        mode,
    })
}

// Returns a copy of the text, if there is one. `NoMemory` if an allocation fails.
fn copy_of(alloc: Global, text: Option<&str>) -> Result<Option<String>, AllocError>
    ensures { IfOk result
        (λ copy. option_map string_bytes copy ≡ option_map (λ t. t.now) text.entry) }
{
    match text {
        Some(text) => Ok(Some(String::from_str(alloc, text)?)),
        None => Ok(None),
    }
}

// Returns the order of `journal`.
fn journal_order(alloc: Global, given: &ArgMatches<'_>) -> Result<Order, WordsFault>
    requires { HasFile (codes "file") (rows_of (found_of given.now)) }
    ensures order { IfOk result (IsJournalOf (rows_of (found_of given.now))) }
    ensures only { IsOkUnless result WordsFault.NoMemory }
{
    let Some(path) = given.get_str("file") else {
        unreachable!("the file is required");
    };
    Ok(Order::Journal {
        path: String::from_str(alloc, path)?,
    })
}
