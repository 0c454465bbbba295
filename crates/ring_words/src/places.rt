//! The texts of places to listen, and of modes.
ghost use Rattle.std.specs.Prelude.{◌≡◌, ◌↔◌, ℕ, IfSome, IsTrue, MatchOption, option_map, string_bytes};
ghost use Rattle.ring_words.specs.Journals.{NamesJournal};
ghost use Rattle.ring_words.specs.Places.{GivesNoPlace, HasJournal, HasMode, HasPlace, HasPath, IsMode, IsPlaceOf, IsWellGiven};

use crate::journals::journal_at;
use crate::words::Order;

// Why the text of a journal is refused.
const NO_JOURNAL: &str = "a journal is a file, or etcd://HOST:PORT,../NAME";

/// A place to listen.
#[derive(Clone, Copy)]
pub enum Place<'a> {
    /// A port on 127.0.0.1.
    Port(u16),
    /// The path of a socket in the file system.
    Path(&'a str),
}

/// Returns the place that a text gives: the path of a socket if the text has a `/`, otherwise a
/// port of 1 to 65535. Returns `None` if it gives neither.
pub fn place_of(text: &str) -> Option<Place<'_>>
    ensures { MatchOption result (GivesNoPlace text.now) (IsPlaceOf text.now) }
{
    if text.as_bytes().contains(&b'/') {
        return Some(Place::Path(text));
    }
    match text.parse::<u16>() {
        Ok(port) if port > 0 => Some(Place::Port(port)),
        _ => None,
    }
}

/// Returns the mode that a text gives in octal, 0 to 777, or `None` if it gives none.
pub fn mode_of(text: &str) -> Option<u32>
    ensures { MatchOption result ((mode : ℕ) → IsMode text.now mode → ⊥) (IsMode text.now) }
{
    match u32::from_str_radix(text, 8) {
        Ok(mode) if mode <= 0o777 => Some(mode),
        _ => None,
    }
}

/// Returns why the texts of an order are refused, or `None` if each is what its option takes: a
/// place, a path that is not empty, a mode, or the text of a journal.
pub fn misgiven(order: &Order) -> Option<&'static str>
    ensures { MatchOption result (IsWellGiven order.now) (λ _. IsWellGiven order.now → ⊥) }
{
    match order {
        Order::Replay => None,
        Order::Serve { socket, mode, .. } => misgiven_socket(socket, mode),
        Order::Run {
            journal,
            campaign,
            http,
            socket,
            mode,
            ..
        } => {
            if !gives_place(campaign) || !gives_place(http) {
                return Some("a place is a port, 1 to 65535, or a path with a /");
            }
            if let Some(why) = misgiven_socket(socket, mode) {
                return Some(why);
            }
            if gives_journal(journal) {
                None
            } else {
                Some(NO_JOURNAL)
            }
        }
        Order::Journal { path } => {
            if names_journal(path.as_str()) {
                None
            } else {
                Some(NO_JOURNAL)
            }
        }
    }
}

// Returns why the path of a socket or its mode is refused, if one is.
fn misgiven_socket(socket: &Option<String>, mode: &Option<String>) -> Option<&'static str>
    ensures { MatchOption result (HasPath (option_map string_bytes socket.now)
        × HasMode (option_map string_bytes mode.now))
        (λ _. HasPath (option_map string_bytes socket.now)
        × HasMode (option_map string_bytes mode.now) → ⊥) }
{
    if !gives_path(socket) {
        return Some("the path of a socket is not empty");
    }
    if !gives_mode(mode) {
        return Some("a mode is octal, 0 to 777");
    }
    None
}

// Returns whether a text gives a place, if there is one.
fn gives_place(text: &Option<String>) -> bool
    ensures { IsTrue result ↔ HasPlace (option_map string_bytes text.now) }
{
    match text {
        Some(text) => place_of(text.as_str()).is_some(),
        None => true,
    }
}

// Returns whether a text gives a path, if there is one.
fn gives_path(text: &Option<String>) -> bool
    ensures { IsTrue result ↔ HasPath (option_map string_bytes text.now) }
{
    match text {
        Some(text) => !text.is_empty(),
        None => true,
    }
}

// Returns whether a text gives a mode, if there is one.
fn gives_mode(text: &Option<String>) -> bool
    ensures { IsTrue result ↔ HasMode (option_map string_bytes text.now) }
{
    match text {
        Some(text) => mode_of(text.as_str()).is_some(),
        None => true,
    }
}

// Returns whether a text names a journal, if there is one.
fn gives_journal(text: &Option<String>) -> bool
    ensures { IsTrue result ↔ HasJournal (option_map string_bytes text.now) }
{
    match text {
        Some(text) => names_journal(text.as_str()),
        None => true,
    }
}

// Returns whether a text names a journal.
fn names_journal(text: &str) -> bool
    ensures { IsTrue result ↔ NamesJournal text.now }
{
    journal_at(text).is_some()
}
