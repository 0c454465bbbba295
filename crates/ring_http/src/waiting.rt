//! How long a request waits for news, and which answer its client has seen. It decides when a
//! request is answered, and not how.
//!
//! Proved are the most seconds of a wait, and when its seconds have passed by two readings of the
//! clock. The rest is tested.
ghost use Rattle.std.specs.Prelude.{◌*◌, ◌-◌, ◌≤◌, ◌↔◌, IsTrue};
ghost use Rattle.std.specs.Time.{instant_nanos};

use std::time::{Clock, Instant};

// How many seconds a request waits at most.
const MOST: u32 = 60;

/// How many seconds a request waits for news, by its query `wait=SECONDS`: at most 60.
pub(crate) fn wait_of(query: Option<&str>) -> u32
    ensures { result ≤ 60 }
{
    match value_of(query, b"wait=") {
        Some(text) => seconds_in(text),
        None => 0,
    }
}

/// Whether `wait` seconds have passed since a moment. False if the clock was not read then, or is
/// not read now.
pub(crate) fn is_over<R: Clock>(rt: &R, began: Option<Instant>, wait: u32) -> bool {
    match (began, Instant::now(rt)) {
        (Some(began), Ok(now)) => has_passed(began, now, wait),
        _ => false,
    }
}

// Whether at least `wait` seconds lie between two readings of the clock. None lie between them if
// the clock went back.
fn has_passed(began: Instant, now: Instant, wait: u32) -> bool
    ensures { IsTrue result
        ↔ (wait * 1_000_000_000 ≤ instant_nanos now - instant_nanos began) }
{
    now.duration_since(began).as_nanos() >= u128::from(wait) * 1_000_000_000
}

/// The place of the answer that a client has seen, by its query `after=PLACE`, or `None` if it
/// names none.
pub(crate) fn place_of(query: Option<&str>) -> Option<usize> {
    place_in(value_of(query, b"after=")?)
}

// The text after a key of a query, or `None` if the query does not have it.
fn value_of<'a>(query: Option<&'a str>, key: &[u8]) -> Option<&'a [u8]> {
    for part in query?.as_bytes().split(|b| *b == b'&') {
        if let Some(text) = part.strip_prefix(key) {
            return Some(text);
        }
    }
    None
}

// The place that a text spells, or `None` if it spells none.
fn place_in(text: &[u8]) -> Option<usize> {
    let mut place: usize = 0;
    for byte in text {
        if *byte < b'0' || *byte > b'9' {
            return None;
        }
        place = place
            .checked_mul(10)?
            .checked_add(usize::from(*byte - b'0'))?;
    }
    Some(place)
}

// The number of seconds that a text spells; 0 if it spells none, and 60 if it spells more.
fn seconds_in(text: &[u8]) -> u32
    ensures { result ≤ 60 }
{
    let mut seconds: u32 = 0;
    for byte in text {
        if *byte < b'0' || *byte > b'9' {
            return 0;
        }
        seconds = (seconds * 10 + u32::from(*byte - b'0')).min(MOST);
    }
    seconds
}
