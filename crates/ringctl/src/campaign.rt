//! Campaigns: a member that belongs to its group for as long as a connection lives.
//!
//! The service answers the join, and then says what the member knows of the leader, each time that
//! this changes. The campaign prints each of these replies as it comes.
ghost use Rattle.std.specs.Prelude.{◌↔◌, IsTrue};
ghost use Rattle.ringctl.specs.Campaigns.{IsJoined, IsOfTerm};

use crate::client::Client;
use crate::fault::Fault;
use crate::reply::Reply;
use crate::session::show;
use std::alloc::Global;
use std::io::{Read, Write};
use std::net::TcpStream;

// The longest time between two signs of life, in milliseconds. A service waits for a second at
// least.
const PACE: u64 = 500;

/// Sends a line that spells a join, and prints its reply and all that come after it, without end.
///
/// After each reply, and when none has come for half a second, it sends a sign of life: an empty
/// line. It fails with the word of a refusal, and with `NoService` if the connection ends.
pub fn run<R>(rt: &R, client: &mut Client<TcpStream>, line: &str) -> Result<(), Fault>
where
    R: Print + AllocGlobal,
{
    client.wait_for(PACE)?;
    hold(rt, client, line)
}

// Sends the join, and takes the replies. A member that has not joined yet sends no signs of life: a
// service that refuses it does not have to read them.
fn hold<R, S>(rt: &R, client: &mut Client<S>, line: &str) -> Result<(), Fault>
where
    R: Print + AllocGlobal,
    S: Read + Write + Drop,
{
    client.send("", line)?;
    let mut has_joined = false;
    for _ in 0..u64::MAX {
        if let Some(reply) = client.hear()? {
            take(rt, reply, has_joined)?;
            has_joined = true;
        }
        if has_joined {
            client.send("", "")?;
        }
    }
    Ok(())
}

// Prints a reply with which the campaign goes on. Any other reply ends it.
fn take<R>(rt: &R, reply: Reply<'_>, has_joined: bool) -> Result<(), Fault>
where
    R: Print + AllocGlobal,
{
    let goes_on = if has_joined {
        is_of_term(&reply)
    } else {
        is_joined(&reply)
    };
    if goes_on {
        return show(rt, reply);
    }
    Err(end_of(rt.alloc(), reply))
}

// Returns the fault of a reply that ends the campaign: that of a refusal, or of another service.
fn end_of(alloc: Global, reply: Reply<'_>) -> Fault {
    match reply {
        Reply::Refused(word) => Fault::refused(alloc, word),
        Reply::Done(_) => Fault::NoService,
    }
}

/// Returns whether this reply to the join says that the member has joined.
pub fn is_joined(reply: &Reply<'_>) -> bool
    ensures { IsTrue result ↔ IsJoined reply.now }
{
    match reply {
        Reply::Done(line) => *line == "ok",
        Reply::Refused(_) => false,
    }
}

/// Returns whether this reply says what a member knows of the leader. The leader may be known or
/// not yet. The member may be missing in the term's ring, and the group may have had no term.
pub fn is_of_term(reply: &Reply<'_>) -> bool
    ensures { IsTrue result ↔ IsOfTerm reply.now }
{
    match reply {
        Reply::Done(line) => line.starts_with("leader ") || line.starts_with("undecided "),
        Reply::Refused(word) => *word == "not-in-term" || *word == "no-term",
    }
}
