//! Sends lines, and prints their replies.
use crate::client::Client;
use crate::fault::Fault;
use crate::reply::Reply;
use std::io::{self, BufRead, BufReader, Read, Write};

// The prompt before each line at a terminal.
const PROMPT: &str = "ring> ";

/// Sends one line, and prints its reply. If the reply is a refusal, its word is in the fault.
pub fn ask_once<R, S>(rt: &R, client: &mut Client<S>, line: &str) -> Result<(), Fault>
where
    R: Print,
    S: Read + Write + Drop,
{
    say(rt, client.demand("", line)?)
}

/// Sends each line of standard input, to its end, and prints each reply, also if it is a refusal.
/// Empty lines are skipped.
pub fn hold<R, S>(rt: &R, client: &mut Client<S>, at_terminal: bool) -> Result<(), Fault>
where
    R: Input + Print + AllocGlobal,
    S: Read + Write + Drop,
{
    prompt(rt, at_terminal)?;
    let Ok(input) = BufReader::new(rt.alloc(), rt.reader()) else {
        return Err(Fault::NoMemory);
    };
    for line in input.lines(rt.alloc()) {
        take(rt, client, line, at_terminal)?;
    }
    if at_terminal { say(rt, "") } else { Ok(()) }
}

// Sends a line that was read, unless it is empty, and prompts for the next one.
fn take<R, S>(
    rt: &R,
    client: &mut Client<S>,
    line: io::Result<String>,
    at_terminal: bool,
) -> Result<(), Fault>
where
    R: Print,
    S: Read + Write + Drop,
{
    let Ok(line) = line else {
        return Err(Fault::Read);
    };
    if !line.is_empty() {
        answer(rt, client, line.as_str())?;
    }
    prompt(rt, at_terminal)
}

// Sends a line, and prints its reply, also if it is a refusal.
fn answer<R, S>(rt: &R, client: &mut Client<S>, line: &str) -> Result<(), Fault>
where
    R: Print,
    S: Read + Write + Drop,
{
    show(rt, client.ask("", line)?)
}

fn prompt(rt: &impl Print, at_terminal: bool) -> Result<(), Fault> {
    if !at_terminal {
        return Ok(());
    }
    match print!(rt; "{PROMPT}") {
        Ok(()) => Ok(()),
        Err(_) => Err(Fault::Write),
    }
}

/// Prints a reply as it came, without its place.
pub fn show(rt: &impl Print, reply: Reply<'_>) -> Result<(), Fault> {
    match reply {
        Reply::Done(line) => say(rt, line),
        Reply::Refused(word) => match println!(rt; "no {word}") {
            Ok(()) => Ok(()),
            Err(_) => Err(Fault::Write),
        },
    }
}

/// Prints a line.
pub fn say(rt: &impl Print, line: &str) -> Result<(), Fault> {
    match println!(rt; "{line}") {
        Ok(()) => Ok(()),
        Err(_) => Err(Fault::Write),
    }
}
