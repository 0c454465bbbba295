//! The lines of a schedule.
ghost use Rattle.std.specs.Prelude.{IfOk, IfSome};
ghost use Rattle.ring_grammar.specs.Spelling.{Spells};

use crate::fault::Fault;
use ring_any::Any;
use ring_events::Event;
use ring_grammar::parse_event;
use std::rt::Files;
use std::{fs, io};

/// A line of a schedule: its number, its command, and the reply that it must get, if it has one.
#[derive(Clone, Copy)]
pub struct Line<'a> {
    pub place: u64,
    pub command: &'a str,
    pub reply: Option<&'a str>,
}

impl<'a> Line<'a> {
    /// Returns the line in a text, or `None` if the text is empty or a comment.
    pub fn read(place: u64, text: &'a str) -> Option<Line<'a>> {
        if text.is_empty() || text.starts_with('#') {
            return None;
        }
        let (command, reply) = match text.strip_prefix("=> ") {
            Some(reply) => ("", Some(reply)),
            None => match text.split_once(" => ") {
                Some((command, reply)) => (command, Some(reply)),
                None => (text, None),
            },
        };
        Some(Line {
            place,
            command,
            reply,
        })
    }

    /// Returns the event that the command spells, or `None` if it spells none and the line has the
    /// reply `no bad-line`. Fails with `BadLine` if it spells none and the line has another reply
    /// or no reply.
    pub fn event(self) -> Result<Option<Event<Any>>, Fault>
        ensures { IfOk result (λ event. IfSome event (Spells self.entry.command.now)) }
    {
        match (parse_event(self.command.as_bytes()), self.reply) {
            (Some(event), _) => Ok(Some(event)),
            (None, Some("no bad-line")) => Ok(None),
            (None, _) => Err(Fault::BadLine(self.place)),
        }
    }
}

/// Returns the text of a schedule: of the file, or of standard input if there is no path. Fails
/// with `Unreadable` if it cannot be read or is not UTF-8, and with `NoMemory` if an allocation
/// fails.
pub fn read_schedule<R>(rt: &R, path: Option<&str>) -> Result<String, Fault>
where
    R: Input + Files + AllocGlobal,
{
    let text = match path {
        Some(path) => fs::read_to_string(rt, path),
        None => io::read_to_string(rt.alloc(), rt.reader()),
    };
    match text {
        Ok(text) => Ok(text),
        Err(error) if error.kind() == io::ErrorKind::OutOfMemory => Err(Fault::NoMemory),
        Err(_) => Err(Fault::Unreadable),
    }
}
