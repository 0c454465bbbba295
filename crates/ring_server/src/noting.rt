//! What is noted of an answer of the table.
ghost use Rattle.std.specs.Prelude.{◌≡◌, ◌<◌, ◌+◌};
ghost use Rattle.ring_id.specs.Refusals.{number_in_table};
ghost use Rattle.ring_server.specs.private.Noting.{note_in, note_in_command, note_in_reply};

use ring_any::Any;
use ring_events::{Command, Reply};
use ring_id::{GroupName, Refusal};
use ring_table::Answer;

/// What is noted of an answer.
#[derive(Clone, Copy)]
pub(crate) enum Note {
    /// It was this refusal.
    Refused(Refusal),
    /// This group was created, with this algorithm.
    Created(GroupName, Any),
}

/// Returns what is noted of the answer to a command, or `None` if nothing is. Does not allocate.
#[inline(always)]
pub(crate) fn note_of(command: &Command<Any>, answer: &Answer) -> Option<Note>
    ensures { result ≡ note_in command.now answer.now }
{
    match answer {
        Answer::Placed { reply, place: _ } => note_of_reply(command, reply),
        Answer::Unplaced(refusal) => Some(Note::Refused(*refusal)),
    }
}

// Returns what is noted of the reply to a command.
#[inline(always)]
fn note_of_reply(command: &Command<Any>, reply: &Reply) -> Option<Note>
    ensures { result ≡ note_in_reply command.now reply.now }
{
    match reply {
        Reply::Done => note_of_command(command),
        Reply::Refused(refusal) => Some(Note::Refused(*refusal)),
        _ => None,
    }
}

// Returns what is noted of a command that was done.
fn note_of_command(command: &Command<Any>) -> Option<Note>
    ensures { result ≡ note_in_command command.now }
{
    match command {
        Command::Create(group, algorithm) => Some(Note::Created(*group, *algorithm)),
        _ => None,
    }
}

/// Returns the place of a refusal's count: one less than the refusal's number.
pub(crate) fn place_of(refusal: Refusal) -> usize
    ensures value { result + 1 ≡ number_in_table refusal }
    ensures within { result < 14 }
{
    usize::from(refusal.number()) - 1
}
