ghost use Rattle.std.specs.Prelude.{◌≡◌, ◌∷◌, [], codes, IfSome, IfNone};
ghost use Rattle.ring_any.specs.declared.any.Any.{Any};
ghost use Rattle.ring_events.specs.declared.event.Event.{Event};
ghost use Rattle.ring_events.specs.declared.event.Command.{Command};
ghost use Rattle.ring_events.specs.declared.event.Event.TheVariants.{Client};
ghost use Rattle.ring_grammar.specs.private.Reading.{Reads, client_part, words_in};
ghost use Rattle.ring_grammar.specs.Spelling.{IsEvent, Spells, event_words};

use crate::parts::cut;
use crate::values::{count, kind, name, node, node_number, side};
use ring_any::Any;
use ring_events::{Command, Event};

/// The greatest number of bytes of a line, without its LF.
const LONGEST: usize = 128;

/// Returns the event that a line spells, given without its LF; `None` if and only if it spells
/// none.
///
/// Words are separated by one space, and numbers have no leading zero and no sign. A line of more
/// than 128 bytes spells no event. Only `join` has a weight, after a slash, and a weight of 0 isn't
/// written. Does not allocate.
#[inline(always)]
pub fn parse_event(line: &[u8]) -> Option<Event<Any>>
    ensures some { IfSome result (Spells line.now) }
    ensures none { IfNone result ((event : Event Any) → ¬ (Spells line.now event)) }
{
    if line.len() > LONGEST {
        return None;
    }
    event(line)
}

/// Returns the client command that a line spells, given without its LF; `None` if and only if it
/// spells none.
///
/// Lines of a schedule (`deliver`, `cut`, `pending` and `drain`) spell no client command. Does not
/// allocate.
pub fn parse_command(line: &[u8]) -> Option<Command<Any>>
    ensures some { IfSome result (λ command. Spells line.now (Client command)) }
    ensures none { IfNone result ((command : Command Any) → ¬ (Spells line.now (Client command))) }
{
    client_command(parse_event(line)?)
}

fn client_command(event: Event<Any>) -> Option<Command<Any>>
    ensures { result ≡ client_part event }
{
    match event {
        Event::Client(command) => Some(command),
        Event::Deliver { .. } | Event::Cut { .. } => None,
        Event::Pending { .. } | Event::Drain { .. } => None,
    }
}

// Returns the event that these bytes spell, of any length. Clients ask `who` most, so it is read
// first.
#[inline(always)]
fn event(line: &[u8]) -> Option<Event<Any>>
    ensures { Reads event_words IsEvent (words_in line.now) result }
{
    match line {
        [b'w', b'h', b'o', b' ', rest @ ..] => who(rest),
        _ => any_event(line),
    }
}

// Returns the question `who` with these bytes after its first word. The number has no space, so it
// is not cut further.
#[inline(always)]
fn who(rest: &[u8]) -> Option<Event<Any>>
    ensures { Reads event_words IsEvent (codes "who" ∷ words_in rest.now) result }
{
    let (group, argument) = cut(rest, b' ')?;
    let (group, number) = (name(group)?, node_number(argument)?);
    Some(Event::Client(Command::Who(group, number)))
}

// Returns the event that these bytes spell, by its words.
fn any_event(line: &[u8]) -> Option<Event<Any>>
    ensures { Reads event_words IsEvent (words_in line.now) result }
{
    let Some((word, rest)) = cut(line, b' ') else {
        return event_of_one(line);
    };
    let Some((group, rest)) = cut(rest, b' ') else {
        return event_of_two(word, rest);
    };
    let Some((argument, rest)) = cut(rest, b' ') else {
        return event_of_three(word, group, rest);
    };
    match cut(rest, b' ') {
        None => event_of_four(word, group, argument, rest),
        Some(_) => None,
    }
}

#[inline(always)]
fn event_of_one(word: &[u8]) -> Option<Event<Any>>
    ensures { Reads event_words IsEvent (word.now ∷ []) result }
{
    if word == b"groups".as_slice() {
        Some(Event::Client(Command::Groups))
    } else {
        None
    }
}

#[inline(always)]
fn event_of_two(word: &[u8], group: &[u8]) -> Option<Event<Any>>
    ensures { Reads event_words IsEvent (word.now ∷ group.now ∷ []) result }
{
    let group = name(group)?;
    if word == b"start".as_slice() {
        Some(Event::Client(Command::Start(group)))
    } else if word == b"members".as_slice() {
        Some(Event::Client(Command::Members(group)))
    } else if word == b"terms".as_slice() {
        Some(Event::Client(Command::Terms(group)))
    } else if word == b"pending".as_slice() {
        Some(Event::Pending { group })
    } else {
        None
    }
}

#[inline(always)]
fn event_of_three(word: &[u8], group: &[u8], argument: &[u8]) -> Option<Event<Any>>
    ensures { Reads event_words IsEvent (word.now ∷ group.now ∷ argument.now ∷ []) result }
{
    let group = name(group)?;
    if word == b"create".as_slice() {
        Some(Event::Client(Command::Create(group, kind(argument)?)))
    } else if word == b"join".as_slice() {
        Some(Event::Client(Command::Join(group, node(argument)?)))
    } else if word == b"leave".as_slice() {
        Some(Event::Client(Command::Leave(group, node_number(argument)?)))
    } else if word == b"who".as_slice() {
        Some(Event::Client(Command::Who(group, node_number(argument)?)))
    } else if word == b"drain".as_slice() {
        Some(Event::Drain {
            group,
            count: count(argument)?,
        })
    } else {
        None
    }
}

#[inline(always)]
fn event_of_four(word: &[u8], group: &[u8], argument: &[u8], end: &[u8]) -> Option<Event<Any>>
    ensures { Reads event_words IsEvent (word.now ∷ group.now ∷ argument.now ∷ end.now ∷ [])
        result }
{
    let group = name(group)?;
    let node = node_number(argument)?;
    let side = side(end)?;
    if word == b"deliver".as_slice() {
        Some(Event::Deliver { group, node, side })
    } else if word == b"cut".as_slice() {
        Some(Event::Cut { group, node, side })
    } else {
        None
    }
}
