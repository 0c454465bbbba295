//! The line of a change by a report. Its numbers and identities are read as those of commands.
ghost use Rattle.std.specs.Prelude.{◌≡◌, ◌≢◌, ◌==◌, ◌<◌, ◌+◌, ◌∷◌, ◌++◌, [], length, codes, decimal, position, IfNone, IfSome, ℕ};
ghost use Rattle.ring_id.specs.GroupName.{IsName};
ghost use Rattle.ring_id.specs.Term.{IsTerm};
ghost use Rattle.ring_grammar.specs.Identities.{IsNode, IsNumber, node_word};
ghost use Rattle.ring_change.specs.private.Reading.{IsKnow, Reads, joined_node, left_number, words_in};
ghost use Rattle.ring_change.specs.Spelling.{change_words};

use crate::change::Change;
use crate::line::Line;
use ring_any::Any;
use ring_events::Command;
use ring_grammar::{Sink, parse_command};
use ring_id::{GroupName, NodeId, NodeNo, TermNo};

/// The change by a report that this line spells.
pub(crate) fn know(line: &[u8]) -> Option<Change<Any>>
    ensures { Reads change_words IsKnow (words_in line.now) result }
{
    let (word, rest) = cut(line)?;
    let (group, rest) = cut(rest)?;
    let (term, rest) = cut(rest)?;
    let (member, leader) = cut(rest)?;
    match cut(leader) {
        None => know_of_five(word, group, term, member, leader),
        Some(_) => None,
    }
}

fn know_of_five(
    word: &[u8],
    group: &[u8],
    term: &[u8],
    member: &[u8],
    leader: &[u8],
) -> Option<Change<Any>>
    ensures { Reads change_words IsKnow
        (word.now ∷ group.now ∷ term.now ∷ member.now ∷ leader.now ∷ []) result }
{
    if word != b"know".as_slice() {
        return None;
    }
    Some(Change::Know {
        group: name(group)?,
        term: self::term(term)?,
        member: node(member)?,
        leader: node(leader)?,
    })
}

// The text before the first space, and the text after it; `None` if there is no space.
fn cut(text: &[u8]) -> Option<(&[u8], &[u8])>
    ensures some { IfSome result (λ cut. words_in text.now ≡ cut.0.now ∷ words_in cut.1.now) }
    ensures none { IfNone result (words_in text.now ≡ text.now ∷ []) }
{
    match first_space(text) {
        Some(at) => Some((&text[..at], &text[at + 1..])),
        None => None,
    }
}

fn first_space(text: &[u8]) -> Option<usize>
    ensures { result ≡ position (λ b. b == 32) text.now }
{
    text.iter().position(|b| *b == b' ')
}

// The word as the name of a group.
fn name(word: &[u8]) -> Option<GroupName>
    ensures { Reads (λ n. n) IsName word.now result }
{
    GroupName::from_bytes(word).ok()
}

// The term that this word spells.
fn term(word: &[u8]) -> Option<TermNo>
    ensures { Reads decimal IsTerm word.now result }
{
    let Ok(number) = u16::try_from(number(word)?.get()) else {
        return None;
    };
    TermNo::new(number)
}

// The number that this word spells, as `leave` names a node.
fn number(word: &[u8]) -> Option<NodeNo>
    ensures { Reads decimal IsNumber word.now result }
{
    let line = behind(b"leave a ", word)?;
    left(parse_command(line.as_slice())?)
}

/// Returns the number that this word spells: from 1 to 4294967295, without a sign or a leading
/// zero. Does not allocate.
pub fn read_number(word: &[u8]) -> Option<u32>
    ensures some { IfSome result (λ number. word.now ≡ decimal number) }
    ensures range { IfSome result IsNumber }
    ensures none { IfNone result ((number : ℕ) → IsNumber number → word.now ≢ decimal number) }
{
    match number(word) {
        Some(number) => Some(number.get()),
        None => None,
    }
}

// The identity that this word spells, as `join` names a node.
fn node(word: &[u8]) -> Option<NodeId>
    ensures { Reads node_word IsNode word.now result }
{
    let line = behind(b"join a ", word)?;
    joined(parse_command(line.as_slice())?)
}

fn left(command: Command<Any>) -> Option<NodeNo>
    ensures { result ≡ left_number command }
{
    match command {
        Command::Leave(_, number) => Some(number),
        _ => None,
    }
}

fn joined(command: Command<Any>) -> Option<NodeId>
    ensures { result ≡ joined_node command }
{
    match command {
        Command::Join(_, node) => Some(node),
        _ => None,
    }
}

// The words of a command and then a word; `None` if together they are longer than a `Line`.
fn behind(words: &[u8], word: &[u8]) -> Option<Line>
    ensures some { IfSome result (λ line. line ≡ words.now ++ word.now) }
    ensures none { IfNone result (70 < length words.now + length word.now) }
{
    let mut line = Line::new();
    line.put(words).ok()?;
    line.put(word).ok()?;
    Some(line)
}
