ghost use Rattle.std.specs.Prelude.{◌≡◌, ◌≤◌, decimal};
ghost use Rattle.ring_id.specs.GroupName.{IsName};
ghost use Rattle.ring_any.specs.Any.{word_of};
ghost use Rattle.ring_grammar.specs.private.Reading.{IsShortNumber, Reads};
ghost use Rattle.ring_grammar.specs.Identities.{IsNode, IsNumber, node_word};
ghost use Rattle.ring_grammar.specs.private.Identities.{IsWeight};
ghost use Rattle.ring_grammar.specs.Spelling.{side_word};

use crate::parts::cut;
use ring_any::Any;
use ring_id::{GroupName, NodeId, NodeNo, Side};

/// The greatest number of digits of a 32-bit number.
const MOST_DIGITS: usize = 10;

/// The greatest number of deliveries that a line can ask for.
const MOST_DELIVERIES: u32 = 1_000_000_000;

// Returns the number that is printed as this text, so without a sign or a leading zero.
fn number(text: &[u8]) -> Option<u32>
    ensures { Reads decimal IsShortNumber text.now result }
{
    if text.is_empty() || text.len() > MOST_DIGITS {
        return None;
    }
    if text.len() > 1 && text[0] == b'0' {
        return None;
    }
    let mut value: u64 = 0;
    for byte in text {
        if *byte < b'0' || *byte > b'9' {
            return None;
        }
        value = value * 10 + (*byte - b'0') as u64;
    }
    if value > u32::MAX as u64 {
        return None;
    }
    Some(value as u32)
}

/// Returns the number of a node that this word spells.
pub(crate) fn node_number(word: &[u8]) -> Option<NodeNo>
    ensures { Reads decimal IsNumber word.now result }
{
    NodeNo::new(number(word)?)
}

/// Returns the identity that this word spells: a number, and after a slash a weight that isn't 0.
pub(crate) fn node(word: &[u8]) -> Option<NodeId>
    ensures { Reads node_word IsNode word.now result }
{
    match cut(word, b'/') {
        Some((front, rest)) => NodeId::weighted(number(front)?, weight(rest)?),
        None => NodeId::new(number(word)?),
    }
}

// Returns the weight that this text spells, which isn't 0.
fn weight(text: &[u8]) -> Option<u16>
    ensures { Reads decimal IsWeight text.now result }
{
    let Ok(weight) = u16::try_from(number(text)?) else {
        return None;
    };
    if weight == 0 {
        return None;
    }
    Some(weight)
}

/// Returns the number of deliveries that this word spells.
pub(crate) fn count(word: &[u8]) -> Option<u32>
    ensures { Reads decimal (λ n. n ≤ 1000000000) word.now result }
{
    let count = number(word)?;
    if count <= MOST_DELIVERIES {
        Some(count)
    } else {
        None
    }
}

/// Returns the group name that this word is.
pub(crate) fn name(word: &[u8]) -> Option<GroupName>
    ensures { Reads (λ n. n) IsName word.now result }
{
    GroupName::from_bytes(word).ok()
}

/// Returns the kind of election that this word spells.
pub(crate) fn kind(word: &[u8]) -> Option<Any>
    ensures { Reads word_of (λ _. Unit {0}) word.now result }
{
    Any::from_word(word)
}

/// Returns the side that this word spells.
pub(crate) fn side(word: &[u8]) -> Option<Side>
    ensures { Reads side_word (λ _. Unit {0}) word.now result }
{
    match word {
        b"left" => Some(Side::Left),
        b"right" => Some(Side::Right),
        _ => None,
    }
}
