//! The first line of a journal: its version, and the number of its life.
ghost use Rattle.std.specs.Prelude.{◌≡◌, ◌≢◌, ◌++◌, ◌∷◌, [], decimal, IfErr, IfNone, IfOk, IfSome, List, ℕ, OnErr, OnOk};
ghost use Rattle.ring_change.specs.Checks.{check_after, check_mark, first_check};
ghost use Rattle.ring_journal.specs.Lines.{lines_in};
ghost use Rattle.ring_recovery.specs.Damage.{IsFaultOf};
ghost use Rattle.ring_recovery.specs.JournalLines.{IsZerosAlone, heading, heading_words, life_word};
ghost use Rattle.ring_recovery.specs.Life.{IsLife};
ghost use Rattle.ring_recovery.specs.private.Reading.{IsNext};

use crate::fault::RecoverFault;
use crate::life::Life;
use itoa::Buffer;
use ring_change::{Check, read_number};
use std::alloc::AllocError;

/// The words before the number of the life.
const WORDS: &[u8] = b"ringd journal 1 life ";

/// The number of bytes of a mark.
const MARK: usize = 10;

/// Adds the first line of a journal in this life, and its LF.
pub(crate) fn put_heading(life: Life, text: &mut Vec<u8>) -> Result<(), AllocError>
    ensures text { OnOk result (text.new.items ≡ text.old.items ++ (heading life ++ 10 ∷ [])) }
    ensures legal { IsLife life }
{
    let mut buffer = Buffer::new();
    let number = buffer.format(life.get()).as_bytes();
    text.extend_from_slice(WORDS)?;
    text.extend_from_slice(number)?;
    text.extend_from_slice(mark_of(number).as_slice())?;
    text.extend_from_slice(b"\n")?;
    Ok(())
}

// The mark of the heading with this number.
fn mark_of(number: &[u8]) -> [u8; 10]
    ensures { result ≡ check_mark (check_after (check_after first_check heading_words) number.now) }
{
    Check::new().after(WORDS).after(number).mark()
}

/// Returns the life after that of the file with this first line.
pub(crate) fn next_life(found: &[u8], first: &[u8]) -> Result<Life, RecoverFault>
    requires { (lines : List (List ℕ)) × (lines_in found.now ≡ first.now ∷ lines) }
    ensures ok { IfOk result (IsNext first.now) }
    ensures err { IfErr result (IsFaultOf found.now) }
{
    let Some(life) = read_heading(first) else {
        return Err(fault_of(found));
    };
    match life.next() {
        Some(next) => Ok(next),
        None => Err(RecoverFault::Lives),
    }
}

/// Returns why a file is refused that does not begin with the heading of a life.
pub(crate) fn fault_of(found: &[u8]) -> RecoverFault
    requires some { ¬ (IsZerosAlone found.now) }
    requires other { (life : ℕ) (lines : List (List ℕ)) → IsLife life
        → lines_in found.now ≢ heading life ∷ lines }
    ensures { IsFaultOf found.now result }
{
    match after_words(found) {
        Some(_) => RecoverFault::Bad { at: WORDS.len() },
        None => RecoverFault::Version,
    }
}

// The life of this first line; `None` if it is no heading.
fn read_heading(line: &[u8]) -> Option<Life>
    ensures some { IfSome result (λ life. IsLife life × (line.now ≡ heading life)) }
    ensures none { IfNone result ((life : ℕ) → IsLife life → line.now ≢ heading life) }
{
    match after_words(line) {
        Some(word) => marked_life(word),
        None => None,
    }
}

// The life of a number and its mark; `None` if this is no such word.
fn marked_life(word: &[u8]) -> Option<Life>
    ensures some { IfSome result (λ life. IsLife life × (word.now ≡ life_word life)) }
    ensures none { IfNone result ((life : ℕ) → IsLife life → word.now ≢ life_word life) }
{
    if word.len() < MARK {
        return None;
    }
    let (number, mark) = word.split_at(word.len() - MARK);
    let Some(life) = numbered(number) else {
        return None;
    };
    if mark != mark_of(number).as_slice() {
        return None;
    }
    Some(life)
}

// The life with the number that this word spells; `None` if it spells no number of a life.
fn numbered(word: &[u8]) -> Option<Life>
    ensures some { IfSome result (λ life. IsLife life × (word.now ≡ decimal life)) }
    ensures none { IfNone result ((life : ℕ) → IsLife life → word.now ≢ decimal life) }
{
    match read_number(word) {
        Some(number) => Life::new(number),
        None => None,
    }
}

// The text after the words of a heading; `None` if it does not begin with them.
fn after_words(text: &[u8]) -> Option<&[u8]>
    ensures some { IfSome result (λ rest. text.now ≡ heading_words ++ rest.now) }
    ensures none { IfNone result ((rest : List ℕ) → text.now ≢ heading_words ++ rest) }
{
    if text.len() < WORDS.len() {
        return None;
    }
    let (words, rest) = text.split_at(WORDS.len());
    if words != WORDS {
        return None;
    }
    Some(rest)
}
