//! The lines that a restart reads in a file.
ghost use Rattle.std.specs.Prelude.{◌≡◌, ◌↔◌, ◌≤◌, ◌==◌, length, not, position, take, ◌&&◌, IfErr, IfOk, IsOk, IsTrue};
ghost use Rattle.std.specs.List.{list_all};
ghost use Rattle.std.specs.Iterator.{YieldsFirstRef, item_count};
ghost use Rattle.ring_journal.specs.Journals.{HasAll};
ghost use Rattle.ring_journal.specs.Lines.{IsLine, front, lines_in, whole_lines_of};
ghost use Rattle.ring_journal.specs.private.Ending.{EndsFirst};
ghost use Rattle.ring_journal.specs.Whole.{IsBadAt, IsWhole};

use crate::batch::LF;
use crate::medium::LONGEST_BATCH;
use std::marker::Model;

/// Returns whether `line` can be a line of a journal: no byte of it is an LF or a zero.
pub fn is_line(line: &[u8]) -> bool
    ensures { IsTrue result ↔ IsLine line.now }
{
    has_no_end(line)
}

// Whether no byte is an LF or a zero.
fn has_no_end(line: &[u8]) -> bool
    ensures { result ≡ list_all (λ byte. not (byte == 10) && not (byte == 0)) line.now }
{
    line.iter().all(|&byte| byte != LF && byte != 0)
}

/// A byte of a file that no crash leaves there.
#[derive(Clone, Copy, Debug, PartialEq, Eq)]
pub struct BadByte {
    /// Its place, counted from 0.
    pub at: usize,
}

/// An iterator over the complete lines of a text, without their LFs. Contracts see the list of
/// those that are left.
#[derive(Drop)]
pub struct Lines<'a> {
    text: &'a [u8],
}

impl<'a> Model for Lines<'a> {
    ghost use Rattle.std.specs.Prelude.{List, ℕ};
    ghost use Rattle.ring_journal.specs.Lines.{whole_lines_of};

    ghost Value = { List (List ℕ) };

    ghost view = { λ a. whole_lines_of a.text.now };
}

impl<'a> Iterator for Lines<'a> {
    type Item = &'a [u8];

    ghost next_gives = { YieldsFirstRef (λ left. left) };

    ghost remaining = { item_count (λ left. left) };

    fn next(&mut self) -> Option<&'a [u8]> {
        let text = self.text;
        let len = line_len(text)?;
        self.text = &text[len + 1..];
        Some(&text[..len])
    }
}

// The length of the first line; `None` if no LF ends it.
fn line_len(text: &[u8]) -> Option<usize>
    ensures { EndsFirst text.now result }
{
    place_of(LF, text)
}

// The place of the first byte that is `byte`; `None` if there is none.
fn place_of(byte: u8, bytes: &[u8]) -> Option<usize>
    ensures { result ≡ position (λ other. other == byte) bytes.now }
{
    bytes.iter().position(|&other| other == byte)
}

// The place of the first byte that is not a zero; `None` if there is none.
fn byte_at(bytes: &[u8]) -> Option<usize>
    ensures { result ≡ position (λ byte. not (byte == 0)) bytes.now }
{
    bytes.iter().position(|&byte| byte != 0)
}

// How many bytes are before the first zero.
fn front_len(found: &[u8]) -> usize
    ensures len { result ≡ length (front found.now) }
    ensures within { result ≤ length found.now }
{
    place_of(0, found).unwrap_or(found.len())
}

/// Returns the lines of a file: those that an LF ends before the first zero. Does not allocate.
///
/// Returns the first byte that is not a zero and is `LONGEST_BATCH` bytes or more after the first
/// zero. No crash leaves such a byte, since no more than `LONGEST_BATCH` bytes were ever written
/// and not synced.
pub fn read_lines(found: &[u8]) -> Result<Lines<'_>, BadByte>
    ensures lines { IfOk result (λ lines. lines ≡ lines_in found.now) }
    ensures whole { IsOk result ↔ IsWhole found.now }
    ensures bad { IfErr result (λ bad. IsBadAt found.now bad.at) }
{
    let end = front_len(found);
    let far = end + LONGEST_BATCH.min(found.len() - end);
    match byte_at(&found[far..]) {
        Some(more) => Err(BadByte { at: far + more }),
        None => Ok(Lines {
            text: &found[..end],
        }),
    }
}

/// Returns how many bytes the lines of a file take, with their LFs. A torn tail and the zeros
/// follow them.
pub fn whole_len(found: &[u8]) -> usize
    ensures within { result ≤ length found.now }
    ensures all { HasAll (take result found.now) }
    ensures lines { whole_lines_of (take result found.now) ≡ lines_in found.now }
{
    let mut at = 0;
    let mut whole = 0;
    while at < found.len() && found[at] != 0 {
        let ends = found[at] == LF;
        at += 1;
        if ends {
            whole = at;
        }
    }
    whole
}
