//! A short text that takes the place of a journal's: the lines of the changes that lead to a book.
ghost use Rattle.std.specs.Prelude.{IfOk, IfSome, OnOk};
ghost use Rattle.ring_recovery.specs.private.Shortening.{AddsLine, IsShort, IsSpelled};

use crate::book_changes::changes_of_book;
use crate::life::Life;
use crate::recovery::text_of;
use ring_any::Any;
use ring_change::{Change, Check, spell_line};
use ring_id::NoMemory;
use ring_journal::Batch;
use ring_terms::Book;
use std::alloc::Global;

/// The text of a journal, and the check after its last line.
#[derive(Drop)]
pub(crate) struct Short {
    pub(crate) text: Batch,
    pub(crate) check: Check,
}

/// Returns the text of the changes that lead to `book`. Returns `None` if it would have more than
/// `most` bytes, or if an allocation fails; no clause says when.
pub(crate) fn shorter(alloc: Global, life: Life, book: &Book<Any>, most: usize) -> Option<Short>
    ensures { IfSome result (λ short. IsShort life book.now short.check short.text.bytes) }
{
    let Ok(changes) = changes_of_book(alloc, book) else {
        return None;
    };
    let Ok(short) = spelled(alloc, life, &changes) else {
        return None;
    };
    if short.text.len() > most {
        drop(short);
        return None;
    }
    Some(short)
}

// The text of a journal of these changes in this life.
fn spelled(alloc: Global, life: Life, changes: &[Change<Any>]) -> Result<Short, NoMemory>
    ensures { IfOk result (λ short. IsSpelled life changes.now short.check short.text.bytes) }
{
    let Ok(mut text) = text_of(alloc, Vec::new(alloc), life, 0) else {
        return Err(NoMemory);
    };
    let mut check = Check::new();
    for change in changes {
        if let Err(fault) = put_line(change, &mut check, &mut text) {
            drop(text);
            return Err(fault);
        }
    }
    Ok(Short { text, check })
}

// Adds the line of a change.
fn put_line(change: &Change<Any>, check: &mut Check, text: &mut Batch) -> Result<(), NoMemory>
    ensures { OnOk result (AddsLine change.now check.old check.new text.old.bytes text.new.bytes) }
{
    let line = spell_line(change, check);
    match text.add(line.as_slice()) {
        Ok(()) => Ok(()),
        Err(_) => Err(NoMemory),
    }
}
