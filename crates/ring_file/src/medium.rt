//! The medium on a file.
ghost use Rattle.std.specs.Prelude.{◌≡◌, length, IfOk, None};

use crate::place::{Place, Replaces};
use crate::tail::Tail;
use ring_journal::{Batch, Fault, Medium};
use std::alloc::{AllocError, Global};
use std::marker::Model;
use std::snapshot::Snapshot;

/// The file of a journal, which no other process takes as long as this value lives.
///
/// Contracts see the text that the file was begun with and the batches that `append` wrote. They
/// see how many of these were synced, and the text of a `replace` that failed.
#[derive(Drop)]
pub struct FileMedium<R> {
    rt: R,
    // the lock is released when this is closed
    place: Place,
    tail: Tail,
    // the text that the file was begun with and each batch that was written, which have no bytes in
    // memory
    pieces: Vec<Snapshot<Batch>>,
    // how many of them were synced
    synced: usize,
    // the text that may have taken the place of these, when the disk failed
    other: Option<Snapshot<Batch>>,
}

impl<R> Model for FileMedium<R> {
    ghost use Rattle.std.specs.Prelude.{◌≤◌, length, map};
    ghost use Rattle.ring_journal.specs.Moments.{Moment};
    ghost use Rattle.ring_file.specs.Files.{moment_of, text_in};

    ghost Value = { Moment };

    ghost view = { λ a. moment_of
        (map (λ piece. piece.value.bytes) a.pieces.items)
        a.synced
        (text_in (λ piece. piece.value.bytes) a.other) };

    ghost invariant = { λ a. a.synced ≤ length a.pieces.items };
}

impl<R: Replaces + Drop> FileMedium<R> {
    /// Returns the medium of the file at `place`, which holds `text` and synced zeros. Makes no
    /// system call.
    pub(crate) fn new(
        alloc: Global,
        rt: R,
        place: Place,
        tail: Tail,
        text: &Batch,
    ) -> Result<FileMedium<R>, AllocError>
        ensures { IfOk result (λ medium. medium
            ≡ record { text = text.now.bytes; kept = length text.now.bytes; other = None }) }
    {
        let mut pieces = Vec::with_capacity(alloc, 1)?;
        pieces.push_reserved(Snapshot::of(text));
        Ok(FileMedium {
            rt,
            place,
            tail,
            pieces,
            synced: 1,
            other: None,
        })
    }
}

impl<R: Replaces + Drop> Medium for FileMedium<R> {
    ghost moment = { λ a. a };

    /// Writes the batch at the end of the text (`pwrite`), over zeros that are synced.
    ///
    /// If there are too few zeros, more are written and synced first (`pwrite`, `fsync`). After a
    /// failure, nothing is written any more.
    fn append(&mut self, batch: &Batch) -> Result<(), Fault> {
        let Ok(()) = self.pieces.reserve(1) else {
            return Err(Fault::NoMemory);
        };
        self.pieces.push_reserved(Snapshot::of(batch));
        if self.tail.put(batch.bytes()) {
            return Ok(());
        }
        Err(Fault::Failed)
    }

    /// Syncs the text (`fdatasync`). After a failure, nothing is synced any more.
    fn sync(&mut self) -> Result<(), Fault> {
        if !self.tail.sync() {
            return Err(Fault::Failed);
        }
        self.synced = self.pieces.len();
        Ok(())
    }

    /// Replaces the file by a new one that holds `text` and zeros, as `Place::begin` does. It makes
    /// the same system calls in the same order. The old file is closed after them.
    ///
    /// After a failure, nothing is written any more.
    fn replace(&mut self, text: &Batch) -> Result<(), Fault> {
        let Ok(()) = self.pieces.reserve(1) else {
            return Err(Fault::NoMemory);
        };
        if !self.tail.replace(&self.rt, &self.place, text.bytes()) {
            self.other = Some(Snapshot::of(text));
            return Err(Fault::Failed);
        }
        self.pieces.clear();
        self.pieces.push_reserved(Snapshot::of(text));
        self.synced = 1;
        self.other = None;
        Ok(())
    }
}
