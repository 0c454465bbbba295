//! A journal: lines, of which every restart finds the settled ones.
ghost use Rattle.std.specs.Prelude.{◌≡◌, ◌↔◌, ◌+◌, ◌-◌, ◌<◌, ◌≤◌, ◌++◌, ◌∷◌, [], false, true, length, Err, IsErr, IsTrue, OnErr, OnOk};
ghost use Rattle.ring_journal.specs.Appending.{replaced};
ghost use Rattle.ring_journal.specs.Journals.{Adds, FindsEither, FindsFirst, HasAll, IsSame, settled};
ghost use Rattle.ring_journal.specs.Lines.{AreLines, IsLine, text_of, whole_lines_of};
ghost use Rattle.ring_journal.specs.Moments.{Grows};
ghost use Rattle.ring_journal.specs.declared.journal.RoomFault.TheVariants as room_fault;
ghost use Rattle.ring_journal.specs.declared.medium.Fault.TheVariants as fault;

use crate::batch::Batch;
use crate::medium::{Fault, LONGEST_BATCH, Medium};
use std::alloc::{AllocError, Global};
use std::marker::Model;

/// Why there is no room for a line.
#[derive(Clone, Copy, Debug, PartialEq, Eq)]
pub enum RoomFault {
    /// The pending lines would be longer than `LONGEST_BATCH` bytes. There is room again after
    /// `settle`.
    Full,
    /// An allocation failed.
    NoMemory,
}

impl From<AllocError> for RoomFault {
    ghost from_gives = { λ _ fault. fault ≡ room_fault.NoMemory };

    fn from(_error: AllocError) -> RoomFault {
        RoomFault::NoMemory
    }
}

/// A journal on a medium. Contracts see its lines in order and the moment of its medium. They also
/// see how many bytes are pending, for how many more there is room, and whether the disk failed.
#[derive(Drop)]
pub struct Journal<D: Medium + Drop> {
    medium: D,
    // the lines that were added and not written
    batch: Batch,
    // whether the disk failed
    is_broken: bool,
}

impl<D: Medium + Drop> Model for Journal<D> {
    ghost use Rattle.ring_journal.specs.Journals.{JournalView, view_of};
    ghost use Rattle.ring_journal.specs.private.Invariant.{IsJournal};

    ghost Value = { JournalView };

    ghost view = { λ a. view_of (D.moment a.medium) a.batch a.is_broken };

    ghost invariant = { λ a. IsJournal (D.moment a.medium) a.batch.bytes a.is_broken };
}

impl<D: Medium + Drop> Journal<D> {
    /// Returns a journal of the lines that `medium` holds, all of them settled. The disk counts as
    /// one that never failed. Does not allocate.
    pub fn new(alloc: Global, medium: D) -> Journal<D>
        requires lines { HasAll (D.moment medium).text }
        requires kept { (D.moment medium).kept ≡ length (D.moment medium).text }
        ensures lines { result.lines ≡ whole_lines_of (D.moment medium).text }
        ensures disk { result.disk ≡ D.moment medium }
        ensures pending { result.pending ≡ 0 }
        ensures works { result.is_broken ≡ false }
        ensures any_moment { FindsFirst result result }
    {
        Journal {
            medium,
            batch: Batch::new(alloc),
            is_broken: false,
        }
    }

    /// Returns the medium.
    pub fn medium(&self) -> &D
        ensures { D.moment result.now ≡ self.now.disk }
    {
        &self.medium
    }

    /// Returns how many bytes are pending, each line counted with its LF. The second clause is a
    /// law of every journal, for a crash that comes now.
    pub fn pending(&self) -> usize
        ensures value { result ≡ self.now.pending }
        ensures any_moment { FindsFirst self.now self.now }
    {
        self.batch.len()
    }

    /// Returns whether the disk failed in an earlier call of `settle` or `replace`.
    pub fn is_broken(&self) -> bool
        ensures { result ≡ self.now.is_broken }
    {
        self.is_broken
    }

    /// Makes room for lines of `bytes` bytes in all, each counted with its LF. Nothing is written.
    ///
    /// Returns `Full` if the pending lines and these are longer than `LONGEST_BATCH` bytes.
    pub fn reserve(&mut self, bytes: usize) -> Result<(), RoomFault>
        ensures same { IsSame self.old self.new }
        ensures room { OnOk result (bytes ≤ self.new.room) }
        ensures full { (result ≡ Err room_fault.Full) ↔ (65536 < self.old.pending + bytes) }
        ensures any_moment { FindsFirst self.old self.new }
    {
        if bytes > LONGEST_BATCH - self.batch.len() {
            return Err(RoomFault::Full);
        }
        self.batch.reserve(bytes)?;
        Ok(())
    }

    /// Adds a line for which there is room. Does not allocate, and nothing is written.
    pub fn add_reserved(&mut self, line: &[u8])
        requires line { IsLine line.now }
        requires room { length line.now < self.old.room }
        ensures added { Adds self.old line.now self.new }
        ensures room { self.old.room ≤ self.new.room + (length line.now + 1) }
        ensures any_moment { FindsFirst self.old self.new }
    {
        self.batch.add_reserved(line);
    }

    /// Adds a line, which the next `settle` writes.
    ///
    /// Returns `Full` if the pending lines and this one are longer than `LONGEST_BATCH` bytes.
    pub fn add(&mut self, line: &[u8]) -> Result<(), RoomFault>
        requires { IsLine line.now }
        ensures ok { OnOk result (Adds self.old line.now self.new) }
        ensures err { OnErr result (IsSame self.old self.new) }
        ensures full { (result ≡ Err room_fault.Full)
            ↔ (65536 ≤ self.old.pending + length line.now) }
        ensures any_moment { FindsFirst self.old self.new }
    {
        self.reserve(line.len().saturating_add(1))?;
        self.add_reserved(line);
        Ok(())
    }

    /// Replaces the lines by those of `text`, all of them settled. Lines that are pending are
    /// dropped.
    ///
    /// If a crash comes inside the call, a restart finds the lines as before, or all lines of
    /// `text`. After `Failed` it may find either from then on, and no call settles a line any more.
    pub fn replace(&mut self, text: &Batch) -> Result<(), Fault>
        requires { HasAll text.now.bytes }
        ensures lines { OnOk result (self.new.lines ≡ whole_lines_of text.now.bytes) }
        ensures settled { OnOk result (settled self.new ≡ length self.new.lines) }
        ensures pending { OnOk result (self.new.pending ≡ 0) }
        ensures disk { self.old.is_broken ≡ false
            → self.new.disk ≡ replaced result self.old.disk text.now.bytes }
        ensures err { OnErr result (self.new.lines ≡ self.old.lines) }
        ensures failed { (result ≡ Err fault.Failed) ↔ IsTrue self.new.is_broken }
        ensures broken { IsTrue self.old.is_broken → self.new.disk ≡ self.old.disk }
        ensures no_memory { result ≡ Err fault.NoMemory → IsSame self.old self.new }
        ensures any_moment { FindsEither self.old text.now.bytes }
    {
        if self.is_broken {
            return Err(Fault::Failed);
        }
        match self.medium.replace(text) {
            Ok(()) => {
                self.batch.clear();
                Ok(())
            }
            Err(Fault::NoMemory) => Err(Fault::NoMemory),
            Err(Fault::Failed) => {
                self.is_broken = true;
                Err(Fault::Failed)
            }
        }
    }

    /// Writes the pending lines and syncs them. If there are none, nothing is written.
    ///
    /// After `Failed` no call settles a line any more. A restart may find the lines that were
    /// pending, or the first of them.
    pub fn settle(&mut self) -> Result<(), Fault>
        ensures same { self.new.lines ≡ self.old.lines }
        ensures ok { OnOk result (settled self.new ≡ length self.new.lines) }
        ensures pending { OnOk result (self.new.pending ≡ 0) }
        ensures err { OnErr result (settled self.new ≡ settled self.old) }
        ensures failed { (result ≡ Err fault.Failed) ↔ IsTrue self.new.is_broken }
        ensures broken { IsTrue self.old.is_broken → IsTrue self.new.is_broken }
        ensures no_memory { result ≡ Err fault.NoMemory → IsSame self.old self.new }
        ensures idle { self.old.pending ≡ 0 → self.new.disk ≡ self.old.disk }
        ensures grows { Grows self.old.disk self.new.disk }
        ensures any_moment { FindsFirst self.old self.new }
    {
        if self.is_broken {
            return Err(Fault::Failed);
        }
        if self.batch.is_empty() {
            return Ok(());
        }
        match self.medium.append(&self.batch) {
            Err(Fault::NoMemory) => return Err(Fault::NoMemory),
            Err(Fault::Failed) => {
                self.batch.clear();
                self.is_broken = true;
                return Err(Fault::Failed);
            }
            Ok(()) => self.batch.clear(),
        }
        match self.medium.sync() {
            Ok(()) => Ok(()),
            Err(_) => {
                self.is_broken = true;
                Err(Fault::Failed)
            }
        }
    }
}
