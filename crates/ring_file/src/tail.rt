//! The end of the text in the file, and the zeros after it.

use crate::place::{Place, Replaces};
use std::fs::File;
use std::io;
use std::os::unix::fs::FileExt;

/// How many zeros are written ahead of the text at a time.
pub(crate) const AHEAD: usize = 65536;

/// An open file: a text, and zeros after it that are synced.
#[derive(Drop)]
pub(crate) struct Tail {
    file: File,
    // how many bytes the text has, and how many the file has
    end: u64,
    room: u64,
    // `AHEAD` zeros
    zeros: Vec<u8>,
    // whether a write or a sync failed
    is_broken: bool,
}

impl Tail {
    /// Returns the tail of a file that holds a text of `len` bytes and `zeros` after it, synced.
    pub(crate) fn new(file: File, len: usize, zeros: Vec<u8>) -> Tail {
        let end = len as u64;
        Tail {
            file,
            end,
            room: end.saturating_add(zeros.len() as u64),
            zeros,
            is_broken: false,
        }
    }

    /// Writes the bytes over zeros at the end of the text. Returns whether they were written.
    ///
    /// If the file has too few zeros, more are written (`pwrite`) and synced (`fsync`) first. Then
    /// the bytes are written (`pwrite`). After a failure, in this call or an earlier one, nothing
    /// is written any more.
    pub(crate) fn put(&mut self, bytes: &[u8]) -> bool {
        self.is_broken = self.is_broken || self.try_put(bytes).is_err();
        !self.is_broken
    }

    /// Syncs the bytes that were written (`fdatasync`). Returns whether they are on the disk.
    ///
    /// After a failure, in this call or an earlier one, nothing is synced any more.
    pub(crate) fn sync(&mut self) -> bool {
        self.is_broken = self.is_broken || self.file.sync_data().is_err();
        !self.is_broken
    }

    /// Replaces the file at `place` by a new one that holds these bytes and zeros, and goes on with
    /// that one. Returns whether it is on the disk under its name.
    ///
    /// After a failure, in this call or an earlier one, nothing is written any more.
    pub(crate) fn replace<R: Replaces>(&mut self, rt: &R, place: &Place, bytes: &[u8]) -> bool {
        if self.is_broken {
            return false;
        }
        match rt.put_in_place(place, bytes, &self.zeros) {
            Ok(file) => {
                self.file = file;
                self.end = bytes.len() as u64;
                self.room = self.end.saturating_add(self.zeros.len() as u64);
                true
            }
            Err(_) => {
                self.is_broken = true;
                false
            }
        }
    }

    fn try_put(&mut self, bytes: &[u8]) -> io::Result<()> {
        let end = self.end.saturating_add(bytes.len() as u64);
        self.make_room(end)?;
        self.file.write_all_at(bytes, self.end)?;
        self.end = end;
        Ok(())
    }

    // Writes zeros until the file has `end` bytes, and syncs them if there were any.
    fn make_room(&mut self, end: u64) -> io::Result<()> {
        if end <= self.room {
            return Ok(());
        }
        for _ in 0..(end - self.room).div_ceil(AHEAD as u64) {
            self.file.write_all_at(&self.zeros, self.room)?;
            self.room = self.room.saturating_add(AHEAD as u64);
        }
        self.file.sync_all()
    }
}
