//! The place of a journal: a name in a folder, which is the name of one file after another.
ghost use Rattle.std.specs.Prelude.{◌≡◌, length, IfErr, IfOk, None};
ghost use Rattle.ring_file.specs.Faults.{IsBeginFault, IsReadFault, IsTakeFault};
ghost use Rattle.ring_file.specs.declared.place.PlaceFault.TheVariants as place_fault;

use crate::medium::FileMedium;
use crate::tail::{AHEAD, Tail};
use ring_journal::Batch;
use std::alloc::AllocError;
use std::fs::{File, Files, OpenOptions, TryLockError};
use std::io::{Read, Write};
use std::os::unix::fs::OpenOptionsExt;
use std::{fs, io};

// The mode of the files that are made. Nobody but their owner can read them, or keep a service from
// starting by a lock on one of them.
const OWNER_ALONE: u32 = 0o600;

/// Why a journal cannot be used.
#[derive(Clone, Copy, Debug, PartialEq, Eq)]
pub enum PlaceFault {
    /// Another process holds it.
    InUse,
    /// Its file or its lock file cannot be opened or read.
    Unreadable,
    /// Its name is the name of a folder, a link, a pipe or a device.
    NotAFile,
    /// A write, a sync or a rename failed.
    Failed,
    /// An allocation failed.
    NoMemory,
}

impl From<AllocError> for PlaceFault {
    ghost from_gives = { λ _ fault. fault ≡ place_fault.NoMemory };

    fn from(_error: AllocError) -> PlaceFault {
        PlaceFault::NoMemory
    }
}

/// A handle by which a file takes the place of the journal's, in any thread.
pub trait Replaces {
    /// Puts a new file of this text and of zeros after it at a place, as `Place::begin` does, and
    /// returns it.
    fn put_in_place(&self, place: &Place, text: &[u8], zeros: &[u8]) -> io::Result<File>;
}

impl Replaces for HostRuntime {
    fn put_in_place(&self, place: &Place, text: &[u8], zeros: &[u8]) -> io::Result<File> {
        place.replace(self, text, zeros)
    }
}

/// The place of a journal, which no other process takes as long as this value lives.
#[derive(Drop)]
pub struct Place {
    path: String,
    // the name of a file that is to take the place of the journal's
    new_path: String,
    // the lock is released when this is closed
    lock: File,
}

impl Place {
    /// Takes the place of the journal at `path`, by a lock on the file `path.lock`.
    ///
    /// System calls: `openat` of `path.lock`, which makes that file with mode 0600 if there is none,
    /// and `flock`, which does not wait. Returns `InUse` if another process has the lock. The lock
    /// file is never removed.
    pub fn take<R: Files<File = File> + AllocGlobal>(
        rt: &R,
        path: &str,
    ) -> Result<Place, PlaceFault>
        ensures { IfErr result IsTakeFault }
    {
        let lock_path = format!(in rt.alloc(); "{path}.lock")?;
        let new_path = format!(in rt.alloc(); "{path}.new")?;
        let path = format!(in rt.alloc(); "{path}")?;
        let opened = OpenOptions::new()
            .read(true)
            .write(true)
            .create(true)
            .mode(OWNER_ALONE)
            .open(rt, lock_path.as_str());
        let lock = opened.map_err(unreadable)?;
        match lock.try_lock() {
            Ok(()) => Ok(Place {
                path,
                new_path,
                lock,
            }),
            Err(TryLockError::WouldBlock) => Err(PlaceFault::InUse),
            Err(TryLockError::Error(_)) => Err(PlaceFault::Unreadable),
        }
    }

    /// Returns the bytes of the journal's file, or no bytes if there is no such file.
    ///
    /// System calls: `statx` of the file, which follows no link, then `openat`, and `read` up to
    /// its end. Returns `NotAFile` if it is not a regular file, and then does not open it.
    pub fn read<R: Files<File = File> + AllocGlobal>(&self, rt: &R) -> Result<Vec<u8>, PlaceFault>
        ensures { IfErr result IsReadFault }
    {
        let mut found = Vec::new(rt.alloc());
        let path = self.path.as_str();
        match fs::symlink_metadata(rt, path) {
            Err(error) if error.kind() == io::ErrorKind::NotFound => return Ok(found),
            Err(error) => return Err(unreadable(error)),
            Ok(about) if !about.is_file() => return Err(PlaceFault::NotAFile),
            Ok(_) => {}
        }
        let mut file = fs::open(rt, path).map_err(unreadable)?;
        file.read_to_end(&mut found).map_err(unreadable)?;
        Ok(found)
    }

    /// Replaces the journal's file by one that holds `text`, and returns the medium of the new
    /// file.
    ///
    /// System calls: `unlink` of `path.new`, which an earlier life may have left. Then `openat` of
    /// a new file `path.new` with mode 0600, `write` of the text and of zeros, and `fsync`. Then
    /// `rename` to `path`, `openat` of its folder and `fsync` of that. So `path` is the old file at
    /// each moment, or the new one with the whole text. After an error it may be either.
    pub fn begin<R: Files<File = File> + Replaces + AllocGlobal + Copy + Drop>(
        self,
        rt: &R,
        text: &Batch,
    ) -> Result<FileMedium<R>, PlaceFault>
        ensures ok { IfOk result (λ medium. medium
            ≡ record { text = text.now.bytes; kept = length text.now.bytes; other = None }) }
        ensures err { IfErr result IsBeginFault }
    {
        let zeros = vec![in rt.alloc(); 0; AHEAD]?;
        match self.replace(rt, text.bytes(), &zeros) {
            Ok(file) => {
                let tail = Tail::new(file, text.len(), zeros);
                Ok(FileMedium::new(rt.alloc(), *rt, self, tail, text)?)
            }
            Err(error) => Err(failed(error)),
        }
    }

    /// Makes a new file of this text and of zeros after it, and gives it the name of the journal.
    /// It makes the system calls that `begin` names, in that order.
    pub(crate) fn replace<R: Files<File = File>>(
        &self,
        rt: &R,
        text: &[u8],
        zeros: &[u8],
    ) -> io::Result<File> {
        let path = self.path.as_str();
        let new_path = self.new_path.as_str();
        let file = write_new(rt, new_path, text, zeros)?;
        fs::rename(rt, new_path, path)?;
        File::open(rt, folder_of(path))?.sync_all()?;
        Ok(file)
    }
}

// Makes a new file of this text and of zeros after it, and syncs it.
fn write_new<R: Files<File = File>>(
    rt: &R,
    path: &str,
    text: &[u8],
    zeros: &[u8],
) -> io::Result<File> {
    match fs::remove_file(rt, path) {
        Err(error) if error.kind() != io::ErrorKind::NotFound => return Err(error),
        _ => {}
    }
    let mut file = OpenOptions::new()
        .read(true)
        .write(true)
        .create_new(true)
        .mode(OWNER_ALONE)
        .open(rt, path)?;
    file.write_all(text)?;
    file.write_all(zeros)?;
    file.sync_all()?;
    Ok(file)
}

// The folder of a path.
fn folder_of(path: &str) -> &str {
    match path.rfind('/') {
        Some(0) => "/",
        Some(at) => &path[..at],
        None => ".",
    }
}

// The fault of a file that could not be opened or read.
fn unreadable(error: io::Error) -> PlaceFault
    ensures take { IsTakeFault result }
    ensures read { IsReadFault result }
{
    match error.kind() {
        io::ErrorKind::OutOfMemory => PlaceFault::NoMemory,
        _ => PlaceFault::Unreadable,
    }
}

// The fault of a file that could not be written.
fn failed(error: io::Error) -> PlaceFault
    ensures { IsBeginFault result }
{
    match error.kind() {
        io::ErrorKind::OutOfMemory => PlaceFault::NoMemory,
        _ => PlaceFault::Failed,
    }
}
