//! Bytes that are written together.
ghost use Rattle.std.specs.Prelude.{◌≡◌, ◌↔◌, ◌+◌, ◌-◌, ◌<◌, ◌≤◌, ◌++◌, ◌∷◌, [], length, IsTrue, OnErr, OnOk};

use std::alloc::{AllocError, Global};
use std::marker::Model;

/// The byte that ends a line.
pub(crate) const LF: u8 = b'\n';

/// Lines that are written together. Contracts see their bytes, and for how many more bytes there is
/// room.
#[derive(Drop)]
pub struct Batch {
    bytes: Vec<u8>,
}

impl Model for Batch {
    ghost use Rattle.std.specs.Prelude.{◌-◌, vec_capacity, vec_len};
    ghost use Rattle.ring_journal.specs.Journals.{BatchView};

    ghost Value = { BatchView };

    ghost view = { λ a. record {
      bytes = a.bytes.items;
      room = vec_capacity a.bytes - vec_len a.bytes;
    } };
}

impl From<Vec<u8>> for Batch {
    ghost from_gives = { λ bytes batch. batch.bytes ≡ bytes.items };

    fn from(bytes: Vec<u8>) -> Batch {
        Batch { bytes }
    }
}

impl Batch {
    /// Returns an empty batch. Does not allocate.
    pub fn new(alloc: Global) -> Batch
        ensures { result.bytes ≡ [] }
    {
        Batch {
            bytes: Vec::new(alloc),
        }
    }

    /// Returns the bytes, each line with its LF.
    pub fn bytes(&self) -> &[u8]
        ensures { result.now ≡ self.now.bytes }
    {
        &self.bytes
    }

    /// Returns how many bytes there are.
    pub fn len(&self) -> usize
        ensures { result ≡ length self.now.bytes }
    {
        self.bytes.len()
    }

    /// Returns whether there are no bytes.
    pub fn is_empty(&self) -> bool
        ensures { IsTrue result ↔ (self.now.bytes ≡ []) }
    {
        self.bytes.is_empty()
    }

    /// Makes room for `bytes` more bytes. Fails only if an allocation fails.
    pub fn reserve(&mut self, bytes: usize) -> Result<(), AllocError>
        ensures same { self.new.bytes ≡ self.old.bytes }
        ensures room { OnOk result (bytes ≤ self.new.room) }
        ensures grown { self.old.room ≤ self.new.room }
    {
        self.bytes.reserve(bytes)
    }

    /// Adds a line and its LF, for which there is room. Does not allocate.
    pub fn add_reserved(&mut self, line: &[u8])
        requires { length line.now < self.old.room }
        ensures bytes { self.new.bytes ≡ self.old.bytes ++ (line.now ++ 10 ∷ []) }
        ensures room { self.old.room ≤ self.new.room + (length line.now + 1) }
    {
        let is_put = self.bytes.extend_from_slice(line).is_ok();
        prove!(is_put);
        self.bytes.push_reserved(LF);
    }

    /// Adds a line and its LF. Fails only if an allocation fails, and then the bytes are as before.
    pub fn add(&mut self, line: &[u8]) -> Result<(), AllocError>
        ensures ok { OnOk result (self.new.bytes ≡ self.old.bytes ++ (line.now ++ 10 ∷ [])) }
        ensures err { OnErr result (self.new.bytes ≡ self.old.bytes) }
    {
        self.reserve(line.len().saturating_add(1))?;
        self.add_reserved(line);
        Ok(())
    }

    /// Removes all bytes. The room of the whole batch stays.
    pub fn clear(&mut self)
        ensures bytes { self.new.bytes ≡ [] }
        ensures room { self.new.room ≡ self.old.room + length self.old.bytes }
    {
        self.bytes.clear();
    }
}
