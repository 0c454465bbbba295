//! A medium in memory.
ghost use Rattle.std.specs.Prelude.{◌≡◌, length, Err, IsOk, OnErr};
ghost use Rattle.ring_journal.specs.Appending.{appended, replaced};
ghost use Rattle.ring_journal.specs.Memories.{memory_kept, memory_moment, memory_text};
ghost use Rattle.ring_journal.specs.declared.medium.Fault.TheVariants as fault;

use crate::batch::Batch;
use crate::medium::{Fault, Medium};

/// A text in memory, and how many of its first bytes were synced.
#[derive(Drop)]
pub struct MemoryMedium {
    text: Vec<u8>,
    kept: usize,
}

impl MemoryMedium {
    /// Returns a medium that holds `text`, all of it synced.
    pub fn new(text: Vec<u8>) -> MemoryMedium
        ensures text { memory_text result ≡ text.items }
        ensures kept { memory_kept result ≡ length text.items }
    {
        let kept = text.len();
        MemoryMedium { text, kept }
    }

    /// Returns the bytes that were written.
    pub fn text(&self) -> &[u8]
        ensures { result.now ≡ memory_text self.now }
    {
        &self.text
    }

    /// Returns how many of the first bytes were synced.
    pub fn kept(&self) -> usize
        ensures { result ≡ memory_kept self.now }
    {
        self.kept
    }
}

impl Medium for MemoryMedium {
    ghost moment = { memory_moment };

    /// Adds the bytes of the batch. Fails only if an allocation fails, and then the text is as
    /// before.
    fn append(&mut self, batch: &Batch) -> Result<(), Fault>
        ensures text { memory_text self.new
            ≡ appended result (memory_text self.old) batch.now.bytes }
        ensures kept { memory_kept self.new ≡ memory_kept self.old }
        ensures err { OnErr result (result ≡ Err fault.NoMemory) }
    {
        match self.text.extend_from_slice(batch.bytes()) {
            Ok(()) => Ok(()),
            Err(_) => Err(Fault::NoMemory),
        }
    }

    /// Notes that the whole text is synced. It never fails.
    fn sync(&mut self) -> Result<(), Fault>
        ensures text { memory_text self.new ≡ memory_text self.old }
        ensures kept { memory_kept self.new ≡ length (memory_text self.old) }
        ensures ok { IsOk result }
    {
        self.kept = self.text.len();
        Ok(())
    }

    /// Holds `text` from now on, and notes that it is synced. Fails only if an allocation fails,
    /// and then the text is as before.
    fn replace(&mut self, text: &Batch) -> Result<(), Fault>
        ensures moment { memory_moment self.new
            ≡ replaced result (memory_moment self.old) text.now.bytes }
        ensures err { OnErr result (result ≡ Err fault.NoMemory) }
    {
        let Ok(()) = self.text.reserve(text.len()) else {
            return Err(Fault::NoMemory);
        };
        self.text.clear();
        let is_put = self.text.extend_from_slice(text.bytes()).is_ok();
        prove!(is_put);
        self.kept = self.text.len();
        Ok(())
    }
}
