//! The medium of a journal.
ghost use Rattle.std.specs.Prelude.{◌≡◌, length, OnErr, OnOk};
ghost use Rattle.ring_journal.specs.Appending.{appended, replaced};

use crate::batch::Batch;

/// How many bytes a journal writes at most between two syncs.
pub const LONGEST_BATCH: usize = 65536;

/// Why a call of a medium did not do its work.
#[derive(Clone, Copy, Debug, PartialEq, Eq)]
pub enum Fault {
    /// An allocation failed, and nothing was written.
    NoMemory,
    /// The disk failed, in this call or an earlier one. The bytes of this call may be there or not.
    Failed,
}

/// A text that grows, until another text takes its place. `MayFind` says which files a crash may
/// leave of it.
///
/// The ghost member `moment` has the bytes that were written so far, and how many of the first ones
/// are synced. It has another text too, if a restart may find that one in their place.
///
/// A crash may come between two calls or inside one. A restart then finds a file that `MayFind`
/// allows at some moment between the one before that call and the one after it. If the crash comes
/// inside `replace`, it is the moment before, the moment after, or the moment before with the other
/// text.
pub trait Medium {
    ghost use Rattle.ring_journal.specs.Moments.{Moment};

    ghost moment: { Self → Moment };

    /// Writes a batch after the text. If the disk fails, the batch counts as written, since it may
    /// be there.
    fn append(&mut self, batch: &Batch) -> Result<(), Fault>
        ensures text { (moment self.new).text
            ≡ appended result (moment self.old).text batch.now.bytes }
        ensures kept { (moment self.new).kept ≡ (moment self.old).kept }
        ensures other { (moment self.new).other ≡ (moment self.old).other };

    /// Syncs the whole text to the disk.
    fn sync(&mut self) -> Result<(), Fault>
        ensures text { (moment self.new).text ≡ (moment self.old).text }
        ensures kept { OnOk result ((moment self.new).kept ≡ length (moment self.old).text) }
        ensures stays { OnErr result ((moment self.new).kept ≡ (moment self.old).kept) }
        ensures other { (moment self.new).other ≡ (moment self.old).other };

    /// Puts `text` in the place of the text that was written, all of it synced. So at each moment a
    /// restart finds the old text or the new one, and no part of the new one alone.
    ///
    /// If the disk fails, a restart may find either text from then on.
    fn replace(&mut self, text: &Batch) -> Result<(), Fault>
        ensures { moment self.new ≡ replaced result (moment self.old) text.now.bytes };
}
