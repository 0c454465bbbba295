//! A medium that counts what a journal writes and syncs.
ghost use Rattle.std.specs.Prelude.{◌≡◌};

use ring_http::JournalFigures;
use ring_journal::{Batch, Fault, Medium};
use std::marker::Model;
use std::sync::Arc;
use std::sync::atomic::{AtomicU64, Ordering};
use std::time::{Clock, Duration, Instant};

/// How long a journal is, and what its syncs took. The counts are tested, not proved.
#[derive(Drop)]
pub struct Meter {
    bytes: AtomicU64,
    syncs: AtomicU64,
    micros: AtomicU64,
}

impl Meter {
    /// Returns the meter of a journal of `bytes` bytes that was not synced yet. Does not allocate.
    pub fn new(bytes: usize) -> Meter {
        Meter {
            bytes: AtomicU64::new(bytes as u64),
            syncs: AtomicU64::new(0),
            micros: AtomicU64::new(0),
        }
    }

    /// Returns what was counted. Does not allocate.
    pub fn figures(&self) -> JournalFigures {
        JournalFigures {
            bytes: self.bytes.load(Ordering::SeqCst),
            syncs: self.syncs.load(Ordering::SeqCst),
            micros: self.micros.load(Ordering::SeqCst),
        }
    }

    // Counts bytes that were written after the others.
    fn add(&self, bytes: usize) {
        self.bytes.fetch_add(bytes as u64, Ordering::SeqCst);
    }

    // Takes the length of a text that took the place of the others.
    fn set(&self, bytes: usize) {
        self.bytes.store(bytes as u64, Ordering::SeqCst);
    }

    // Counts a sync, and the time that it took if a clock said so.
    fn count_sync(&self, took: Option<Duration>) {
        self.syncs.fetch_add(1, Ordering::SeqCst);
        if let Some(took) = took {
            self.micros.fetch_add(micros_in(took), Ordering::SeqCst);
        }
    }
}

// Returns the whole microseconds of a time, or 2^64 - 1 if there are more.
fn micros_in(time: Duration) -> u64 {
    time.as_secs()
        .saturating_mul(1_000_000)
        .saturating_add(u64::from(time.subsec_micros()))
}

/// A medium that does as another one, and counts the bytes and the syncs that succeeded.
///
/// Contracts see the other medium.
#[derive(Drop)]
pub struct Metered<D: Medium + Drop, R> {
    medium: D,
    rt: R,
    meter: Arc<Meter>,
}

impl<D: Medium + Drop, R> Model for Metered<D, R> {
    ghost Value = { D };

    ghost view = { λ metered. metered.medium };
}

impl<D: Medium + Drop, R> Metered<D, R> {
    /// Returns a medium that does as `medium`, and counts by `meter`. It times syncs by `rt`. Does
    /// not allocate.
    pub fn new(rt: R, medium: D, meter: Arc<Meter>) -> Metered<D, R>
        ensures { result ≡ medium }
    {
        Metered { medium, rt, meter }
    }
}

impl<D: Medium + Drop, R: Clock> Medium for Metered<D, R> {
    ghost moment = { D.moment };

    /// Writes a batch as the other medium does, and counts its bytes if they were written.
    fn append(&mut self, batch: &Batch) -> Result<(), Fault> {
        let done = self.medium.append(batch);
        if done.is_ok() {
            self.meter.add(batch.len());
        }
        done
    }

    /// Syncs as the other medium does, and counts a sync that succeeded with the time that it took.
    fn sync(&mut self) -> Result<(), Fault> {
        let began = Instant::now(&self.rt);
        let done = self.medium.sync();
        if done.is_ok() {
            self.meter.count_sync(since(&self.rt, began.ok()));
        }
        done
    }

    /// Replaces the text as the other medium does, and takes the length of the new text if this
    /// succeeded.
    fn replace(&mut self, text: &Batch) -> Result<(), Fault> {
        let done = self.medium.replace(text);
        if done.is_ok() {
            self.meter.set(text.len());
        }
        done
    }
}

// Returns the time since a moment, or `None` if the clock does not say it.
fn since<R: Clock>(rt: &R, began: Option<Instant>) -> Option<Duration> {
    began?.elapsed(rt).ok()
}
