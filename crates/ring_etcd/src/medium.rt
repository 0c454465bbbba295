//! The medium on an engine.
ghost use Rattle.std.specs.Prelude.{◌≡◌, None};
ghost use Rattle.ring_etcd.specs.Holding.{moment_of};

use crate::engine::{Engine, EngineFault};
use ring_journal::{Batch, Fault, Medium};
use std::marker::Model;
use std::snapshot::Snapshot;
use std::sync::Arc;
use std::sync::atomic::{AtomicBool, Ordering};

/// Whether another process has taken a journal over, for the thread that says so.
#[derive(Drop)]
pub struct Standing {
    is_taken_over: AtomicBool,
}

impl Standing {
    /// Returns that none has. Does not allocate.
    pub fn new() -> Standing {
        Standing {
            is_taken_over: AtomicBool::new(false),
        }
    }

    /// Returns whether it was noted that another process has taken over.
    pub fn is_taken_over(&self) -> bool {
        self.is_taken_over.load(Ordering::SeqCst)
    }

    /// Notes that another process has taken over, as far as the caller knows.
    pub fn note_taken_over(&self) {
        self.is_taken_over.store(true, Ordering::SeqCst);
    }

    // Notes why the engine did not do what it was asked.
    fn note(&self, fault: EngineFault) {
        if fault == EngineFault::TakenOver {
            self.note_taken_over();
        }
    }
}

/// The text of a journal on an engine: what the engine holds, and bytes that `append` gathered and
/// `sync` puts as one entry.
///
/// After a put without an answer nothing is asked of the engine any more.
///
/// Contracts see the moment: the text is what the engine holds and then the bytes that were
/// gathered, of which those that the engine holds are kept.
#[derive(Drop)]
pub struct EtcdMedium<E: Engine + Drop> {
    engine: E,
    // the bytes that were appended and not synced
    pending: Vec<u8>,
    // the text that may have taken the place of these, when the engine failed
    other: Option<Snapshot<Batch>>,
    // whether the engine failed
    is_broken: bool,
    standing: Arc<Standing>,
}

impl<E: Engine + Drop> Model for EtcdMedium<E> {
    ghost use Rattle.ring_journal.specs.Moments.{Moment};
    ghost use Rattle.ring_etcd.specs.Holding.{moment_of, text_in};

    ghost Value = { Moment };

    ghost view = { λ a. moment_of (E.held a.engine) a.pending.items
        (text_in (λ text. text.value.bytes) a.other) };
}

impl<E: Engine + Drop> EtcdMedium<E> {
    /// Returns the medium of what an engine holds, and of the bytes in `pending`. Does not allocate.
    /// As long as the bytes of `append` fit into the room of `pending`, it does not allocate either.
    pub fn new(engine: E, pending: Vec<u8>, standing: Arc<Standing>) -> EtcdMedium<E>
        ensures { result ≡ moment_of (E.held engine) pending.items None }
    {
        EtcdMedium {
            engine,
            pending,
            other: None,
            is_broken: false,
            standing,
        }
    }
}

impl<E: Engine + Drop> Medium for EtcdMedium<E> {
    ghost moment = { λ a. a };

    /// Gathers the bytes of the batch, and asks nothing of the engine.
    fn append(&mut self, batch: &Batch) -> Result<(), Fault> {
        let Ok(()) = self.pending.extend_from_slice(batch.bytes()) else {
            return Err(Fault::NoMemory);
        };
        if self.is_broken {
            return Err(Fault::Failed);
        }
        Ok(())
    }

    /// Puts the bytes that were gathered as one entry. If there are none, nothing is asked.
    fn sync(&mut self) -> Result<(), Fault> {
        if self.is_broken {
            return Err(Fault::Failed);
        }
        if self.pending.is_empty() {
            return Ok(());
        }
        match self.engine.put(&self.pending) {
            Ok(()) => {
                self.pending.clear();
                Ok(())
            }
            Err(EngineFault::NoMemory) => Err(Fault::NoMemory),
            Err(fault) => {
                self.standing.note(fault);
                self.is_broken = true;
                Err(Fault::Failed)
            }
        }
    }

    /// Makes `text` count in the place of what the engine holds. Bytes that were gathered and not
    /// synced are dropped.
    fn replace(&mut self, text: &Batch) -> Result<(), Fault> {
        if self.is_broken {
            self.other = Some(Snapshot::of(text));
            return Err(Fault::Failed);
        }
        match self.engine.begin(text) {
            Ok(()) => {
                self.pending.clear();
                self.other = None;
                Ok(())
            }
            Err(EngineFault::NoMemory) => Err(Fault::NoMemory),
            Err(fault) => {
                self.standing.note(fault);
                self.is_broken = true;
                self.other = Some(Snapshot::of(text));
                Err(Fault::Failed)
            }
        }
    }
}
