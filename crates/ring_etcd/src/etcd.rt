//! The engine on etcd.
ghost use Rattle.std.specs.Prelude.{◌≡◌, ◌++◌, ◌∷◌, [], IfOk, OnErr, OnOk};

use crate::base::Base;
use crate::engine::{Engine, EngineFault};
use crate::reading::BATCH;
use crate::replies::Revision;
use crate::store::{AskFault, Put, Store};
use ring_journal::{Batch, LONGEST_BATCH};
use std::alloc::AllocError;
use std::marker::Model;
use std::net::{Net, TcpStream};
use std::snapshot::Snapshot;
use std::time::Clock;

impl From<AllocError> for EngineFault {
    ghost use Rattle.std.specs.Prelude.{◌≡◌};
    ghost use Rattle.ring_etcd.specs.declared.engine.EngineFault.TheVariants.{NoMemory};

    ghost from_gives = { λ _ fault. fault ≡ NoMemory };

    fn from(_error: AllocError) -> EngineFault {
        EngineFault::NoMemory
    }
}

impl From<AskFault> for EngineFault {
    ghost use Rattle.std.specs.Prelude.{◌≡◌};
    ghost use Rattle.ring_etcd.specs.Faults.{engine_fault_of};

    ghost from_gives = { λ asked fault. fault ≡ engine_fault_of asked };

    fn from(fault: AskFault) -> EngineFault {
        match fault {
            AskFault::NoMemory => EngineFault::NoMemory,
            AskFault::NoAnswer => EngineFault::NoAnswer,
        }
    }
}

/// How often an entry is tried at most while allocations fail.
const TRIES: u32 = 64;

/// How many milliseconds pass between two of these attempts.
const PAUSE_MILLIS: u64 = 200;

/// A text in etcd that this process put, and the entries that it put after it.
///
/// Contracts see these, in their order.
#[derive(Drop)]
pub struct Etcd<R> {
    store: Store<R>,
    base: Base,
    // the text and each entry, which have no bytes in memory
    first: Snapshot<Batch>,
    more: Vec<Snapshot<Vec<u8>>>,
}

impl<R> Model for Etcd<R> {
    ghost use Rattle.std.specs.Prelude.{List, ℕ, map, ◌∷◌};

    ghost Value = { List (List ℕ) };

    ghost view = { λ a. a.first.value.bytes ∷ map (λ entry. entry.value.items) a.more.items };
}

impl<R: Net<Stream = TcpStream> + Clock + AllocGlobal + Drop> Store<R> {
    /// Puts a text by pieces and makes it count, if nothing is at the number `next` after the text
    /// of `old`, and `old` counts. Returns the base of the new text.
    pub(crate) fn put_text(
        &mut self,
        old: Base,
        next: u64,
        text: u64,
        bytes: &[u8],
    ) -> Result<Base, EngineFault> {
        let mut pieces = 0;
        for piece in bytes.chunks(LONGEST_BATCH) {
            self.put_piece(text, pieces, piece)?;
            pieces = pieces.saturating_add(1);
        }
        let new = Base { text, pieces };
        if self.switch(old, next, new)? {
            Ok(new)
        } else {
            Err(EngineFault::TakenOver)
        }
    }
}

impl<R: Net<Stream = TcpStream> + Clock + AllocGlobal + Drop> Etcd<R> {
    /// Puts a text in the place of the one that counts, and returns the handle of it.
    pub(crate) fn begin_at(
        mut store: Store<R>,
        old: Base,
        next: u64,
        identity: u64,
        text: &Batch,
    ) -> Result<Etcd<R>, EngineFault>
        ensures { IfOk result (λ etcd. etcd ≡ text.now.bytes ∷ []) }
    {
        let base = store.put_text(old, next, identity, text.bytes())?;
        let more = Vec::new(store.alloc());
        Ok(Etcd {
            store,
            base,
            first: Snapshot::of(text),
            more,
        })
    }

    // The number of the next entry.
    fn next(&self) -> u64 {
        (self.more.len() as u64).saturating_add(1)
    }

    // An entry with these bytes.
    fn entry_of(&self, bytes: &[u8]) -> Result<Vec<u8>, AllocError>
        ensures { IfOk result (λ entry. entry.items ≡ 98 ∷ bytes.now) }
    {
        let mut entry = Vec::new(self.store.alloc());
        entry.push(BATCH)?;
        entry.extend_from_slice(bytes)?;
        Ok(entry)
    }

    // Puts an entry under the next number, if no allocation fails.
    #[tactic(auto, using(crate::proofs::Held::map_push))]
    fn put_once(&mut self, entry: &Vec<u8>) -> Result<(), EngineFault>
        ensures ok { OnOk result (self.new ≡ self.old ++ entry.now.items ∷ []) }
        ensures err { OnErr result (self.new ≡ self.old) }
    {
        let number = self.next();
        self.more.reserve(1)?;
        let value = self.entry_of(entry)?;
        match self.store.put_entry(self.base, number, &value)? {
            Put::Ours => {
                self.more.push_reserved(Snapshot::of(entry));
                Ok(())
            }
            Put::Other(_) | Put::Gone => Err(EngineFault::TakenOver),
        }
    }
}

impl<R: Net<Stream = TcpStream> + Clock + AllocGlobal + Drop> Engine for Etcd<R> {
    ghost held = { λ a. a };

    /// If an allocation fails, it tries again, as it does if no member answers.
    fn put(&mut self, entry: &Vec<u8>) -> Result<(), EngineFault> {
        for _ in 1..TRIES {
            match self.put_once(entry) {
                Err(EngineFault::NoMemory) => self.store.pause(PAUSE_MILLIS),
                ended => return ended,
            }
        }
        self.put_once(entry)
    }

    fn begin(&mut self, text: &Batch) -> Result<(), EngineFault> {
        let number = self.next();
        let Revision(identity) = self.store.identity()?;
        let base = self.base;
        self.base = self.store.put_text(base, number, identity, text.bytes())?;
        self.first = Snapshot::of(text);
        self.more.clear();
        Ok(())
    }
}
