//! The place of a journal in etcd: taking it over, and reading it.
ghost use Rattle.std.specs.Prelude.{◌≡◌, [], length, IfOk, IfSome, None, string_bytes};
ghost use Rattle.ring_etcd.specs.Readings.{IsTaken, IsTakenBy};
ghost use Rattle.ring_etcd.specs.Bases.{base_text};

use crate::base::Base;
use crate::engine::EngineFault;
use crate::etcd::Etcd;
use crate::medium::{EtcdMedium, Standing};
use crate::replies::{Revision, There};
use crate::store::{AskFault, Store};
use ring_journal::{Batch, LONGEST_BATCH};
use std::alloc::{AllocError, Global};
use std::marker::Model;
use std::net::{Net, TcpStream};
use std::sync::Arc;
use std::time::Clock;

/// How often a journal is read again at most, because another process changed it meanwhile.
pub(crate) const READINGS: u32 = 64;

/// Why a journal in etcd cannot be used.
#[derive(Clone, Copy, Debug, PartialEq, Eq)]
pub enum EtcdFault {
    /// No member of etcd gives an answer.
    NoAnswer,
    /// Another process has taken over, or goes on to.
    TakenOver,
    /// What is there is no journal of this version, or not whole.
    Damaged,
    /// An allocation failed.
    NoMemory,
}

impl From<AllocError> for EtcdFault {
    ghost use Rattle.std.specs.Prelude.{◌≡◌};
    ghost use Rattle.ring_etcd.specs.declared.place.EtcdFault.TheVariants.{NoMemory};

    ghost from_gives = { λ _ fault. fault ≡ NoMemory };

    fn from(_error: AllocError) -> EtcdFault {
        EtcdFault::NoMemory
    }
}

impl From<AskFault> for EtcdFault {
    ghost use Rattle.std.specs.Prelude.{◌≡◌};
    ghost use Rattle.ring_etcd.specs.Faults.{fault_of_ask};

    ghost from_gives = { λ asked fault. fault ≡ fault_of_ask asked };

    fn from(fault: AskFault) -> EtcdFault {
        match fault {
            AskFault::NoMemory => EtcdFault::NoMemory,
            AskFault::NoAnswer => EtcdFault::NoAnswer,
        }
    }
}

impl From<EngineFault> for EtcdFault {
    ghost use Rattle.std.specs.Prelude.{◌≡◌};
    ghost use Rattle.ring_etcd.specs.Faults.{fault_of_engine};

    ghost from_gives = { λ engine fault. fault ≡ fault_of_engine engine };

    fn from(fault: EngineFault) -> EtcdFault {
        match fault {
            EngineFault::NoMemory => EtcdFault::NoMemory,
            EngineFault::NoAnswer => EtcdFault::NoAnswer,
            EngineFault::TakenOver => EtcdFault::TakenOver,
        }
    }
}

/// The place of a journal in etcd, which this process has taken over. Another process may take it
/// over from then on, and then `begin` says so.
///
/// Contracts see what was read, and where.
#[derive(Drop)]
pub struct EtcdPlace<R> {
    store: Store<R>,
    // the base of the text that counts, and the number of the next entry after it
    base: Base,
    next: u64,
    // the identity of this process, and of the text that it begins
    identity: u64,
    // the bytes of the journal
    found: Vec<u8>,
}

impl<R> Model for EtcdPlace<R> {
    ghost use Rattle.std.specs.Prelude.{string_bytes};
    ghost use Rattle.ring_etcd.specs.Readings.{Place};

    ghost Value = { Place };

    ghost view = { λ a. record {
      name = string_bytes a.store.keys.name;
      text = a.base.text;
      pieces = a.base.pieces;
      identity = a.identity;
      next = a.next;
      bytes = a.found.items;
    } };
}

impl<R: Net<Stream = TcpStream> + Clock + AllocGlobal + Copy + Drop> EtcdPlace<R> {
    /// Takes over the journal of this name from whichever process has it, and reads it. The members
    /// of etcd are HOST:PORT,HOST:PORT and so on.
    ///
    /// Puts an entry under the next number. From then on no other process puts one there, so the
    /// process that had the journal is told so at its next put.
    pub fn take(rt: &R, members: &str, name: &str) -> Result<EtcdPlace<R>, EtcdFault>
        ensures { IfOk result (IsTaken name.now) }
    {
        let mut store = Store::new(*rt, members, name)?;
        let Revision(identity) = store.identity()?;
        let mut found = Vec::new(rt.alloc());
        let (base, next) = taken_over(&mut store, identity, &mut found)?;
        Ok(EtcdPlace {
            store,
            base,
            next,
            identity,
            found,
        })
    }

    /// Returns the bytes of the journal, of which there are none from then on.
    pub fn read(&mut self) -> Vec<u8>
        ensures bytes { result.items ≡ self.old.bytes }
        ensures rest { self.new ≡ record self.old { bytes = [] } }
    {
        let alloc = self.store.alloc();
        std::mem::replace(&mut self.found, Vec::new(alloc))
    }

    /// Makes `text` count in the place of what was read, and returns the medium of it. It has room
    /// for the longest batch, so that no allocation fails while a batch is gathered.
    pub fn begin(
        self,
        text: &Batch,
        standing: Arc<Standing>,
    ) -> Result<EtcdMedium<Etcd<R>>, EtcdFault>
        ensures { IfOk result (λ medium. medium
            ≡ record { text = text.now.bytes; kept = length text.now.bytes; other = None }) }
    {
        let EtcdPlace {
            store,
            base,
            next,
            identity,
            found,
        } = self;
        drop(found);
        let pending = Vec::with_capacity(store.alloc(), LONGEST_BATCH)?;
        let etcd = Etcd::begin_at(store, base, next, identity, text)?;
        Ok(EtcdMedium::new(etcd, pending, standing))
    }
}

// Reads the journal and puts an entry that takes over after it, until that is done while one text
// counts. Returns the base of that text, and the number after that entry.
fn taken_over<R>(
    store: &mut Store<R>,
    identity: u64,
    found: &mut Vec<u8>,
) -> Result<(Base, u64), EtcdFault>
where
    R: Net<Stream = TcpStream> + Clock + AllocGlobal + Drop,
    ensures keys { store.new.keys ≡ store.old.keys }
    ensures taken { IfOk result (λ taken.
        IsTakenBy (string_bytes store.old.keys.name) taken.0.text taken.0.pieces identity taken.1
        [] found.new.items) }
{
    for _ in 0..READINGS {
        let base = current(store)?;
        found.clear();
        if let Some(next) = taken(store, base, identity, found)? {
            return Ok((base, next));
        }
    }
    Err(EtcdFault::TakenOver)
}

// Returns the base that counts. If the journal was never begun, it is begun by an empty text. No
// process has the identity 0, so this is no process's text.
//
// Returns `Damaged` if there is no base but a piece or an entry, as is tested: the base was lost.
fn current<R>(store: &mut Store<R>) -> Result<Base, EtcdFault>
where
    R: Net<Stream = TcpStream> + Clock + AllocGlobal + Drop,
    ensures { store.new.keys ≡ store.old.keys }
{
    if let Some(base) = found_base(store)? {
        return Ok(base);
    }
    store.put_base(Base { text: 0, pieces: 0 })?;
    match found_base(store)? {
        Some(base) => Ok(base),
        None => Err(EtcdFault::Damaged),
    }
}

/// Returns the base that counts, or `None` if there is none.
pub(crate) fn found_base<R>(store: &mut Store<R>) -> Result<Option<Base>, EtcdFault>
where
    R: Net<Stream = TcpStream> + Clock + AllocGlobal + Drop,
    ensures { store.new.keys ≡ store.old.keys }
{
    match store.base()? {
        There(Some(value)) => Ok(Some(base_of(store.alloc(), &value)?)),
        There(None) => Ok(None),
    }
}

// The base with this value.
fn base_of(alloc: Global, value: &[u8]) -> Result<Base, EtcdFault>
    ensures { IfOk result (λ base. value.now ≡ base_text base.text base.pieces) }
{
    match Base::of(alloc, value)? {
        Some(base) => Ok(base),
        None => Err(EtcdFault::Damaged),
    }
}

// Reads the text of a base and the entries after it, and puts an entry that takes over after them.
// Returns the number after that entry, or `None` if the base doesn't count any more.
fn taken<R>(
    store: &mut Store<R>,
    base: Base,
    identity: u64,
    found: &mut Vec<u8>,
) -> Result<Option<u64>, EtcdFault>
where
    R: Net<Stream = TcpStream> + Clock + AllocGlobal + Drop,
    ensures keys { store.new.keys ≡ store.old.keys }
    ensures taken { IfOk result (λ put. IfSome put (λ after.
        IsTakenBy (string_bytes store.old.keys.name) base.text base.pieces identity after
        found.old.items found.new.items)) }
{
    let mark = format!(in store.alloc(); "t{identity}")?;
    match store.read(base, found) {
        Ok(next) => store.take_over(base, next, mark.as_str().as_bytes(), found),
        Err(EtcdFault::Damaged) if current(store)? != base => Ok(None),
        Err(fault) => Err(fault),
    }
}
