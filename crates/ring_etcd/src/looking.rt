//! Looking at a journal in etcd, which another process may have.
ghost use Rattle.std.specs.Prelude.{◌≡◌, ℕ, IfOk, IsTrue, OnOk, string_bytes};
ghost use Rattle.ring_etcd.specs.Hearing.{Reads};
ghost use Rattle.ring_etcd.specs.Readings.{Counts, IsFound};

use crate::base::Base;
use crate::place::{EtcdFault, EtcdPlace, READINGS, found_base};
use crate::store::Store;
use std::net::{Net, TcpStream};
use std::time::Clock;

impl<R: Net<Stream = TcpStream> + Clock + AllocGlobal + Copy + Drop> EtcdPlace<R> {
    /// Returns the bytes of the journal of this name, and changes nothing. The members of etcd are
    /// HOST:PORT,HOST:PORT and so on. Another process may have the journal.
    ///
    /// A process that shortens the journal deletes the old text. So a reply says that the text still
    /// counts which was read. That it is asked for after the last page is tested. If another text
    /// counts, that one is read.
    ///
    /// Returns `Damaged` if there is no journal of this name. Returns `TakenOver` if another text
    /// counts after each of 64 readings.
    pub fn look(rt: &R, members: &str, name: &str) -> Result<Vec<u8>, EtcdFault>
        ensures { IfOk result (λ found. (text : ℕ) × (pieces : ℕ)
            × IsFound name.now text pieces found.items) }
    {
        let mut store = Store::new(*rt, members, name)?;
        let mut found = Vec::new(rt.alloc());
        find(&mut store, &mut found)?;
        Ok(found)
    }
}

// Finds the bytes of the text that counts and of the entries after it.
fn find<R>(store: &mut Store<R>, found: &mut Vec<u8>) -> Result<(), EtcdFault>
where
    R: Net<Stream = TcpStream> + Clock + AllocGlobal + Drop,
    ensures { OnOk result ((text : ℕ) × (pieces : ℕ)
        × IsFound (string_bytes store.old.keys.name) text pieces found.new.items) }
{
    for _ in 0..READINGS {
        let Some(base) = found_base(store)? else {
            return Err(EtcdFault::Damaged);
        };
        if find_at(store, base, found)? {
            return Ok(());
        }
    }
    Err(EtcdFault::TakenOver)
}

// Finds the bytes of the text of a base and of the entries after it. Returns whether the base still
// counts. If it does, the last reply that was heard says so.
fn find_at<R>(store: &mut Store<R>, base: Base, found: &mut Vec<u8>) -> Result<bool, EtcdFault>
where
    R: Net<Stream = TcpStream> + Clock + AllocGlobal + Drop,
    ensures keys { store.new.keys ≡ store.old.keys }
    ensures found { IfOk result (λ counts. IsTrue counts
        → IsFound (string_bytes store.old.keys.name) base.text base.pieces found.new.items) }
    ensures last { IfOk result (λ counts. IsTrue counts
        → Reads (λ json. Counts base.text base.pieces json) store.new.cluster.last.items) }
{
    found.clear();
    match store.read(base, found) {
        // Entries that were deleted before they were read are not in a page, and nothing else says so.
        Ok(_next) => Ok(store.counts(base)?),
        Err(EtcdFault::Damaged) if !store.counts(base)? => Ok(false),
        Err(fault) => Err(fault),
    }
}
