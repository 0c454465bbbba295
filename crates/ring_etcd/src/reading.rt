//! Reads what a journal in etcd holds.
ghost use Rattle.std.specs.Prelude.{◌≡◌, ◌+◌, ◌++◌, IfOk, IfSome, IsSomeAnd, OnOk, length, string_bytes};
ghost use Rattle.ring_etcd.specs.Entries.{AreAdded, added};
ghost use Rattle.ring_etcd.specs.Holding.{joined};
ghost use Rattle.ring_etcd.specs.Keys.{codes_from, entry_code, piece_code};
ghost use Rattle.ring_etcd.specs.Readings.{AreEntries, ArePieces, IsRead};
ghost use Rattle.ring_etcd.specs.private.Paging.{keys_of, values_of};
ghost use Rattle.ring_etcd.specs.private.Taking.{IsPutBehind};

use crate::base::Base;
use crate::keys::{ENTRIES, PIECES};
use crate::place::EtcdFault;
use crate::replies::{Page, Pair};
use crate::requests::PAGE;
use crate::store::{Put, Store};
use std::net::{Net, TcpStream};
use std::time::Clock;

/// The first byte of an entry: of one that has bytes of the text, and of one by which a process
/// takes over.
pub(crate) const BATCH: u8 = b'b';

pub(crate) const TAKES: u8 = b't';

/// Adds the bytes of an entry to those that were found before it. An entry by which a process takes
/// over has none.
pub(crate) fn add_entry(entry: &[u8], found: &mut Vec<u8>) -> Result<(), EtcdFault>
    ensures { OnOk result (IsSomeAnd (added entry.now)
        (λ bytes. found.new.items ≡ found.old.items ++ bytes)) }
{
    match entry.split_first() {
        Some((&BATCH, bytes)) => {
            found.extend_from_slice(bytes)?;
            Ok(())
        }
        Some((&TAKES, _)) => Ok(()),
        _ => Err(EtcdFault::Damaged),
    }
}

// The number after this one.
fn after(number: u64) -> Result<u64, EtcdFault>
    ensures { IfOk result (λ next. next ≡ number + 1) }
{
    match number.checked_add(1) {
        Some(next) => Ok(next),
        None => Err(EtcdFault::Damaged),
    }
}

impl<R: Net<Stream = TcpStream> + Clock + AllocGlobal + Drop> Store<R> {
    /// Reads the text of a base and the entries after it. Returns the number of the next entry.
    pub(crate) fn read(&mut self, base: Base, found: &mut Vec<u8>) -> Result<u64, EtcdFault>
        ensures keys { self.new.keys ≡ self.old.keys }
        ensures read { IfOk result (λ next. IsRead (string_bytes self.old.keys.name)
            base.text base.pieces next found.old.items found.new.items) }
    {
        if self.read_pieces(base, found)? != base.pieces {
            return Err(EtcdFault::Damaged);
        }
        self.read_entries(base, 1, found)
    }

    // Reads the entries after the text of a base, from a number on. Returns the number of the next
    // one.
    fn read_entries(
        &mut self,
        base: Base,
        first: u64,
        found: &mut Vec<u8>,
    ) -> Result<u64, EtcdFault>
        ensures keys { self.new.keys ≡ self.old.keys }
        ensures read { IfOk result (λ next. AreEntries (string_bytes self.old.keys.name)
            base.text first next found.old.items found.new.items) }
    {
        let mut next = first;
        for _ in 0..u64::MAX {
            let Page { pairs: page } = self.page(ENTRIES, base.text, next)?;
            next = self.add_entries(base.text, next, &page, found)?;
            // A page with room for more is the last one. An empty page may never come while another
            // process puts entries.
            if page.len() < PAGE {
                return Ok(next);
            }
        }
        Err(EtcdFault::Damaged)
    }

    // Reads the pieces of the text of a base. Returns how many there are.
    fn read_pieces(&mut self, base: Base, found: &mut Vec<u8>) -> Result<u64, EtcdFault>
        ensures keys { self.new.keys ≡ self.old.keys }
        ensures read { IfOk result (λ number. ArePieces (string_bytes self.old.keys.name)
            base.text number found.old.items found.new.items) }
    {
        let mut next = 0;
        for _ in 0..u64::MAX {
            let Page { pairs: page } = self.page(PIECES, base.text, next)?;
            if page.is_empty() {
                return Ok(next);
            }
            next = self.add_pieces(base.text, next, &page, found)?;
        }
        Err(EtcdFault::Damaged)
    }

    // Adds the bytes of entries, which have the numbers from `next` on. Returns the number after
    // theirs.
    fn add_entries(
        &self,
        text: u64,
        mut next: u64,
        page: &[Pair],
        found: &mut Vec<u8>,
    ) -> Result<u64, EtcdFault>
        ensures number { IfOk result (λ after. after ≡ next + length page.now) }
        ensures keys { OnOk result (keys_of page.now
            ≡ codes_from (entry_code (string_bytes self.now.keys.name) text) next
            (values_of page.now)) }
        ensures bytes { OnOk result
            (AreAdded (values_of page.now) found.old.items found.new.items) }
    {
        for pair in page {
            if !self.is_part(pair, ENTRIES, text, next)? {
                return Err(EtcdFault::Damaged);
            }
            add_entry(&pair.value, found)?;
            next = after(next)?;
        }
        Ok(next)
    }

    // Adds pieces, which have the numbers from `next` on. Returns the number after theirs.
    fn add_pieces(
        &self,
        text: u64,
        mut next: u64,
        page: &[Pair],
        found: &mut Vec<u8>,
    ) -> Result<u64, EtcdFault>
        ensures number { IfOk result (λ after. after ≡ next + length page.now) }
        ensures keys { OnOk result (keys_of page.now
            ≡ codes_from (piece_code (string_bytes self.now.keys.name) text) next
            (values_of page.now)) }
        ensures bytes { OnOk result
            (found.new.items ≡ found.old.items ++ joined (values_of page.now)) }
    {
        for pair in page {
            if !self.is_part(pair, PIECES, text, next)? {
                return Err(EtcdFault::Damaged);
            }
            found.extend_from_slice(&pair.value)?;
            next = after(next)?;
        }
        Ok(next)
    }

    /// Puts an entry with the mark of this process under the first number that is free, from `next`
    /// on. Entries of other processes that came before it are added to what was found.
    ///
    /// Returns the number after that entry, or `None` if the base doesn't count any more.
    pub(crate) fn take_over(
        &mut self,
        base: Base,
        mut next: u64,
        mark: &[u8],
        found: &mut Vec<u8>,
    ) -> Result<Option<u64>, EtcdFault>
        ensures keys { self.new.keys ≡ self.old.keys }
        ensures put { IfOk result (λ put. IfSome put (λ after.
            IsPutBehind (string_bytes self.old.keys.name) base.text mark.now next after
            found.old.items found.new.items)) }
    {
        for _ in 0..u64::MAX {
            match self.put_entry(base, next, mark)? {
                Put::Ours => return Ok(Some(after(next)?)),
                // The process before may put entries as fast as this one asks. Pages catch up with
                // it, and one entry at a time does not.
                Put::Other(_) => next = self.read_entries(base, next, found)?,
                Put::Gone => return Ok(None),
            }
        }
        Ok(None)
    }
}
