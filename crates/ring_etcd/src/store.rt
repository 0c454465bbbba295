//! What is asked of etcd, and what it said.
ghost use Rattle.std.specs.Prelude.{◌≡◌, ◌↔◌, Some, IfOk, IsTrue, OnErr, option_map, string_bytes};
ghost use Rattle.base64.specs.Engines.{standard};
ghost use Rattle.base64.specs.GeneralPurpose.{encode_of};
ghost use Rattle.ring_etcd.specs.Done.{IsDone};
ghost use Rattle.ring_etcd.specs.Found.{pairs_in};
ghost use Rattle.ring_etcd.specs.Hearing.{Hears};
ghost use Rattle.ring_etcd.specs.Readings.{Counts};
ghost use Rattle.ring_etcd.specs.Bases.{base_text};
ghost use Rattle.ring_etcd.specs.private.Keys.{part_key};
ghost use Rattle.ring_etcd.specs.private.Paging.{ArePairs};
ghost use Rattle.ring_etcd.specs.private.Putting.{IsPut, IsPutOver, IsSwitched};
ghost use Rattle.ring_etcd.specs.private.Replies.{IsRevision, IsSeen, IsValue};
ghost use Rattle.ring_etcd.specs.private.Told.{IsToldPut, IsToldSwitched};

use crate::base::Base;
use crate::cluster::{Cluster, NoAnswer};
use crate::keys::Keys;
use crate::replies::{Answer, Claimed, Page, Pair, Revision, Said, Seen, There};
use crate::requests::{PUT, RANGE, TXN};
use std::alloc::{AllocError, Global};
use std::net::{Net, TcpStream};
use std::time::Clock;

/// Why a question has no answer.
#[derive(Clone, Copy)]
pub(crate) enum AskFault {
    /// An allocation failed, and nothing was asked.
    NoMemory,
    /// No answer came. The request may be carried out or not.
    NoAnswer,
}

impl From<AllocError> for AskFault {
    ghost use Rattle.std.specs.Prelude.{◌≡◌};
    ghost use Rattle.ring_etcd.specs.declared.store.AskFault.TheVariants.{NoMemory};

    ghost from_gives = { λ _ fault. fault ≡ NoMemory };

    fn from(_error: AllocError) -> AskFault {
        AskFault::NoMemory
    }
}

/// What became of an entry that was to be put.
#[derive(Drop)]
pub(crate) enum Put {
    /// This process put it.
    Ours,
    /// Another entry is at its number.
    Other(Vec<u8>),
    /// Another text counts.
    Gone,
}

/// A journal in etcd.
#[derive(Drop)]
pub(crate) struct Store<R> {
    cluster: Cluster<R>,
    keys: Keys,
}

impl<R: Net<Stream = TcpStream> + Clock + AllocGlobal + Drop> Store<R> {
    /// Returns the journal of this name. The members of etcd are HOST:PORT,HOST:PORT and so on.
    /// Nothing is asked yet.
    pub(crate) fn new(rt: R, members: &str, name: &str) -> Result<Store<R>, AllocError>
        ensures { IfOk result (λ store. string_bytes store.keys.name ≡ name.now) }
    {
        let keys = Keys::new(rt.alloc(), name)?;
        let cluster = Cluster::new(rt, members)?;
        Ok(Store { cluster, keys })
    }

    /// Returns the allocator.
    pub(crate) fn alloc(&self) -> Global {
        self.cluster.alloc()
    }

    /// Sleeps for so many milliseconds.
    pub(crate) fn pause(&self, millis: u64) {
        self.cluster.pause(millis);
    }

    /// Sends a request, and returns what the reply says that was heard.
    pub(crate) fn ask<T: Answer + Drop>(&mut self, path: &str, body: &str) -> Result<T, AskFault>
        ensures keys { self.new.keys ≡ self.old.keys }
        ensures ok { IfOk result (λ answer.
            Hears (λ json. T.says json answer)
            self.old.cluster.heard self.new.cluster.heard
            self.new.cluster.last.items) }
        ensures err { OnErr result (self.new.cluster.heard ≡ self.old.cluster.heard) }
    {
        match self.cluster.ask(path, body) {
            Ok(answer) => Ok(answer),
            Err(NoAnswer) => Err(AskFault::NoAnswer),
        }
    }

    /// Returns a number that no process was given before: the revision of a put.
    pub(crate) fn identity(&mut self) -> Result<Revision, AskFault>
        ensures keys { self.new.keys ≡ self.old.keys }
        ensures told { IfOk result (λ identity.
            Hears (λ json. IsRevision json identity.0)
            self.old.cluster.heard self.new.cluster.heard
            self.new.cluster.last.items) }
    {
        let body = self.keys.identity_request()?;
        self.ask(PUT, body.as_str())
    }

    /// Returns the value of the base, or `None` if there is none, as the reply says that was heard.
    pub(crate) fn base(&mut self) -> Result<There, AskFault>
        ensures keys { self.new.keys ≡ self.old.keys }
        ensures told { IfOk result (λ base.
            Hears (λ json. IsValue json (option_map (λ bytes. bytes.items) base.0))
            self.old.cluster.heard self.new.cluster.heard
            self.new.cluster.last.items) }
    {
        let body = self.keys.base_request()?;
        self.ask(RANGE, body.as_str())
    }

    /// Returns whether this base counts, as the reply says that was heard.
    pub(crate) fn counts(&mut self, base: Base) -> Result<bool, AskFault>
        ensures keys { self.new.keys ≡ self.old.keys }
        ensures told { IfOk result (λ counts.
            Hears (λ json. IsTrue counts → Counts base.text base.pieces json)
            self.old.cluster.heard self.new.cluster.heard
            self.new.cluster.last.items) }
    {
        let value = base.value(self.alloc())?;
        let There(there) = self.base()?;
        Ok(is_bytes(&there, value.as_str().as_bytes()))
    }

    /// Begins the journal by a base, unless a base or a key of a text is there.
    pub(crate) fn put_base(&mut self, base: Base) -> Result<(), AskFault>
        ensures { self.new.keys ≡ self.old.keys }
    {
        let body = self.keys.first_base_request(base)?;
        let _said: Said = self.ask(TXN, body.as_str())?;
        Ok(())
    }

    /// Puts a piece of a text. It is read only once a base names that text.
    pub(crate) fn put_piece(
        &mut self,
        text: u64,
        number: u64,
        piece: &[u8],
    ) -> Result<Revision, AskFault> {
        let body = self.keys.piece_request(text, number, piece)?;
        self.ask(PUT, body.as_str())
    }

    /// Puts an entry after the text of a base, if nothing is at its number and the base counts.
    ///
    /// A reply says what became of it.
    pub(crate) fn put_entry(
        &mut self,
        base: Base,
        number: u64,
        entry: &[u8],
    ) -> Result<Put, AskFault>
        ensures keys { self.new.keys ≡ self.old.keys }
        ensures told { IfOk result (λ put.
            Hears (λ json. IsToldPut json entry.now
            (base_text base.text base.pieces) put)
            self.old.cluster.heard self.new.cluster.heard
            self.new.cluster.last.items) }
    {
        let counts = base.value(self.alloc())?;
        let body = self.keys.entry_request(base, number, entry)?;
        let said = self.ask(TXN, body.as_str())?;
        Ok(put_of(said, entry, counts.as_str().as_bytes()))
    }

    /// Makes another base count, if the old one does and nothing is at this number after its text.
    /// The texts before the new one are deleted at the same instant.
    ///
    /// Returns whether this process did that, as a reply says.
    pub(crate) fn switch(&mut self, old: Base, number: u64, new: Base) -> Result<bool, AskFault>
        ensures { IfOk result (λ is_done.
            Hears (λ json. IsTrue is_done
            → IsToldSwitched json (base_text new.text new.pieces))
            self.old.cluster.heard self.new.cluster.heard
            self.new.cluster.last.items) }
    {
        let value = new.value(self.alloc())?;
        let body = self.keys.switch_request(old, number, new)?;
        let said = self.ask(TXN, body.as_str())?;
        Ok(is_base(said, value.as_str().as_bytes()))
    }

    /// Returns the first pieces of a text, or entries after it, from a number on.
    pub(crate) fn page(&mut self, part: &str, text: u64, number: u64) -> Result<Page, AskFault>
        ensures keys { self.new.keys ≡ self.old.keys }
        ensures pairs { IfOk result (λ page.
            Hears (λ json. ArePairs (pairs_in json) page.pairs.items)
            self.old.cluster.heard self.new.cluster.heard
            self.new.cluster.last.items) }
    {
        let body = self.keys.page_request(part, text, number)?;
        self.ask(RANGE, body.as_str())
    }

    /// Returns whether a pair is the piece with this number of a text, or the entry after it.
    pub(crate) fn is_part(
        &self,
        pair: &Pair,
        part: &str,
        text: u64,
        number: u64,
    ) -> Result<bool, AllocError>
        ensures { IfOk result (λ is_part. IsTrue is_part ↔ (string_bytes pair.now.key
            ≡ encode_of standard (part_key part.now (string_bytes self.now.keys.name) text number))) }
    {
        let key = self.keys.part(part, text, number)?;
        Ok(pair.key.as_str() == key.as_str())
    }

    /// Puts the lease if it has the value of this process. Returns whether that was carried out, as
    /// the reply says that was heard.
    pub(crate) fn renew_lease(&mut self, process: u64) -> Result<Claimed, AskFault>
        ensures held { IfOk result (λ held.
            Hears (λ json. IsTrue held.0 ↔ IsDone json)
            self.old.cluster.heard self.new.cluster.heard
            self.new.cluster.last.items) }
        ensures err { OnErr result (self.new.cluster.heard ≡ self.old.cluster.heard) }
    {
        let body = self.keys.renewal_request(process)?;
        self.ask(TXN, body.as_str())
    }

    /// Looks at the lease. Returns the revision of its last put, or 0 if nothing is there, as the
    /// reply says that was heard.
    pub(crate) fn look_at_lease(&mut self) -> Result<Seen, AskFault>
        ensures looked { IfOk result (λ seen.
            Hears (λ json. IsSeen json seen.0)
            self.old.cluster.heard self.new.cluster.heard
            self.new.cluster.last.items) }
        ensures err { OnErr result (self.new.cluster.heard ≡ self.old.cluster.heard) }
    {
        let body = self.keys.look_request()?;
        self.ask(RANGE, body.as_str())
    }

    /// Puts the lease if its last put still has this revision. Returns whether that was carried out,
    /// as the reply says that was heard.
    pub(crate) fn claim_lease(&mut self, revision: u64, process: u64) -> Result<Claimed, AskFault>
        ensures claimed { IfOk result (λ claimed.
            Hears (λ json. IsTrue claimed.0 ↔ IsDone json)
            self.old.cluster.heard self.new.cluster.heard
            self.new.cluster.last.items) }
        ensures err { OnErr result (self.new.cluster.heard ≡ self.old.cluster.heard) }
    {
        let body = self.keys.claim_request(revision, process)?;
        self.ask(TXN, body.as_str())
    }
}

// What became of an entry, by what etcd said.
fn put_of(said: Said, entry: &[u8], base: &[u8]) -> Put
    ensures { IsPut said entry.now base.now result }
{
    match said {
        Said::Done => Put::Ours,
        Said::Found {
            entry: there,
            base: counts,
        } => put_of_found(there, counts, entry, base),
    }
}

// What became of an entry in whose place these were found: an entry, and the base that counts.
fn put_of_found(there: Option<Vec<u8>>, counts: Option<Vec<u8>>, entry: &[u8], base: &[u8]) -> Put
    ensures { IsPutOver
        (option_map (λ bytes. bytes.items) there) (option_map (λ bytes. bytes.items) counts)
        entry.now base.now result }
{
    let is_ours = is_bytes(&there, entry);
    let counts_still = is_bytes(&counts, base);
    drop(counts);
    match there {
        Some(other) if counts_still && !is_ours => Put::Other(other),
        _ if is_ours => Put::Ours,
        _ => Put::Gone,
    }
}

// Whether the base that counts is this process's, by what etcd said.
fn is_base(said: Said, base: &[u8]) -> bool
    ensures { IsTrue result ↔ IsSwitched said base.now }
{
    match said {
        Said::Done => true,
        Said::Found { base: counts, .. } => is_bytes(&counts, base),
    }
}

// Whether these bytes are there.
fn is_bytes(found: &Option<Vec<u8>>, bytes: &[u8]) -> bool
    ensures { IsTrue result ↔ (option_map (λ found. found.items) found.now ≡ Some bytes.now) }
{
    match found {
        Some(found) => found.as_slice() == bytes,
        None => false,
    }
}
