//! The body of each request about a journal, from what it is to say.
ghost use Rattle.std.specs.Prelude.{◌≡◌, [], IfOk, decimal, string_bytes};
ghost use Rattle.base64.specs.Engines.{standard};
ghost use Rattle.base64.specs.GeneralPurpose.{encode_of};
ghost use Rattle.ring_etcd.specs.Keys.{entry_key, piece_key};
ghost use Rattle.ring_etcd.specs.Bases.{base_text};
ghost use Rattle.ring_etcd.specs.private.Keys.{after_parts_key, after_texts_key, base_key, before_text_key, before_texts_key, ids_key, lease_key, part_key};
ghost use Rattle.ring_etcd.specs.private.Requests.{claim_text, entry_text, first_text, get_text, put_text, range_text, renew_text, switch_text};

use crate::base::Base;
use crate::keys::{AFTER_TEXTS, BASE, BEFORE_TEXTS, ENTRIES, IDS, Keys, LEASE, PIECES, encoded};
use crate::requests;
use crate::requests::Slot;
use std::alloc::{AllocError, Global};

// A base as a value of etcd, in base 64.
fn encoded_base(alloc: Global, base: Base) -> Result<String, AllocError>
    ensures { IfOk result (λ text.
        string_bytes text ≡ encode_of standard (base_text base.text base.pieces)) }
{
    let value = base.value(alloc)?;
    encoded(alloc, value.as_str().as_bytes())
}

// A number as a value of etcd, in base 64.
fn encoded_number(alloc: Global, number: u64) -> Result<String, AllocError>
    ensures { IfOk result (λ text. string_bytes text ≡ encode_of standard (decimal number)) }
{
    let value = format!(in alloc; "{number}")?;
    encoded(alloc, value.as_str().as_bytes())
}

/// The requests about the journal that has these keys.
impl Keys {
    /// Asks for a number: puts the key of the identities, whose value is empty.
    pub(crate) fn identity_request(&self) -> Result<String, AllocError>
        ensures { IfOk result (λ body. string_bytes body
            ≡ put_text (encode_of standard (ids_key (string_bytes self.now.name))) []) }
    {
        let key = self.key(IDS)?;
        requests::put(self.alloc(), key.as_str(), "")
    }

    /// Reads the base.
    pub(crate) fn base_request(&self) -> Result<String, AllocError>
        ensures { IfOk result (λ body. string_bytes body
            ≡ get_text (encode_of standard (base_key (string_bytes self.now.name)))) }
    {
        let key = self.key(BASE)?;
        requests::get(self.alloc(), key.as_str())
    }

    /// Puts a base, if none is there and no key of a text.
    pub(crate) fn first_base_request(&self, base: Base) -> Result<String, AllocError>
        ensures { IfOk result (λ body. string_bytes body
            ≡ first_text (encode_of standard (base_key (string_bytes self.now.name)))
            (encode_of standard (base_text base.text base.pieces))
            (encode_of standard (before_texts_key (string_bytes self.now.name)))
            (encode_of standard (after_texts_key (string_bytes self.now.name)))) }
    {
        let alloc = self.alloc();
        let key = self.key(BASE)?;
        let value = encoded_base(alloc, base)?;
        let from = self.key(BEFORE_TEXTS)?;
        let to = self.key(AFTER_TEXTS)?;
        requests::put_first(
            alloc,
            key.as_str(),
            value.as_str(),
            from.as_str(),
            to.as_str(),
        )
    }

    /// Puts a piece of a text.
    pub(crate) fn piece_request(
        &self,
        text: u64,
        number: u64,
        piece: &[u8],
    ) -> Result<String, AllocError>
        ensures { IfOk result (λ body. string_bytes body
            ≡ put_text (encode_of standard (piece_key (string_bytes self.now.name) text number))
            (encode_of standard piece.now)) }
    {
        let key = self.part(PIECES, text, number)?;
        let value = encoded(self.alloc(), piece)?;
        requests::put(self.alloc(), key.as_str(), value.as_str())
    }

    /// Puts an entry after the text of a base, if that base counts and nothing is at the number.
    pub(crate) fn entry_request(
        &self,
        base: Base,
        number: u64,
        entry: &[u8],
    ) -> Result<String, AllocError>
        ensures { IfOk result (λ body. string_bytes body
            ≡ entry_text (encode_of standard (base_key (string_bytes self.now.name)))
            (encode_of standard (base_text base.text base.pieces))
            (encode_of standard (entry_key (string_bytes self.now.name) base.text number))
            (encode_of standard entry.now)) }
    {
        let alloc = self.alloc();
        let base_key = self.key(BASE)?;
        let counts = encoded_base(alloc, base)?;
        let key = self.part(ENTRIES, base.text, number)?;
        let value = encoded(alloc, entry)?;
        let slot = Slot {
            base_key: base_key.as_str(),
            base: counts.as_str(),
            key: key.as_str(),
        };
        requests::put_entry(alloc, slot, value.as_str())
    }

    /// Makes another base count, if the old one does and nothing is at the number after its text.
    /// Deletes all texts before the new one.
    pub(crate) fn switch_request(
        &self,
        old: Base,
        number: u64,
        new: Base,
    ) -> Result<String, AllocError>
        ensures { IfOk result (λ body. string_bytes body
            ≡ switch_text (encode_of standard (base_key (string_bytes self.now.name)))
            (encode_of standard (base_text old.text old.pieces))
            (encode_of standard (entry_key (string_bytes self.now.name) old.text number))
            (encode_of standard (base_text new.text new.pieces))
            (encode_of standard (before_texts_key (string_bytes self.now.name)))
            (encode_of standard (before_text_key (string_bytes self.now.name) new.text))) }
    {
        let alloc = self.alloc();
        let base_key = self.key(BASE)?;
        let counts = encoded_base(alloc, old)?;
        let key = self.part(ENTRIES, old.text, number)?;
        let value = encoded_base(alloc, new)?;
        let from = self.key(BEFORE_TEXTS)?;
        let to = self.before_text(new.text)?;
        let slot = Slot {
            base_key: base_key.as_str(),
            base: counts.as_str(),
            key: key.as_str(),
        };
        requests::switch(alloc, slot, value.as_str(), from.as_str(), to.as_str())
    }

    /// Reads the pieces of a text, or the entries after it, from a number on.
    pub(crate) fn page_request(
        &self,
        part: &str,
        text: u64,
        number: u64,
    ) -> Result<String, AllocError>
        ensures { IfOk result (λ body. string_bytes body
            ≡ range_text
            (encode_of standard (part_key part.now (string_bytes self.now.name) text number))
            (encode_of standard (after_parts_key part.now (string_bytes self.now.name) text))) }
    {
        let from = self.part(part, text, number)?;
        let end = self.after_parts(part, text)?;
        requests::range(self.alloc(), from.as_str(), end.as_str())
    }

    /// Reads the lease.
    pub(crate) fn look_request(&self) -> Result<String, AllocError>
        ensures { IfOk result (λ body. string_bytes body
            ≡ get_text (encode_of standard (lease_key (string_bytes self.now.name)))) }
    {
        let key = self.key(LEASE)?;
        requests::get(self.alloc(), key.as_str())
    }

    /// Puts the number of a process at the lease, if it is there.
    pub(crate) fn renewal_request(&self, process: u64) -> Result<String, AllocError>
        ensures { IfOk result (λ body. string_bytes body
            ≡ renew_text (encode_of standard (lease_key (string_bytes self.now.name)))
            (encode_of standard (decimal process))) }
    {
        let key = self.key(LEASE)?;
        let value = encoded_number(self.alloc(), process)?;
        requests::renew(self.alloc(), key.as_str(), value.as_str())
    }

    /// Puts the number of a process at the lease, if its last put has this revision, or if nothing
    /// is there and it is 0.
    pub(crate) fn claim_request(&self, revision: u64, process: u64) -> Result<String, AllocError>
        ensures { IfOk result (λ body. string_bytes body
            ≡ claim_text (encode_of standard (lease_key (string_bytes self.now.name)))
            (decimal revision) (encode_of standard (decimal process))) }
    {
        let key = self.key(LEASE)?;
        let value = encoded_number(self.alloc(), process)?;
        requests::claim(self.alloc(), key.as_str(), revision, value.as_str())
    }
}
