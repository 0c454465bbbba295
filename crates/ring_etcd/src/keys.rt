//! The keys of a journal in etcd, each in base 64 as the gateway takes it.
//!
//! ```text
//! ring/NAME/ids            each put of it has a revision of its own, which becomes an identity
//! ring/NAME/lease          each put of it shows that the active process runs
//! ring/NAME/base           the text that counts, and how many pieces it has
//! ring/NAME/t/TEXT/p/K     piece K of a text, counted from 0
//! ring/NAME/t/TEXT/e/N     entry N after a text, counted from 1
//! ```
//!
//! TEXT, K and N have 20 digits, so that the order of the keys is that of the numbers.
ghost use Rattle.std.specs.Prelude.{◌≡◌, IfOk, string_bytes};
ghost use Rattle.base64.specs.Engines.{standard};
ghost use Rattle.base64.specs.GeneralPurpose.{encode_of};
ghost use Rattle.ring_etcd.specs.private.Keys.{after_parts_key, before_text_key, journal_key, part_key};

use base64::engine::general_purpose::STANDARD;
use std::alloc::{AllocError, Global};

/// What the keys that a journal has once have after its name.
pub(crate) const IDS: &str = "ids";

pub(crate) const LEASE: &str = "lease";

pub(crate) const BASE: &str = "base";

/// What is before the keys of all texts, and after them.
pub(crate) const BEFORE_TEXTS: &str = "t/";

pub(crate) const AFTER_TEXTS: &str = "t0";

/// The parts of a text that have numbers, as the keys name them.
pub(crate) const PIECES: &str = "p";

pub(crate) const ENTRIES: &str = "e";

/// Bytes in base 64, as the gateway takes a key or a value.
pub(crate) fn encoded(alloc: Global, bytes: &[u8]) -> Result<String, AllocError>
    ensures { IfOk result (λ text. string_bytes text ≡ encode_of standard bytes.now) }
{
    STANDARD.encode(alloc, bytes)
}

/// The keys of one journal. They begin with its name, which has no slash.
#[derive(Drop)]
pub(crate) struct Keys {
    alloc: Global,
    name: String,
}

#[tactic(auto, using(crate::proofs::Digits::padded_is))]
impl Keys {
    /// Returns the keys of the journal with this name.
    pub(crate) fn new(alloc: Global, name: &str) -> Result<Keys, AllocError>
        ensures { IfOk result (λ keys. string_bytes keys.name ≡ name.now) }
    {
        let name = String::from_str(alloc, name)?;
        Ok(Keys { alloc, name })
    }

    /// Returns the allocator.
    pub(crate) fn alloc(&self) -> Global {
        self.alloc
    }

    /// Returns the key of the journal that has this after its name.
    pub(crate) fn key(&self, rest: &str) -> Result<String, AllocError>
        ensures { IfOk result (λ key. string_bytes key
            ≡ encode_of standard (journal_key (string_bytes self.now.name) rest.now)) }
    {
        let name = self.name.as_str();
        let key = format!(in self.alloc; "ring/{name}/{rest}")?;
        encoded(self.alloc, key.as_bytes())
    }

    /// Returns the key of a piece of a text, or of an entry after it.
    pub(crate) fn part(&self, part: &str, text: u64, number: u64) -> Result<String, AllocError>
        ensures { IfOk result (λ key. string_bytes key
            ≡ encode_of standard (part_key part.now (string_bytes self.now.name) text number)) }
    {
        let name = self.name.as_str();
        let key = format!(in self.alloc; "ring/{name}/t/{text:020}/{part}/{number:020}")?;
        encoded(self.alloc, key.as_bytes())
    }

    /// Returns a key that is after those of all pieces of a text, or of all entries after it.
    pub(crate) fn after_parts(&self, part: &str, text: u64) -> Result<String, AllocError>
        ensures { IfOk result (λ key. string_bytes key
            ≡ encode_of standard (after_parts_key part.now (string_bytes self.now.name) text)) }
    {
        let name = self.name.as_str();
        let key = format!(in self.alloc; "ring/{name}/t/{text:020}/{part}0")?;
        encoded(self.alloc, key.as_bytes())
    }

    /// Returns a key that is before those of this text, and after those of all earlier ones.
    pub(crate) fn before_text(&self, text: u64) -> Result<String, AllocError>
        ensures { IfOk result (λ key. string_bytes key
            ≡ encode_of standard (before_text_key (string_bytes self.now.name) text)) }
    {
        let name = self.name.as_str();
        let key = format!(in self.alloc; "ring/{name}/t/{text:020}/")?;
        encoded(self.alloc, key.as_bytes())
    }
}
