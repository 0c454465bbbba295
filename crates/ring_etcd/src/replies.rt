//! What a reply of the gateway says.
ghost use Rattle.std.specs.Prelude.{◌≡◌, ◌↔◌, Some, IfOk, IfSome, IsTrue, codes, map, option_and_then, option_map};
ghost use Rattle.serde_json.specs.Find.{as_array, as_str, pointer};
ghost use Rattle.serde_json.specs.View.{items_view, view};
ghost use Rattle.ring_etcd.specs.Done.{IsDone};
ghost use Rattle.ring_etcd.specs.Found.{bytes_at, entry_in};
ghost use Rattle.ring_etcd.specs.private.Paging.{ArePairs, IsPair};
ghost use Rattle.ring_etcd.specs.private.Replies.{IsRevisionAt, base_in};
ghost use Rattle.ring_etcd.specs.private.Saying.{Says};

use crate::cluster::NoAnswer;
use base64::engine::general_purpose::STANDARD;
use serde_json::Value;
use std::alloc::Global;

/// Where a reply has what was read in place of the put.
const ENTRY: &str = "/responses/0/response_range/kvs/0/value";

const BASE: &str = "/responses/1/response_range/kvs/0/value";

/// What a reply can be read as.
pub(crate) trait Answer: Sized {
    ghost use Rattle.serde_json.specs.Data.{Data};

    ghost says: { Data → Self → Type 0 };

    /// Returns what a reply says, or `NoAnswer` if it says nothing of the kind.
    fn read(alloc: Global, reply: &Value) -> Result<Self, NoAnswer>
        ensures { IfOk result (λ answer. says (view reply.now) answer) };
}

/// What a reply says to a request with a condition.
#[derive(Drop)]
pub(crate) enum Said {
    /// The condition held, and the request was carried out.
    Done,
    /// It did not hold. These are the value at the key that was to be put, and that of the base.
    Found {
        entry: Option<Vec<u8>>,
        base: Option<Vec<u8>>,
    },
}

impl Answer for Said {
    ghost says = { Says };

    fn read(alloc: Global, reply: &Value) -> Result<Said, NoAnswer> {
        if is_done(reply) {
            return Ok(Said::Done);
        }
        if reply.pointer("/responses/1/response_range").is_none() {
            return Err(NoAnswer);
        }
        let entry = value_at(alloc, reply, ENTRY)?;
        match value_at(alloc, reply, BASE) {
            Ok(base) => Ok(Said::Found { entry, base }),
            Err(silence) => Err(silence),
        }
    }
}

// Whether a reply says that the condition held.
fn is_done(reply: &Value) -> bool
    ensures { IsTrue result ↔ IsDone (view reply.now) }
{
    reply.pointer("/succeeded").and_then(Value::as_bool) == Some(true)
}

// The text at a place of a reply; `None` if none is there.
fn text_at<'v>(reply: &'v Value, path: &str) -> Option<&'v str>
    ensures { option_map (λ text. text.now) result
        ≡ option_and_then as_str (pointer path.now (view reply.now)) }
{
    reply.pointer(path).and_then(Value::as_str)
}

// The array at a place of a reply; `None` if none is there.
fn array_at<'v>(reply: &'v Value, path: &str) -> Option<&'v Vec<Value>>
    ensures { option_map (λ array. items_view array.now.items) result
        ≡ option_and_then as_array (pointer path.now (view reply.now)) }
{
    reply.pointer(path).and_then(Value::as_array)
}

// The bytes that are in base 64 at a place of a reply; `None` if no text is there.
fn value_at(alloc: Global, reply: &Value, path: &str) -> Result<Option<Vec<u8>>, NoAnswer>
    ensures { IfOk result (λ found.
        option_map (λ bytes. bytes.items) found ≡ bytes_at path.now (view reply.now)) }
{
    let Some(text) = text_at(reply, path) else {
        return Ok(None);
    };
    match STANDARD.decode(alloc, text.as_bytes()) {
        Ok(bytes) => Ok(Some(bytes)),
        Err(_) => Err(NoAnswer),
    }
}

/// The revision of a put.
#[derive(Clone, Copy)]
pub(crate) struct Revision(pub(crate) u64);

impl Answer for Revision {
    ghost use Rattle.ring_etcd.specs.private.Replies.{IsRevision};

    ghost says = { λ reply revision. IsRevision reply revision.0 };

    fn read(_alloc: Global, reply: &Value) -> Result<Revision, NoAnswer> {
        match revision_at(reply, "/header/revision") {
            Ok(revision) => Ok(Revision(revision)),
            Err(silence) => Err(silence),
        }
    }
}

// The revision at a place of a reply.
fn revision_at(reply: &Value, path: &str) -> Result<u64, NoAnswer>
    ensures { IfOk result (λ revision. IsRevisionAt path.now (view reply.now) revision) }
{
    let Some(text) = reply.pointer(path).and_then(Value::as_str) else {
        return Err(NoAnswer);
    };
    match text.parse::<u64>() {
        Ok(revision) => Ok(revision),
        Err(_) => Err(NoAnswer),
    }
}

/// The revision of the last put of the key that was read, or 0 if nothing is there.
#[derive(Clone, Copy)]
pub(crate) struct Seen(pub(crate) u64);

impl Answer for Seen {
    ghost use Rattle.ring_etcd.specs.private.Replies.{IsSeen};

    ghost says = { λ reply seen. IsSeen reply seen.0 };

    fn read(_alloc: Global, reply: &Value) -> Result<Seen, NoAnswer> {
        if reply.pointer("/header/revision").is_none() {
            return Err(NoAnswer);
        }
        if reply.pointer("/kvs/0").is_none() {
            return Ok(Seen(0));
        }
        match revision_at(reply, "/kvs/0/mod_revision") {
            Ok(revision) => Ok(Seen(revision)),
            Err(silence) => Err(silence),
        }
    }
}

/// The value at the key that was read, or `None` if nothing is there.
#[derive(Drop)]
pub(crate) struct There(pub(crate) Option<Vec<u8>>);

impl Answer for There {
    ghost use Rattle.std.specs.Prelude.{option_map};
    ghost use Rattle.ring_etcd.specs.private.Replies.{IsValue};

    ghost says = { λ reply there. IsValue reply (option_map (λ bytes. bytes.items) there.0) };

    fn read(alloc: Global, reply: &Value) -> Result<There, NoAnswer> {
        if reply.pointer("/header/revision").is_none() {
            return Err(NoAnswer);
        }
        if reply.pointer("/kvs/0").is_none() {
            return Ok(There(None));
        }
        match value_at(alloc, reply, "/kvs/0/value") {
            Ok(Some(value)) => Ok(There(Some(value))),
            _ => Err(NoAnswer),
        }
    }
}

/// Whether the condition of a request held, so that it was carried out.
#[derive(Clone, Copy)]
pub(crate) struct Claimed(pub(crate) bool);

impl Answer for Claimed {
    ghost use Rattle.std.specs.Prelude.{◌↔◌, IsTrue};
    ghost use Rattle.ring_etcd.specs.Done.{IsDone};

    ghost says = { λ reply claimed. IsTrue claimed.0 ↔ IsDone reply };

    fn read(_alloc: Global, reply: &Value) -> Result<Claimed, NoAnswer> {
        let is_claimed = is_done(reply);
        if !is_claimed && reply.pointer("/responses/0/response_range").is_none() {
            return Err(NoAnswer);
        }
        Ok(Claimed(is_claimed))
    }
}

/// A key, in base 64, and its value.
#[derive(Drop)]
pub(crate) struct Pair {
    pub(crate) key: String,
    pub(crate) value: Vec<u8>,
}

/// The pairs of a range, in the order of the reply.
#[derive(Drop)]
pub(crate) struct Page {
    pub(crate) pairs: Vec<Pair>,
}

impl Answer for Page {
    ghost use Rattle.ring_etcd.specs.Found.{pairs_in};
    ghost use Rattle.ring_etcd.specs.private.Paging.{ArePairs};

    ghost says = { λ reply page. ArePairs (pairs_in reply) page.pairs.items };

    fn read(alloc: Global, reply: &Value) -> Result<Page, NoAnswer> {
        if reply.pointer("/header/revision").is_none() {
            return Err(NoAnswer);
        }
        match array_at(reply, "/kvs") {
            Some(found) => {
                let pairs = pairs_of(alloc, found)?;
                Ok(Page { pairs })
            }
            None => Ok(Page {
                pairs: Vec::new(alloc),
            }),
        }
    }
}

// The pairs that the items of a range are, in their order.
fn pairs_of(alloc: Global, found: &[Value]) -> Result<Vec<Pair>, NoAnswer>
    ensures { IfOk result (λ pairs. ArePairs (map view found.now) pairs.items) }
{
    let mut pairs = Vec::new(alloc);
    for item in found {
        let pair = pair_of(alloc, item)?;
        let Ok(()) = pairs.push(pair) else {
            return Err(NoAnswer);
        };
    }
    Ok(pairs)
}

// The pair that an item of a range is.
fn pair_of(alloc: Global, item: &Value) -> Result<Pair, NoAnswer>
    ensures { IfOk result (λ pair. IsPair (view item.now) pair) }
{
    let Some(key) = text_at(item, "/key") else {
        return Err(NoAnswer);
    };
    let Some(value) = value_at(alloc, item, "/value")? else {
        return Err(NoAnswer);
    };
    match String::from_str(alloc, key) {
        Ok(key) => Ok(Pair { key, value }),
        Err(_) => {
            drop(value);
            Err(NoAnswer)
        }
    }
}
