//! The bodies of the requests to the gateway. Keys and values are in base 64.
ghost use Rattle.std.specs.Prelude.{◌≡◌, IfOk, decimal, string_bytes};
ghost use Rattle.ring_etcd.specs.private.Requests.{claim_text, compare_text, entry_text, failure_text, first_text, free_text, get_text, put_text, range_text, renew_text, success_text, switch_text};

use std::alloc::{AllocError, Global};

/// The path of each kind of request.
pub(crate) const PUT: &str = "/v3/kv/put";

pub(crate) const RANGE: &str = "/v3/kv/range";

pub(crate) const TXN: &str = "/v3/kv/txn";

/// How many pairs a reply to `range` has at most. It has fewer only if there are no more.
pub(crate) const PAGE: usize = 128;

/// Where a process writes: after the text that `base` names, at a key where nothing is yet.
#[derive(Clone, Copy)]
pub(crate) struct Slot<'a> {
    pub(crate) base_key: &'a str,
    pub(crate) base: &'a str,
    pub(crate) key: &'a str,
}

/// Puts a value at a key.
pub(crate) fn put(alloc: Global, key: &str, value: &str) -> Result<String, AllocError>
    ensures { IfOk result (λ text. string_bytes text ≡ put_text key.now value.now) }
{
    format!(in alloc; "{{\"key\":\"{key}\",\"value\":\"{value}\"}}")
}

/// Reads the pairs from `key` on and before `end`, `PAGE` at most. etcd sends the first ones in the
/// order of their keys if it is not asked to sort. If it is, it reads all of them for each page.
pub(crate) fn range(alloc: Global, key: &str, end: &str) -> Result<String, AllocError>
    ensures { IfOk result (λ text. string_bytes text ≡ range_text key.now end.now) }
{
    format!(in alloc; "{{\"key\":\"{key}\",\"range_end\":\"{end}\",\"limit\":\"128\"}}")
}

/// Reads the value at a key.
pub(crate) fn get(alloc: Global, key: &str) -> Result<String, AllocError>
    ensures { IfOk result (λ text. string_bytes text ≡ get_text key.now) }
{
    format!(in alloc; "{{\"key\":\"{key}\"}}")
}

/// Puts a value at a key if its last put has this revision, or nothing is there and it is 0.
/// Otherwise reads the key.
pub(crate) fn claim(
    alloc: Global,
    key: &str,
    revision: u64,
    value: &str,
) -> Result<String, AllocError>
    ensures { IfOk result (λ text.
        string_bytes text ≡ claim_text key.now (decimal revision) value.now) }
{
    format!(in alloc;
        "{{\"compare\":[{{\"key\":\"{key}\",\"target\":\"MOD\",\"result\":\"EQUAL\",\"mod_revision\":\"{revision}\"}}],\"success\":[{{\"request_put\":{{\"key\":\"{key}\",\"value\":\"{value}\"}}}}],\"failure\":[{{\"request_range\":{{\"key\":\"{key}\"}}}}]}}"
    )
}

/// Puts a value at a key if it is there. Otherwise reads the key.
pub(crate) fn renew(alloc: Global, key: &str, value: &str) -> Result<String, AllocError>
    ensures { IfOk result (λ text. string_bytes text ≡ renew_text key.now value.now) }
{
    format!(in alloc;
        "{{\"compare\":[{{\"key\":\"{key}\",\"target\":\"VALUE\",\"result\":\"EQUAL\",\"value\":\"{value}\"}}],\"success\":[{{\"request_put\":{{\"key\":\"{key}\",\"value\":\"{value}\"}}}}],\"failure\":[{{\"request_range\":{{\"key\":\"{key}\"}}}}]}}"
    )
}

/// Puts a value at a key if nothing is there, nor at the keys from `from` on and before `to`.
/// Otherwise reads the key, twice.
pub(crate) fn put_first(
    alloc: Global,
    key: &str,
    value: &str,
    from: &str,
    to: &str,
) -> Result<String, AllocError>
    ensures { IfOk result (λ text. string_bytes text
        ≡ first_text key.now value.now from.now to.now) }
{
    let free = free(alloc, key, from, to)?;
    let text = format!(in alloc;
        "{{{free},\"success\":[{{\"request_put\":{{\"key\":\"{key}\",\"value\":\"{value}\"}}}}],\"failure\":[{{\"request_range\":{{\"key\":\"{key}\"}}}},{{\"request_range\":{{\"key\":\"{key}\"}}}}]}}"
    )?;
    Ok(text)
}

/// Puts a value at the key of the slot, if nothing is there and its base counts. Otherwise reads
/// that key and the base.
pub(crate) fn put_entry(alloc: Global, slot: Slot<'_>, value: &str) -> Result<String, AllocError>
    ensures { IfOk result (λ text. string_bytes text
        ≡ entry_text slot.entry.base_key.now slot.entry.base.now slot.entry.key.now value.now) }
{
    let Slot { key, .. } = slot;
    let compare = compare(alloc, slot)?;
    let failure = failure(alloc, slot)?;
    let text = format!(in alloc;
        "{{{compare},\"success\":[{{\"request_put\":{{\"key\":\"{key}\",\"value\":\"{value}\"}}}}],{failure}}}"
    )?;
    Ok(text)
}

/// Makes another base count, if nothing is at the key of the slot and its base counts. The keys
/// from `from` on and before `to` are deleted at the same instant. Otherwise reads that key and
/// the base.
pub(crate) fn switch(
    alloc: Global,
    slot: Slot<'_>,
    base: &str,
    from: &str,
    to: &str,
) -> Result<String, AllocError>
    ensures { IfOk result (λ text. string_bytes text
        ≡ switch_text slot.entry.base_key.now slot.entry.base.now slot.entry.key.now
        base.now from.now to.now) }
{
    let compare = compare(alloc, slot)?;
    let success = success(alloc, slot.base_key, base, from, to)?;
    let failure = failure(alloc, slot)?;
    let text = format!(in alloc; "{{{compare},{success},{failure}}}")?;
    Ok(text)
}

// What is done if the condition holds: the base gets another value, and keys are deleted.
fn success(
    alloc: Global,
    base_key: &str,
    base: &str,
    from: &str,
    to: &str,
) -> Result<String, AllocError>
    ensures { IfOk result (λ text. string_bytes text
        ≡ success_text base_key.now base.now from.now to.now) }
{
    format!(in alloc;
        "\"success\":[{{\"request_put\":{{\"key\":\"{base_key}\",\"value\":\"{base}\"}}}},{{\"request_delete_range\":{{\"key\":\"{from}\",\"range_end\":\"{to}\"}}}}]"
    )
}

// The condition that nothing is at a key, nor at the keys from `from` on and before `to`.
fn free(alloc: Global, key: &str, from: &str, to: &str) -> Result<String, AllocError>
    ensures { IfOk result (λ text. string_bytes text ≡ free_text key.now from.now to.now) }
{
    format!(in alloc;
        "\"compare\":[{{\"key\":\"{key}\",\"target\":\"CREATE\",\"result\":\"EQUAL\",\"create_revision\":\"0\"}},{{\"key\":\"{from}\",\"range_end\":\"{to}\",\"target\":\"CREATE\",\"result\":\"EQUAL\",\"create_revision\":\"0\"}}]"
    )
}

// The condition that the base of the slot counts and that nothing is at its key.
fn compare(alloc: Global, slot: Slot<'_>) -> Result<String, AllocError>
    ensures { IfOk result (λ text. string_bytes text
        ≡ compare_text slot.entry.base_key.now slot.entry.base.now slot.entry.key.now) }
{
    let Slot {
        base_key,
        base,
        key,
    } = slot;
    format!(in alloc;
        "\"compare\":[{{\"key\":\"{base_key}\",\"target\":\"VALUE\",\"result\":\"EQUAL\",\"value\":\"{base}\"}},{{\"key\":\"{key}\",\"target\":\"CREATE\",\"result\":\"EQUAL\",\"create_revision\":\"0\"}}]"
    )
}

// What is read if the condition does not hold: the key of the slot, then the base.
fn failure(alloc: Global, slot: Slot<'_>) -> Result<String, AllocError>
    ensures { IfOk result (λ text. string_bytes text
        ≡ failure_text slot.entry.base_key.now slot.entry.key.now) }
{
    let Slot { base_key, key, .. } = slot;
    format!(in alloc;
        "\"failure\":[{{\"request_range\":{{\"key\":\"{key}\"}}}},{{\"request_range\":{{\"key\":\"{base_key}\"}}}}]"
    )
}
