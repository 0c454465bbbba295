//! Allocations that are repeated once if they fail. So each test passes if any one allocation fails.
//! A sweep lets each fail in turn.
ghost use Rattle.std.specs.Prelude.{◌≡◌, [], vec_capacity, vec_len};

use ring_lines::DripOut;
use std::alloc::{AllocFailed, Global};
use std::process::Abort;
use std::sync::Arc;

/// The text of a test that stops since an allocation failed twice.
pub const TWICE: &str = "memory was refused twice";

/// Adds an item to a list.
pub fn add<T: Drop>(rt: &impl Abort, list: &mut Vec<T>, item: T) {
    if let Err(AllocFailed { value }) = list.push(item) {
        assert!(rt; list.push(value).is_ok());
    }
}

/// An empty list that has room for `room` items.
pub fn with_room<T>(rt: &impl Abort, alloc: Global, room: usize) -> Vec<T>
    ensures items { result.items ≡ [] }
    ensures len { vec_len result ≡ 0 }
    ensures exact { vec_capacity result ≡ room }
{
    match Vec::with_capacity(alloc, room) {
        Ok(list) => list,
        Err(_) => Vec::with_capacity(alloc, room).expect(rt, TWICE),
    }
}

/// A value that many own.
pub fn shared<T>(rt: &impl Abort, alloc: Global, value: T) -> Arc<T>
    ensures { result.value ≡ value }
{
    match Arc::new(alloc, value) {
        Ok(shared) => shared,
        Err(AllocFailed { value }) => Arc::new(alloc, value).expect(rt, TWICE),
    }
}

/// A writer of one byte per call, with room for `room` bytes. Its call with this number fails.
pub fn drip_out(rt: &impl Abort, alloc: Global, room: usize, fault_at: u64) -> DripOut {
    match DripOut::new(alloc, room, fault_at) {
        Ok(out) => out,
        Err(_) => DripOut::new(alloc, room, fault_at).expect(rt, TWICE),
    }
}

// Whether the shorter one of two texts is a prefix of the other, and is not empty.
fn begin_alike(one: &[u8], other: &[u8]) -> bool {
    let len = one.len().min(other.len());
    len > 0 && one[..len] == other[..len]
}

/// Whether a text of replies says that memory ran out, or its last line is cut and may go on so.
pub fn tells_of_memory(text: &[u8]) -> bool {
    let mut start = 0usize;
    for at in 0..text.len() {
        if text[at..].starts_with(b"no-memory") {
            return true;
        }
        if text[at] == b'\n' {
            start = at.saturating_add(1);
        }
    }
    let last = text.get(start..).unwrap_or(text);
    begin_alike(last, b"no no-memory") || begin_alike(last, b"drained ")
}
