ghost use Rattle.std.specs.Prelude.{◌≡◌, ◌+◌, ◌<◌, ◌≤◌, vec_capacity, vec_len, OnOk};

use ring_id::NoMemory;

/// The least capacity of a non-empty list, at a node of a ring of this length. It is two packets
/// for each round that halves the ring, and one more. If a ring elects by few messages, most of its
/// nodes send and take no more, so their lists are allocated once.
pub fn least(ring: usize) -> usize
    ensures { 0 < result }
{
    let rounds = usize::BITS - ring.leading_zeros();
    2 * rounds as usize + 1
}

/// Finds room in a list for `more` elements, at a node of a ring of this length. The elements of
/// the list stay in any case.
pub fn find_room<T>(list: &mut Vec<T>, more: usize, ring: usize) -> Result<(), NoMemory>
    ensures items { list.new.items ≡ list.old.items }
    ensures room { OnOk result (vec_len list.new + more ≤ vec_capacity list.new) }
{
    if list.capacity() - list.len() >= more {
        return Ok(());
    }
    let wanted = next_capacity(list.capacity(), ring).saturating_sub(list.len());
    if list.reserve_exact(more.max(wanted)).is_err() {
        return Err(NoMemory);
    }
    Ok(())
}

/// The next capacity of a full list: twice this one. But if each identity passes once, a node takes
/// and sends at most one packet for each member, and an announcement. A list near that size is made
/// just as long, since a double one would be half empty.
fn next_capacity(capacity: usize, ring: usize) -> usize {
    let double = capacity.saturating_mul(2).max(least(ring));
    let round = ring.saturating_add(3);
    if double < round && round <= double.saturating_mul(2) {
        round
    } else {
        double
    }
}
