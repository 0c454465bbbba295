ghost use Rattle.std.specs.Prelude.{◌≡◌, ◌≢◌, ◌↔◌, ℕ, ◌<◌, ◌≤◌, IsTrue, IfOk, IfSome, IfNone, length};
ghost use Rattle.ring_roster.specs.private.Order.{IsOrder, number_at};

use ring_id::{NoMemory, NodeId, NodeNo};
use std::alloc::Global;

/// The positions of these members in the order of their numbers.
pub(crate) fn order_of(alloc: Global, members: &[NodeId]) -> Result<Vec<u8>, NoMemory>
    requires { length members.now ≤ 256 }
    ensures { IfOk result (λ order. IsOrder members.now order.items) }
{
    let Ok(mut order) = Vec::with_capacity(alloc, members.len()) else {
        return Err(NoMemory);
    };
    for position in 0..members.len() {
        order.push_reserved(position as u8);
    }
    order.sort_unstable_by_key(|position| number_at(members, *position));
    Ok(order)
}

/// The position of the member with this number, found by binary search; `None` if there is none.
pub(crate) fn position_in(members: &[NodeId], order: &[u8], node: NodeNo) -> Option<u8>
    requires { IsOrder members.now order.now }
    ensures some { IfSome result
        (λ position. (position < length members.now) × (number_at members.now position ≡ node)) }
    ensures none { IfNone result
        ((position : ℕ) → position < length members.now → number_at members.now position ≢ node) }
{
    match order.binary_search_by_key(&node.get(), |position| number_at(members, *position)) {
        Ok(place) => Some(order[place]),
        Err(_) => None,
    }
}

/// Whether the member at this position has this number.
pub(crate) fn stands_at(members: &[NodeId], position: u8, node: NodeNo) -> bool
    ensures { IsTrue result
        ↔ ((position < length members.now) × (number_at members.now position ≡ node)) }
{
    match members.get(position as usize) {
        Some(member) => member.number() == node,
        None => false,
    }
}

/// The number of the member at this position; 0 if there is none.
fn number_at(members: &[NodeId], position: u8) -> u32
    ensures { result ≡ number_at members.now position }
{
    match members.get(position as usize) {
        Some(member) => member.get(),
        None => 0,
    }
}
