ghost use Rattle.std.specs.Prelude.{◌≡◌, ◌<◌, IfOk, length, nat_lt};
ghost use Rattle.std.specs.List.{list_all};
ghost use Rattle.ring_chang.specs.Chang.{records};
ghost use Rattle.ring_roster.specs.Ring.{leftward};

use ring_id::{NoMemory, NodeId, Side};
use ring_roster::Roster;
use std::alloc::Global;

/// Returns all messages that fit the right link of a position, in their order. They are the records
/// of the identities read from that position to the left, all round (Lynch, Distributed Algorithms,
/// 3.3). Tests count messages with this plain reading of the definition; nodes do not use it.
/// `NoMemory` if an allocation fails.
pub fn fitting(alloc: Global, ring: &Roster, position: usize) -> Result<Vec<NodeId>, NoMemory>
    requires { position < length ring.now }
    ensures { IfOk result (λ fits. fits.items ≡ records (leftward ring.now position)) }
{
    let mut fits: Vec<NodeId> = Vec::new(alloc);
    let mut at = position;
    for _ in 0..ring.len() {
        if let Some(node) = ring.at(at) {
            if exceeds(node, &fits) {
                fits.push(node).map_err(|_| NoMemory)?;
            }
        }
        at = ring.neighbour(at, Side::Left);
    }
    Ok(fits)
}

/// Whether this identity is greater than all of these.
fn exceeds(node: NodeId, earlier: &[NodeId]) -> bool
    ensures { result ≡ list_all (λ other. nat_lt other node) earlier.now }
{
    earlier.iter().all(|other| node > *other)
}
