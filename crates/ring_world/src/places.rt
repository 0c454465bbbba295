ghost use Rattle.std.specs.Prelude.{IfSome, MatchOption, length};
ghost use Rattle.ring_world.specs.private.Places.{IsListed, IsPlaced, IsShared, IsUnlisted};
ghost use Rattle.ring_world.specs.private.Settlements.{AllFaithful};

use ring_election::RingElection;
use ring_node::{Charter, Node};

/// For each position of a ring, the index of its node in a list of nodes, if its node is there. It
/// is made in one pass over the nodes and does not allocate, since no ring is longer than its
/// array.
#[derive(Clone, Copy)]
pub struct Places {
    at: [Option<usize>; 256],
}

impl Places {
    /// The places of the nodes of this charter; `None` if two of them are at one position.
    pub fn of<E: RingElection>(charter: &Charter<E>, nodes: &[Node<E>]) -> Option<Places>
        ensures places { MatchOption result (IsShared charter.now nodes.now)
            (λ places. IsPlaced charter.now nodes.now (length nodes.now) places.at) }
        ensures faithful { IfSome result (λ _. AllFaithful E.table E.fits E.winner nodes.now) }
    {
        let mut at = [None; 256];
        for (place, node) in nodes.iter().enumerate() {
            let position = node.position();
            if node.charter().same(charter) {
                if at[position].is_some() {
                    return None;
                }
                at[position] = Some(place);
            }
        }
        Some(Places { at })
    }

    /// The node of a position, if these places have one for it.
    pub fn find<'a, E: RingElection>(
        &self,
        nodes: &'a [Node<E>],
        position: usize,
    ) -> Option<&'a Node<E>>
        ensures { MatchOption result (IsUnlisted nodes.now self.now.at position)
            (λ node. IsListed nodes.now self.now.at position node.now) }
    {
        let Some(listed) = self.at.get(position) else {
            return None;
        };
        let Some(place) = *listed else {
            return None;
        };
        nodes.get(place)
    }
}
