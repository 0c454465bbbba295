ghost use Rattle.std.specs.Prelude.{◌≡◌, ◌<◌, ◌↔◌, IsTrue, IfOk, IfErr, None, true, length, slice_get};
ghost use Rattle.std.specs.List.{list_any};
ghost use Rattle.ring_id.specs.Refusals.{IsRefusal};
ghost use Rattle.ring_roster.specs.Ring.{IsRing, has_number, has_repeat, neighbour, position_of, ring_refusal};

use crate::members::Members;
use ring_id::{NoMemory, NodeId, NodeNo, Refusal, Side};
use std::alloc::Global;
use std::marker::Model;
use std::sync::Arc;

/// The ring of a term: a list of 1 to 256 identities with different numbers, in joining order. Two
/// identities with one number are refused, whatever their weights are.
///
/// Contracts see a roster as the list of its identities (Lynch, Distributed Algorithms, 3.1). Only
/// `from_members` and `of_ring` allocate: copies made by `shared` have the same ring in memory.
#[derive(Drop)]
pub struct Roster {
    members: Arc<Members>,
}

impl Model for Roster {
    ghost use Rattle.std.specs.Prelude.{List, ℕ};

    ghost Value = { List ℕ };

    ghost view = { λ a. a.members.value };
}

impl Roster {
    /// The greatest number of members of a ring.
    pub const MOST: usize = 256;

    /// Returns the ring of these identities in this order. Refused, the first that holds: `Empty`
    /// if there are none, `RingFull` if there are more than 256, `Member` if two have one number,
    /// `NoMemory`.
    pub fn from_members(alloc: Global, members: &[NodeId]) -> Result<Roster, Refusal>
        ensures ok { IfOk result (λ ring. ring ≡ members.now) }
        ensures accepted { IfOk result (λ _. ring_refusal members.now ≡ None) }
        ensures err { IfErr result (IsRefusal (ring_refusal members.now) true) }
    {
        if members.is_empty() {
            return Err(Refusal::Empty);
        }
        if members.len() > Roster::MOST {
            return Err(Refusal::RingFull);
        }
        if repeats(members) {
            return Err(Refusal::Member);
        }
        let Ok(ring) = Roster::of_ring(alloc, members) else {
            return Err(Refusal::NoMemory);
        };
        Ok(ring)
    }

    /// Returns the ring of these identities in this order, if they are known to be a ring. It does
    /// not look for repeats. `NoMemory` if an allocation fails.
    pub fn of_ring(alloc: Global, members: &[NodeId]) -> Result<Roster, NoMemory>
        requires { IsRing members.now }
        ensures { IfOk result (λ ring. ring ≡ members.now) }
    {
        let Ok(members) = Arc::new(alloc, Members::new(alloc, members)?) else {
            return Err(NoMemory);
        };
        Ok(Roster { members })
    }

    /// Returns the same ring, which shares the memory of this one. `NoMemory` if it has too many
    /// owners.
    pub fn shared(&self) -> Result<Roster, NoMemory>
        ensures { IfOk result (λ ring. ring ≡ self.now) }
    {
        let Ok(members) = Arc::try_clone(&self.members) else {
            return Err(NoMemory);
        };
        Ok(Roster { members })
    }

    /// The number of members, from 1 to 256.
    pub fn len(&self) -> usize
        ensures value { result ≡ length self.now }
        ensures ring { IsRing self.now }
    {
        self.members.len()
    }

    /// The identity at this position; `None` past the last.
    pub fn at(&self, position: usize) -> Option<NodeId>
        ensures value { result ≡ slice_get self.now position }
        ensures ring { IsRing self.now }
    {
        self.members.at(position)
    }

    /// The position of the member with this number; `None` if there is none.
    pub fn position(&self, node: NodeNo) -> Option<usize>
        ensures { result ≡ position_of node self.now }
    {
        self.members.position(node)
    }

    /// The position next to this one on that side. In a ring of one it is the position itself; in a
    /// ring of two both neighbours are the other position.
    pub fn neighbour(&self, position: usize, side: Side) -> usize
        requires { position < length self.now }
        ensures value { result ≡ neighbour (length self.now) position side }
        ensures inside { result < length self.now }
    {
        self.members.neighbour(position, side)
    }

    /// Whether two rings have the same members in the same order.
    pub fn same(&self, other: &Roster) -> bool
        ensures { IsTrue result ↔ (self.now ≡ other.now) }
    {
        self.members.same(&other.members)
    }

    /// Whether the members are these identities in this order.
    pub fn is_of(&self, members: &[NodeId]) -> bool
        ensures { IsTrue result ↔ (self.now ≡ members.now) }
    {
        self.members.are(members)
    }
}

/// Whether two of these identities have one number.
fn repeats(members: &[NodeId]) -> bool
    ensures { result ≡ has_repeat members.now }
{
    let mut rest = members;
    while let Some((first, others)) = rest.split_first() {
        if is_among(*first, others) {
            return true;
        }
        rest = others;
    }
    false
}

/// Whether one of these identities has the number of this one.
fn is_among(node: NodeId, members: &[NodeId]) -> bool
    ensures { result ≡ list_any (has_number node) members.now }
{
    members
        .iter()
        .any(|member| member.number() == node.number())
}
