ghost use Rattle.std.specs.Prelude.{◌≡◌, ◌<◌, ◌↔◌, IsTrue, IfOk, length, slice_get};
ghost use Rattle.ring_roster.specs.Ring.{IsRing, neighbour, position_of};

use crate::index::Index;
use ring_id::{NoMemory, NodeId, NodeNo, Side, same_ids};
use std::alloc::Global;
use std::marker::Model;

/// The members of a ring with their index. Contracts see the list of their identities.
#[derive(Drop)]
pub(crate) struct Members {
    list: Vec<NodeId>,
    index: Index,
}

impl Model for Members {
    ghost use Rattle.std.specs.Prelude.{List, ℕ};
    ghost use Rattle.ring_roster.specs.private.Index.{IsIndexOf};
    ghost use Rattle.ring_roster.specs.Ring.{IsRing};

    ghost Value = { List ℕ };

    ghost view = { λ a. a.list.items };

    ghost invariant = { λ a. IsRing a.list.items × IsIndexOf a.list.items a.index };
}

impl Members {
    /// Returns the members with these identities, which are a ring.
    pub(crate) fn new(alloc: Global, list: &[NodeId]) -> Result<Members, NoMemory>
        requires { IsRing list.now }
        ensures { IfOk result (λ members. members ≡ list.now) }
    {
        let index = Index::new(alloc, list)?;
        let Ok(list) = Vec::from_slice(alloc, list) else {
            return Err(NoMemory);
        };
        Ok(Members { list, index })
    }

    /// The number of members.
    pub(crate) fn len(&self) -> usize
        ensures value { result ≡ length self.now }
        ensures ring { IsRing self.now }
    {
        self.list.len()
    }

    /// The identity at this position; `None` past the last.
    pub(crate) fn at(&self, position: usize) -> Option<NodeId>
        ensures value { result ≡ slice_get self.now position }
        ensures ring { IsRing self.now }
    {
        self.list.get(position).copied()
    }

    /// The position of the member with this number; `None` if there is none.
    pub(crate) fn position(&self, node: NodeNo) -> Option<usize>
        ensures { result ≡ position_of node self.now }
    {
        self.index.find(&self.list, node)
    }

    /// The position next to this one on that side.
    pub(crate) fn neighbour(&self, position: usize, side: Side) -> usize
        requires { position < length self.now }
        ensures value { result ≡ neighbour (length self.now) position side }
        ensures inside { result < length self.now }
    {
        let last = self.list.len() - 1;
        match side {
            Side::Left if position == 0 => last,
            Side::Left => position - 1,
            Side::Right if position == last => 0,
            Side::Right => position + 1,
        }
    }

    /// Whether the members are these identities in this order.
    pub(crate) fn are(&self, list: &[NodeId]) -> bool
        ensures { IsTrue result ↔ (self.now ≡ list.now) }
    {
        same_ids(&self.list, list)
    }

    /// Whether both have the same identities in the same order.
    pub(crate) fn same(&self, other: &Members) -> bool
        ensures { IsTrue result ↔ (self.now ≡ other.now) }
    {
        self.are(&other.list)
    }
}
