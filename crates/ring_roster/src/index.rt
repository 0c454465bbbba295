ghost use Rattle.std.specs.Prelude.{◌≡◌, ◌≤◌, IfOk, length};
ghost use Rattle.ring_roster.specs.Ring.{IsRing, position_of};
ghost use Rattle.ring_roster.specs.private.Index.{IsIndexOf};

use crate::guesses::Guesses;
use crate::order::{order_of, position_in, stands_at};
use ring_id::{NoMemory, NodeId, NodeNo};
use std::alloc::Global;

/// The means by which the members of a ring are found.
#[derive(Drop)]
pub(crate) enum Index {
    /// None: there are so few members that the search looks at each.
    Few,
    /// The positions in the order of numbers. The search uses it if the guess is wrong.
    Many { order: Vec<u8>, guesses: Guesses },
}

/// The most members without an index.
const FEW: usize = 8;

impl Index {
    /// Returns the index of these members.
    pub(crate) fn new(alloc: Global, members: &[NodeId]) -> Result<Index, NoMemory>
        requires { length members.now ≤ 256 }
        ensures { IfOk result (λ index. IsIndexOf members.now index) }
    {
        if members.len() <= FEW {
            return Ok(Index::Few);
        }
        let order = order_of(alloc, members)?;
        let guesses = Guesses::new(alloc, members)?;
        Ok(Index::Many { order, guesses })
    }

    /// The position of the member with this number; `None` if there is none.
    pub(crate) fn find(&self, members: &[NodeId], node: NodeNo) -> Option<usize>
        requires ring { IsRing members.now }
        requires index { IsIndexOf members.now self.now }
        ensures { result ≡ position_of node members.now }
    {
        let Index::Many { order, guesses } = self else {
            return members.iter().position(|member| member.number() == node);
        };
        let guess = guesses.of(node);
        if stands_at(members, guess, node) {
            return Some(guess as usize);
        }
        match position_in(members, order, node) {
            Some(position) => Some(position as usize),
            None => None,
        }
    }
}
