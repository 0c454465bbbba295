ghost use Rattle.std.specs.Prelude.{◌≤◌, length};

use ring_id::{NoMemory, NodeId, NodeNo};
use std::alloc::Global;

/// Guesses of members' positions, by the last bits of their numbers.
///
/// A guess may be wrong: if several members have the same last bits, it is the position of the last
/// of them. No clause speaks of guesses, so a look-up compares the member's number. There are at
/// least four guesses for each member, since fewer would be wrong more often.
#[derive(Drop)]
pub(crate) struct Guesses {
    positions: Vec<u8>,
}

impl Guesses {
    /// Returns the guesses for these members.
    pub(crate) fn new(alloc: Global, members: &[NodeId]) -> Result<Guesses, NoMemory>
        requires { length members.now ≤ 256 }
    {
        let count = (4 * members.len()).next_power_of_two();
        let mut guesses = Guesses {
            positions: Vec::from_elem(alloc, 0, count)?,
        };
        for (position, member) in members.iter().enumerate() {
            let place = guesses.place(member.number());
            if let Some(guess) = guesses.positions.get_mut(place) {
                *guess = position as u8;
            }
        }
        Ok(guesses)
    }

    /// The guess for a number.
    pub(crate) fn of(&self, node: NodeNo) -> u8 {
        match self.positions.get(self.place(node)) {
            Some(guess) => *guess,
            None => 0,
        }
    }

    // The place of the guess for a number. The number of guesses is a power of two.
    fn place(&self, node: NodeNo) -> usize {
        node.get() as usize & self.positions.len().wrapping_sub(1)
    }
}
