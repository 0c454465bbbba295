//! What the last answers about groups said, by their places.

use std::alloc::{AllocError, Global};

// How many answers are remembered.
const MOST: usize = 1024;

// An answer about a group.
#[derive(Clone, Copy)]
struct Told {
    place: usize,
    // the sum of what it said
    sum: u64,
}

/// The last answers about groups. It has room for all that it remembers from the start, so noting
/// does not allocate. Tested, not proved.
#[derive(Drop)]
pub(crate) struct Shown {
    told: Vec<Told>,
    // which of them is the oldest, once there is no more room
    oldest: usize,
}

impl Shown {
    /// Returns that there was no answer.
    pub(crate) fn new(alloc: Global) -> Result<Shown, AllocError> {
        let told = Vec::with_capacity(alloc, MOST)?;
        Ok(Shown { told, oldest: 0 })
    }

    /// Remembers the sum of the answer at a place. The oldest answer is forgotten if there is no
    /// more room.
    pub(crate) fn note(&mut self, place: usize, sum: u64) {
        let told = Told { place, sum };
        if self.told.len() < self.told.capacity() {
            self.told.push_reserved(told);
        } else if let Some(oldest) = self.told.get_mut(self.oldest) {
            *oldest = told;
            self.oldest = (self.oldest + 1) % self.told.len();
        }
    }

    /// Returns the sum of the answer at a place, or `None` if it is not remembered.
    pub(crate) fn at(&self, place: usize) -> Option<u64> {
        let found = self.told.iter().find(|told| told.place == place)?;
        Some(found.sum)
    }
}
