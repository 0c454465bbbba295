ghost use Rattle.std.specs.Prelude.{◌≡◌, ◌≢◌, ◌<◌, ◌==◌, ℕ, if◌then◌else◌};
ghost use Rattle.std.specs.Int.{bit_at};
ghost use Rattle.ring_world.specs.private.LinkSets.{IsFirst, IsSummary, bit_of};
ghost use Rattle.ring_world.specs.Worlds.{link_place};

use ring_id::Side;

/// A set of links of one ring: 512 bits in eight words.
///
/// The place of a link's bit is twice its receiver's position, or one more for the right side. So
/// the order of places is the order of links: the least receiver first, left before right. One more
/// bit for each word says whether the word has any, so that the first link is found without a
/// search.
#[derive(Clone, Copy)]
pub struct LinkSet {
    words: [u64; 8],
    summary: u64,
    ghost sums: { IsSummary words summary },
}

impl LinkSet {
    /// The set without links.
    pub fn empty() -> LinkSet
        ensures { (place : ℕ) → bit_of result.words place ≡ 0 }
    {
        LinkSet {
            words: [0; 8],
            summary: 0,
        }
    }

    /// Puts the link at a place into the set, or takes it out.
    pub fn put(&mut self, place: usize, here: bool)
        requires { place < 512 }
        ensures here { bit_of self.new.words place ≡ if here then 1 else 0 }
        ensures others { (other : ℕ) → other ≢ place
            → bit_of self.new.words other ≡ bit_of self.old.words other }
    {
        let index = place / 64;
        let word = with_bit(self.words[index], place % 64, here);
        self.words[index] = word;
        self.summary = with_bit(self.summary, index, word != 0);
    }

    /// Puts the link at a place into the set.
    pub fn insert(&mut self, place: usize)
        requires { place < 512 }
        ensures here { bit_of self.new.words place ≡ 1 }
        ensures others { (other : ℕ) → other ≢ place
            → bit_of self.new.words other ≡ bit_of self.old.words other }
    {
        let index = place / 64;
        self.words[index] = with_bit(self.words[index], place % 64, true);
        self.summary = with_bit(self.summary, index, true);
    }

    /// Takes the link at a place, which is in the set, out of it if the last packet has left the
    /// link.
    pub fn leave(&mut self, place: usize, is_last: bool)
        requires within { place < 512 }
        requires there { bit_of self.old.words place ≡ 1 }
        ensures here { bit_of self.new.words place ≡ if is_last then 0 else 1 }
        ensures others { (other : ℕ) → other ≢ place
            → bit_of self.new.words other ≡ bit_of self.old.words other }
    {
        if is_last {
            self.put(place, false);
        }
    }

    /// Whether the link at a place is in the set.
    pub fn has(&self, place: usize) -> bool
        requires { place < 512 }
        ensures { result ≡ (bit_of self.now.words place == 1) }
    {
        self.summary != 0 && self.words[place / 64] >> (place % 64) & 1 == 1
    }

    /// The place of the first link in the set.
    pub fn first(&self) -> Option<usize>
        ensures { IsFirst self.now.words result }
    {
        if self.summary == 0 {
            return None;
        }
        let index = self.summary.trailing_zeros() as usize;
        let word = self.words[index];
        Some(64 * index + word.trailing_zeros() as usize)
    }
}

/// The word with its bit at a place set, or cleared.
fn with_bit(word: u64, place: usize, here: bool) -> u64
    requires { place < 64 }
    ensures here { bit_at result place ≡ if here then 1 else 0 }
    ensures others { (other : ℕ) → other < 64 → other ≢ place
        → bit_at result other ≡ bit_at word other }
{
    if here {
        word | 1u64 << place
    } else {
        word & !(1u64 << place)
    }
}

/// The place of a link in the order of links.
pub fn place_of(position: usize, side: Side) -> usize
    requires { position < 256 }
    ensures value { result ≡ link_place position side }
    ensures inside { result < 512 }
{
    match side {
        Side::Left => 2 * position,
        Side::Right => 2 * position + 1,
    }
}

/// The link at a place: its receiver's position, and the side from which it takes.
pub fn link_at(place: usize) -> (usize, Side)
    ensures { link_place result.0 result.1 ≡ place }
{
    let side = if place % 2 == 0 {
        Side::Left
    } else {
        Side::Right
    };
    (place / 2, side)
}
