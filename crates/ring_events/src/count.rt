ghost use Rattle.std.specs.Prelude.{◌≡◌, ℕ};

use std::marker::Model;

/// How many values one word has, 2^64.
const WORD: u128 = 18446744073709551616;

/// A number of packets. Contracts see it as that number.
///
/// It is kept in two words, so that all replies have the same layout.
#[derive(Clone, Copy)]
pub struct Count {
    high: u64,
    low: u64,
}

impl Model for Count {
    ghost use Rattle.std.specs.Prelude.{ℕ, ◌<◌, ◌≡◌, refl};
    ghost use Rattle.ring_events.specs.Words.{high_of, low_of, words};
    ghost use Rattle.ring_events.specs.laws.Words.{high_of-words, low_of-words};

    ghost Value = { ℕ };

    ghost view = { λ a. words a.high a.low };

    ghost invariant = { λ a. (a.high < 18446744073709551616) × (a.low < 18446744073709551616) };

    ghost inverse = { λ count. record { high = high_of count; low = low_of count } };

    ghost inverse_ok = { λ a h. Prim.rw
        (high_of-words a.high a.low h.1, low_of-words a.high a.low h.1) refl };
}

impl Count {
    /// Returns the count of this number.
    pub fn new(count: u128) -> Count
        ensures { result ≡ count }
    {
        Count {
            high: (count / WORD) as u64,
            low: (count % WORD) as u64,
        }
    }

    /// The number.
    pub fn get(self) -> u128
        ensures { result ≡ self }
    {
        self.high as u128 * WORD + self.low as u128
    }
}
