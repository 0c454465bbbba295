//! The number of a life of a journal.
ghost use Rattle.std.specs.Prelude.{◌≡◌, ◌≤◌, ◌+◌, ◌^◌, IfNone, IfSome};
ghost use Rattle.ring_recovery.specs.Life.{IsLife, base_of};

use std::marker::Model;

/// The number of places of each life.
const PLACES: usize = 1 << 44;

/// The number of a life of a journal: how often a service has begun with it, this time included.
///
/// Contracts see the number. It is from 1 to `MOST`.
#[derive(Clone, Copy)]
pub struct Life {
    number: u32,
}

impl Model for Life {
    ghost use Rattle.std.specs.Prelude.{ℕ};
    ghost use Rattle.ring_recovery.specs.Life.{IsLife};

    ghost Value = { ℕ };

    ghost view = { λ a. a.number };

    ghost invariant = { λ a. IsLife a.number };

    ghost inverse = { λ n. record { number = n } };
}

impl Life {
    /// The number of the last life that a journal has.
    pub const MOST: u32 = 1_048_576;

    /// Returns the first life.
    pub(crate) fn first() -> Life
        ensures { result ≡ 1 }
    {
        Life { number: 1 }
    }

    /// Returns the life with this number, or `None` if no life has it.
    pub(crate) fn new(number: u32) -> Option<Life>
        ensures some { IfSome result (λ life. (life ≡ number) × IsLife life) }
        ensures none { IfNone result (IsLife number → ⊥) }
    {
        if number == 0 || number > Life::MOST {
            return None;
        }
        Some(Life { number })
    }

    /// Returns the life after this one, or `None` if this is the last one.
    pub(crate) fn next(self) -> Option<Life>
        ensures some { IfSome result (λ life. life ≡ self + 1) }
        ensures none { IfNone result (self ≡ 2 ^ 20) }
    {
        if self.number == Life::MOST {
            return None;
        }
        Some(Life {
            number: self.number + 1,
        })
    }

    /// Returns the number.
    pub fn get(self) -> u32
        ensures value { result ≡ self }
        ensures range { IsLife result }
    {
        self.number
    }

    /// Returns the number that is added to each place of this life. A life has fewer than 2^44
    /// places.
    pub fn base(self) -> usize
        ensures value { result ≡ base_of self }
        ensures within { result + 2 ^ 44 ≤ 2 ^ 64 }
    {
        (self.number as usize - 1) * PLACES
    }
}
