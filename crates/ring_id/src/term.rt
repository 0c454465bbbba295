ghost use Rattle.std.specs.Prelude.{◌≡◌, ℕ, ◌<◌, ◌≤◌, ◌↔◌, IsSome, IfSome};
ghost use Rattle.ring_id.specs.Term.{IsTerm};

use std::marker::Model;

/// The number of a term of a group, from 1 to 1000. Terms are numbered in the order of their
/// starts.
#[derive(Clone, Copy, Debug, PartialEq, Eq, PartialOrd, Ord, Hash)]
pub struct TermNo {
    // as wide as the number of a node, so that a reply of a term and its leader is copied in whole
    // words
    number: u32,
}

impl Model for TermNo {
    ghost use Rattle.std.specs.Prelude.{ℕ};
    ghost use Rattle.ring_id.specs.Term.{IsTerm};

    ghost Value = { ℕ };

    ghost view = { λ a. a.number };

    ghost invariant = { λ a. IsTerm a.number };

    ghost inverse = { λ n. record { number = n } };
}

impl TermNo {
    /// The greatest term number. A group has at most this many terms.
    pub const MOST: u16 = 1000;

    /// Returns the term with this number; `None` outside 1 to 1000.
    pub fn new(number: u16) -> Option<TermNo>
        ensures there { IsSome result ↔ IsTerm number }
        ensures value { IfSome result (λ term. term ≡ number) }
    {
        if number == 0 || number > TermNo::MOST {
            return None;
        }
        Some(TermNo {
            number: number as u32,
        })
    }

    /// The number of this term, from 1 to 1000.
    pub fn get(self) -> u16
        ensures value { result ≡ self }
        ensures range { IsTerm result }
    {
        self.number as u16
    }
}
