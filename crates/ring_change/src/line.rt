ghost use Rattle.std.specs.Prelude.{◌≡◌, ◌≤◌, [], length};

use arrayvec::ArrayVec;
use ring_grammar::{Sink, SinkFailed};
use std::marker::Model;

/// A line of at most 70 bytes, which is kept without allocation. Contracts see it as its bytes.
///
/// No change has a longer line in a journal.
#[derive(Drop)]
pub struct Line {
    bytes: ArrayVec<u8, 70>,
}

impl Model for Line {
    ghost use Rattle.std.specs.Prelude.{List, ℕ};

    ghost Value = { List ℕ };

    ghost view = { λ a. a.bytes.items };
}

impl Line {
    /// The greatest number of bytes of a line.
    pub const LONGEST: usize = 70;

    /// Returns an empty line.
    pub fn new() -> Line
        ensures { result ≡ [] }
    {
        Line {
            bytes: ArrayVec::new(),
        }
    }

    /// Returns the bytes of this line.
    pub fn as_slice(&self) -> &[u8]
        ensures value { result.now ≡ self.now }
        ensures short { length result.now ≤ 70 }
    {
        self.bytes.as_slice()
    }
}

/// Bytes are appended. It fails only if the line would be too long.
impl Sink for Line {
    ghost use Rattle.ring_grammar.specs.Appending.{Appends};
    ghost use Rattle.ring_change.specs.Filling.{Overfills};
    ghost use Rattle.ring_change.specs.laws.Filling.{fills_in_sequence};

    ghost takes = { λ a bytes b. Appends a bytes b };

    ghost takes_front = { λ a bytes b. Overfills a bytes b };

    ghost laws = { fills_in_sequence (λ line. line) };

    fn put(&mut self, bytes: &[u8]) -> Result<(), SinkFailed> {
        self.bytes
            .try_extend_from_slice(bytes)
            .map_err(|_| SinkFailed)
    }
}
