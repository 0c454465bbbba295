ghost use Rattle.std.specs.Prelude.{◌≡◌};
ghost use Rattle.ring_id.specs.Sides.{other};

/// One of the two neighbours of a node on its ring. The right neighbour of a member joined next.
#[derive(Clone, Copy, Debug, PartialEq, Eq)]
pub enum Side {
    /// Towards the member that joined before.
    Left,
    /// Towards the member that joined next.
    Right,
}

impl Side {
    /// Returns the other side. A message sent to one side arrives from the other.
    pub fn other(self) -> Side
        ensures { result ≡ other self }
    {
        match self {
            Side::Left => Side::Right,
            Side::Right => Side::Left,
        }
    }
}
