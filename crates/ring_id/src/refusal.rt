ghost use Rattle.std.specs.Prelude.{◌≡◌};
ghost use Rattle.ring_id.specs.Refusals.{number_in_table, word_in_table};

use std::alloc::AllocError;

/// An allocation failed. The call that asked for it has changed nothing.
#[derive(Clone, Copy, Debug, PartialEq, Eq)]
pub struct NoMemory;

impl From<AllocError> for NoMemory {
    fn from(_: AllocError) -> NoMemory {
        NoMemory
    }
}

/// Why a command or a delivery was refused. A refusal changes nothing.
#[derive(Clone, Copy, Debug, PartialEq, Eq)]
pub enum Refusal {
    /// Not a line of the grammar.
    BadLine,
    /// No group has this name.
    NoGroup,
    /// A group has this name.
    Exists,
    /// There are 256 groups.
    GroupLimit,
    /// Already a member, or twice in a list.
    Member,
    /// Not a member.
    NotMember,
    /// The group has 256 members, or a list has more than 256.
    RingFull,
    /// No members.
    Empty,
    /// 1000 terms were started.
    TermLimit,
    /// No term was started.
    NoTerm,
    /// Not in the ring of the last term.
    NotInTerm,
    /// The algorithm sends nothing that arrives from the right.
    OneWay,
    /// An allocation failed.
    NoMemory,
    /// The seat has used up its turns at the table.
    SeatSpent,
}

impl Refusal {
    /// The number of this refusal, counted from 1. Documents order refusals by it.
    pub fn number(self) -> u8
        ensures { result ≡ number_in_table self }
    {
        match self {
            Refusal::BadLine => 1,
            Refusal::NoGroup => 2,
            Refusal::Exists => 3,
            Refusal::GroupLimit => 4,
            Refusal::Member => 5,
            Refusal::NotMember => 6,
            Refusal::RingFull => 7,
            Refusal::Empty => 8,
            Refusal::TermLimit => 9,
            Refusal::NoTerm => 10,
            Refusal::NotInTerm => 11,
            Refusal::OneWay => 12,
            Refusal::NoMemory => 13,
            Refusal::SeatSpent => 14,
        }
    }

    /// The word of this refusal in a reply line.
    pub fn word(self) -> &'static [u8]
        ensures { result.now ≡ word_in_table self }
    {
        match self {
            Refusal::BadLine => b"bad-line",
            Refusal::NoGroup => b"no-group",
            Refusal::Exists => b"exists",
            Refusal::GroupLimit => b"group-limit",
            Refusal::Member => b"member",
            Refusal::NotMember => b"not-member",
            Refusal::RingFull => b"ring-full",
            Refusal::Empty => b"empty",
            Refusal::TermLimit => b"term-limit",
            Refusal::NoTerm => b"no-term",
            Refusal::NotInTerm => b"not-in-term",
            Refusal::OneWay => b"one-way",
            Refusal::NoMemory => b"no-memory",
            Refusal::SeatSpent => b"seat-spent",
        }
    }
}
