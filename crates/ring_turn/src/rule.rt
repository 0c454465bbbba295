//! The table of words and one slot under a turn lock, its rule, and the names of its steps.

use crate::held::HeldTable;
use crate::view::TokenView;
use atomic_table::{Join, Play, Seat, Split, TableRule};
use ring_election::RingElection;
use ring_table::Tabled;
use std::alloc::Global;
use std::marker::PhantomData;
use std::snapshot::Snapshot;

// The words: tickets drawn, tickets served, and how many of the first entries are known to be kept
// for good. And the one slot.
pub(crate) const DRAWN: usize = 0;

pub(crate) const SERVED: usize = 1;

pub(crate) const KEPT: usize = 2;

pub(crate) const TABLE_SLOT: usize = 0;

pub(crate) type TableSlot<E, T> = Option<HeldTable<E, T>>;

pub(crate) type Board<E, T> = atomic_table::Table<
    TableSlot<E, T>,
    TokenView<E>,
    Start<E, T>,
    InTurn,
    Global,
>;

pub(crate) type SeatToken<E, T> = Seat<TableSlot<E, T>, TokenView<E>>;

// The start of a lock: the number of turns in all, the number of turns of each seat, and the table.
#[derive(Drop)]
pub struct Start<E: RingElection, T: Tabled<E> + Drop> {
    pub(crate) limit: u64,
    pub(crate) turns: u64,
    pub(crate) table: Snapshot<T>,
    pub(crate) of: PhantomData<E>,
}

// The rule.
pub struct InTurn;

impl<E: RingElection, T: Tabled<E> + Drop> TableRule<
    Option<HeldTable<E, T>>,
    TokenView<E>,
    Start<E, T>,
> for InTurn {
    ghost use Rattle.ring_turn.specs.private.Rule.{Keeps};
    ghost use Rattle.ring_turn.specs.private.Steps.{maker};

    ghost holds = { λ _. Keeps };

    ghost first = { λ start. maker start.limit 0 start.turns (T.shows start.table.value).history };
}

// A seat draws a ticket.
pub struct Draws;

impl<E: RingElection, T: Tabled<E> + Drop> Play<Option<HeldTable<E, T>>, TokenView<E>> for Draws {
    ghost use Rattle.ring_turn.specs.private.Steps.{Draws as IsDraw};

    ghost then = { IsDraw };
}

// A seat looks whether its turn has come. If so, it takes the slot.
pub struct Looks;

impl<E: RingElection, T: Tabled<E> + Drop> Play<Option<HeldTable<E, T>>, TokenView<E>> for Looks {
    ghost use Rattle.ring_turn.specs.private.Steps.{Looks as IsLook};

    ghost then = { IsLook };
}

// A seat gives the slot back with the entries that it added, and serves the next.
pub struct Serves;

impl<E: RingElection, T: Tabled<E> + Drop> Play<Option<HeldTable<E, T>>, TokenView<E>> for Serves {
    ghost use Rattle.ring_turn.specs.private.Steps.{Serves as IsService};

    ghost then = { IsService };
}

// A seat stores how many entries it knows to be kept for good.
pub struct Tells;

impl<E: RingElection, T: Tabled<E> + Drop> Play<Option<HeldTable<E, T>>, TokenView<E>> for Tells {
    ghost use Rattle.ring_turn.specs.private.Steps.{Tells as IsTelling};

    ghost then = { IsTelling };
}

// A seat reads how many entries are stored as kept for good.
pub struct Learns;

impl<E: RingElection, T: Tabled<E> + Drop> Play<Option<HeldTable<E, T>>, TokenView<E>> for Learns {
    ghost use Rattle.ring_turn.specs.private.Steps.{Learns as IsLearning};

    ghost then = { IsLearning };
}

// The maker makes a seat.
pub struct Makes;

impl<E> Split<TokenView<E>> for Makes {
    ghost use Rattle.ring_turn.specs.private.Steps.{gave, newcomer};

    ghost left = { gave };

    ghost right = { λ v. newcomer v.turns v.made v.opening };
}

// A seat is joined to the maker.
pub struct Joins;

impl<E> Join<TokenView<E>> for Joins {
    ghost use Rattle.ring_turn.specs.private.Steps.{joined, nobody};

    ghost both = { joined };

    ghost spent = { nobody };
}
