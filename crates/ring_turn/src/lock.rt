//! How a turn lock is opened over a table, and how it is closed.
ghost use Rattle.std.specs.Prelude.{◌≡◌, ℕ, ◌*◌, ◌^◌, ◌<◌, IfOk};
ghost use Rattle.ring_turn.specs.Calls.{AreKept, Closes};
ghost use Rattle.ring_turn.specs.Seats.{HasAllSeats, fresh_seats};
ghost use Rattle.ring_turn.specs.private.Seats.{IsOpened};

use crate::held::HeldTable;
use crate::queue::Queue;
use crate::rule::{Board, Joins, Makes, SeatToken, Start, TABLE_SLOT};
use crate::seat::Seat;
use crate::turn::put_back;
use ring_election::RingElection;
use ring_id::NoMemory;
use ring_table::{Table, Tabled};
use std::alloc::Global;
use std::marker::{Model, PhantomData};
use std::snapshot::Snapshot;

/// A table that many threads call in turns.
///
/// It is a ticket lock (Mellor-Crummey and Scott, "Algorithms for scalable synchronization on
/// shared-memory multiprocessors", 1991). A call draws a ticket and waits until that ticket is
/// served. It takes the table from its slot, performs the call, puts the table back and serves the
/// next ticket. If a seat holds the table, several calls are made before it is put back.
///
/// Callers first queue at a plain lock, so that the thread with the next ticket is a running one.
/// Contracts see the identity of the lock, its number of seats, and the history that it was opened
/// with.
#[derive(Drop)]
pub struct TurnLock<E: RingElection, T: Tabled<E> + Drop = Table<E>> {
    pub(crate) alloc: Global,
    pub(crate) board: Board<E, T>,
    pub(crate) maker: SeatToken<E, T>,
    pub(crate) queue: Queue,
}

impl<E: RingElection, T: Tabled<E> + Drop> Model for TurnLock<E, T> {
    ghost use Rattle.ring_turn.specs.Seats.{LockView, lock_of};
    ghost use Rattle.ring_turn.specs.private.Seats.{IsMaker};

    ghost Value = { LockView E };

    ghost view = { λ lock. lock_of lock.board.shared.table_id lock.maker.me.0 };

    ghost invariant = { λ lock.
        IsMaker lock.board.shared.table_id lock.maker.table_id lock.maker.me };
}

impl<E: RingElection, T: Tabled<E> + Drop> TurnLock<E, T> {
    /// Opens a lock over a table, with `seats` seats, numbered from 0, that have `turns` turns
    /// each.
    ///
    /// Both numbers are at least 1, and their product is below 2^64. Fails only if an allocation
    /// fails. Then the table is dropped.
    pub fn new(
        alloc: Global,
        table: T,
        seats: usize,
        turns: u64,
    ) -> Result<(TurnLock<E, T>, Vec<Seat<E, T>>), NoMemory>
        requires some { (0 < seats) × (0 < turns) }
        requires few { seats * turns < 2 ^ 64 }
        ensures opened { IfOk result (λ made.
            (made.0.seats ≡ seats) × (made.0.opening ≡ (T.shows table).history)) }
        ensures seats { IfOk result (λ made.
            made.1.items ≡ fresh_seats made.0.id turns (T.shows table).history seats) }
    {
        let Ok(mut all) = Vec::with_capacity(alloc, seats) else {
            drop(table);
            return Err(NoMemory);
        };
        let Ok((board, mut maker)) = open(alloc, table, seats, turns) else {
            return Err(NoMemory);
        };
        for _ in 0..seats {
            let token = board.shared.split_seat::<Makes>(&mut maker);
            all.push_reserved(Seat {
                token,
                left: turns,
                owes: 0,
                holds: false,
                hand: None,
            });
        }
        let lock = TurnLock {
            alloc,
            board,
            maker,
            queue: Queue::new(),
        };
        Ok((lock, all))
    }

    /// Ends the lock, with all its seats, and returns its table. Does not allocate.
    ///
    /// The table's history is the one that the lock was opened with, followed by the entries that
    /// the seats made. It has each seat's entries, each once, in the seat's order, and no others.
    /// It begins with all that any seat has seen. If a seat knows that an entry is kept for good,
    /// the table keeps it for good. Each seat must be one of this lock, and none may be missing.
    pub fn close(self, seats: Vec<Seat<E, T>>) -> T
        requires { HasAllSeats self seats.items }
        ensures closes { Closes E.is_two_way E.is_greatest self seats.items (T.shows result) }
        ensures kept { AreKept seats.items (T.sure result) }
    {
        let TurnLock {
            alloc: _,
            board,
            mut maker,
            queue: _,
        } = self;
        let mut rest = seats;
        while let Some(seat) = rest.pop() {
            let Seat {
                mut token,
                left: _,
                owes: _,
                holds: _,
                hand,
            } = seat;
            put_back(&board, &mut token, hand);
            board.shared.join_seat::<Joins>(&mut maker, token);
        }
        let mut closed = board.close_with(maker);
        let Some(held) = closed.take(TABLE_SLOT) else {
            unreachable!()
        };
        closed.free();
        let table = held.into_table();
        let _ = table.count();
        table
    }
}

// Makes the table with its words and its slot, and the token that makes the seats.
fn open<E: RingElection, T: Tabled<E> + Drop>(
    alloc: Global,
    table: T,
    seats: usize,
    turns: u64,
) -> Result<(Board<E, T>, SeatToken<E, T>), NoMemory>
    requires few { seats * turns < 2 ^ 64 }
    ensures { IfOk result (λ made. IsOpened seats turns (T.shows table).history
        made.0.shared.table_id made.1.table_id made.1.me) }
{
    let start = Start {
        limit: seats as u64 * turns,
        turns,
        table: Snapshot::of(&table),
        of: PhantomData,
    };
    let table = HeldTable::new(alloc, table)?;
    let Ok(mut contents) = Vec::with_capacity(alloc, 1) else {
        drop(table);
        drop(start);
        return Err(NoMemory);
    };
    contents.push_reserved(Some(table));
    let made = Board::new(alloc, &[0, 0, 0], contents, &start);
    drop(start);
    match made {
        Ok(made) => Ok(made),
        Err(refused) => {
            drop(refused);
            Err(NoMemory)
        }
    }
}
