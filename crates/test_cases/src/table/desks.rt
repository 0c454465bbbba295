//! Tables that one caller calls: alone, by a turn lock with one seat, or by a locked table.
ghost use Rattle.std.specs.Prelude.{◌≡◌, ◌*◌, ◌≤◌, ◌<◌, ◌^◌, []};
ghost use Rattle.ring_turn.specs.Seats.{fresh_seats};

use crate::memory::{TWICE, with_room};
use ring_election::RingElection;
use ring_events::{Command, Reply};
use ring_id::{GroupName, NoMemory, Refusal};
use ring_node::{Charter, Report};
use ring_table::{Access, Answer, Filed, LockedSeat, LockedTable, Table, is_starved};
use ring_turn::{Seat, TurnLock};
use std::alloc::Global;
use std::marker::Model;
use std::process::Abort;
use std::sync::{Arc, Wait};

/// A table, and how its one caller calls it.
pub trait Desk<E: RingElection>: Drop {
    /// Carries out a command of a session.
    fn call<R: Abort + Wait>(&mut self, rt: &R, session: u32, command: Command<E>) -> Answer;

    /// Starts a term. Returns the answer with `copies` clones of the term's charter.
    fn begin<R: Abort + Wait>(
        &mut self,
        rt: &R,
        group: GroupName,
        copies: usize,
    ) -> (Answer, Vec<Arc<Charter<E>>>);

    /// Files a report.
    fn report<R: Abort + Wait>(&mut self, rt: &R, report: &Report<E>) -> Filed;
}

// The answer to a call of a table, if this is its reply.
fn placed<E: RingElection>(table: &Table<E>, reply: Reply) -> Answer {
    if is_starved(&reply) {
        drop(reply);
        return Answer::Unplaced(Refusal::NoMemory);
    }
    let place = table.history().len();
    Answer::Placed { reply, place }
}

impl<E: RingElection> Desk<E> for Table<E> {
    fn call<R: Abort + Wait>(&mut self, _rt: &R, session: u32, command: Command<E>) -> Answer {
        let reply = Table::call(self, session, command);
        placed(self, reply)
    }

    fn begin<R: Abort + Wait>(
        &mut self,
        _rt: &R,
        group: GroupName,
        copies: usize,
    ) -> (Answer, Vec<Arc<Charter<E>>>) {
        let (reply, charters) = Table::begin(self, 1, group, copies);
        (placed(self, reply), charters)
    }

    fn report<R: Abort + Wait>(&mut self, _rt: &R, report: &Report<E>) -> Filed {
        Table::report(self, report)
    }
}

/// Returns a locked table without groups, and its seats.
pub fn new_locked<E: RingElection>(
    rt: &impl Abort,
    alloc: Global,
    seats: usize,
) -> (LockedTable<E>, Vec<LockedSeat<E>>)
    requires { 1 ≤ seats }
{
    match LockedTable::new(alloc, Table::new(alloc), seats) {
        Ok(made) => made,
        Err(NoMemory) => LockedTable::new(alloc, Table::new(alloc), seats).expect(rt, TWICE),
    }
}

/// A locked table with one seat.
#[derive(Drop)]
pub struct LockedDesk<E: RingElection> {
    table: LockedTable<E>,
    seat: LockedSeat<E>,
}

impl<E: RingElection> LockedDesk<E> {
    /// Returns a locked table without groups.
    pub fn new(rt: &impl Abort, alloc: Global) -> LockedDesk<E> {
        let (table, mut seats) = new_locked(rt, alloc, 1);
        let seat = seats.pop().expect(rt, "no seat");
        drop(seats);
        LockedDesk { table, seat }
    }
}

impl<E: RingElection> Desk<E> for LockedDesk<E> {
    fn call<R: Abort + Wait>(&mut self, rt: &R, session: u32, command: Command<E>) -> Answer {
        self.table.call(rt, &mut self.seat, session, command)
    }

    fn begin<R: Abort + Wait>(
        &mut self,
        rt: &R,
        group: GroupName,
        copies: usize,
    ) -> (Answer, Vec<Arc<Charter<E>>>) {
        self.table.begin(rt, &mut self.seat, 1, group, copies)
    }

    fn report<R: Abort + Wait>(&mut self, rt: &R, report: &Report<E>) -> Filed {
        self.table.report(rt, &mut self.seat, report)
    }
}

/// A turn lock with one seat.
#[derive(Drop)]
pub struct TurnDesk<E: RingElection> {
    lock: TurnLock<E>,
    seat: Seat<E>,
}

impl<E: RingElection> Model for TurnDesk<E> {
    ghost use Rattle.std.specs.Prelude.{◌≡◌, ℕ};

    ghost Value = { ℕ };

    ghost view = { λ desk. desk.lock.seats };

    ghost invariant = { λ desk.
        (desk.lock.seats ≡ 1) × (desk.seat.lock ≡ desk.lock.id) × (desk.seat.number ≡ 0) };
}

/// Returns a turn lock over a table without groups, and its seats, which have `turns` turns each.
pub fn new_lock<E: RingElection>(
    rt: &impl Abort,
    alloc: Global,
    seats: usize,
    turns: u64,
) -> (TurnLock<E>, Vec<Seat<E>>)
    requires some { (0 < seats) × (0 < turns) }
    requires few { seats * turns < 2 ^ 64 }
    ensures seats { result.0.seats ≡ seats }
    ensures fresh { result.1.items ≡ fresh_seats result.0.id turns [] seats }
{
    match TurnLock::new(alloc, Table::new(alloc), seats, turns) {
        Ok(opened) => opened,
        Err(NoMemory) => TurnLock::new(alloc, Table::new(alloc), seats, turns).expect(rt, TWICE),
    }
}

impl<E: RingElection> TurnDesk<E> {
    /// Returns a turn lock over a table without groups.
    pub fn new(rt: &impl Abort, alloc: Global, turns: u64) -> TurnDesk<E>
        requires { (0 < turns) × (turns < 2 ^ 64) }
    {
        let (lock, mut seats) = new_lock(rt, alloc, 1, turns);
        let seat = seats.pop().expect(rt, "no seat");
        drop(seats);
        TurnDesk { lock, seat }
    }

    /// Closes the lock and returns the table.
    pub fn close(self, rt: &impl Abort, alloc: Global) -> Table<E> {
        let TurnDesk { lock, seat } = self;
        let mut all = with_room(rt, alloc, 1);
        all.push_reserved(seat);
        lock.close(all)
    }
}

impl<E: RingElection> Desk<E> for TurnDesk<E> {
    fn call<R: Abort + Wait>(&mut self, rt: &R, session: u32, command: Command<E>) -> Answer {
        self.lock.call(rt, &mut self.seat, session, command)
    }

    fn begin<R: Abort + Wait>(
        &mut self,
        rt: &R,
        group: GroupName,
        copies: usize,
    ) -> (Answer, Vec<Arc<Charter<E>>>) {
        self.lock.begin(rt, &mut self.seat, 1, group, copies)
    }

    fn report<R: Abort + Wait>(&mut self, rt: &R, report: &Report<E>) -> Filed {
        self.lock.report(rt, &mut self.seat, report)
    }
}
