//! The turn lock of a service, whose answers are noted.
ghost use Rattle.std.specs.Prelude.{◌≡◌, map};
ghost use Rattle.ring_any.specs.Any.{any_greatest, any_two_way, any_winner};
ghost use Rattle.ring_table.specs.Accesses.{AnswersAtSeat, BeginsAtSeat, Reports};
ghost use Rattle.ring_table.specs.Places.{HasPlaceBelow};
ghost use Rattle.ring_turn.specs.Seats.{Settled};

use crate::noting::note_of;
use crate::watching::Watch;
use ring_any::Any;
use ring_events::Command;
use ring_id::GroupName;
use ring_node::{Charter, Filed, Report};
use ring_table::{Access, Answer, QueueHead, Table, Tabled};
use ring_turn::{Seat, TurnLock};
use std::marker::Model;
use std::sync::{Arc, Wait};

/// A turn lock, and the watch that counts and notes its answers.
///
/// It counts each answer that is a refusal. It notes each group that was created and the charter of
/// each term that was started. Other answers take no lock and no atomic of the watch. Contracts see
/// the lock.
#[derive(Drop)]
pub struct Watched<T: Tabled<Any> + Drop = Table<Any>> {
    lock: TurnLock<Any, T>,
    watch: Arc<Watch>,
}

impl<T: Tabled<Any> + Drop> Model for Watched<T> {
    ghost use Rattle.ring_any.specs.declared.any.Any.{Any};
    ghost use Rattle.ring_turn.specs.Seats.{LockView};

    ghost Value = { LockView Any };

    ghost view = { λ watched. watched.lock };
}

impl<T: Tabled<Any> + Drop> Watched<T> {
    /// Returns this lock, whose answers the watch notes. Does not allocate.
    pub fn new(lock: TurnLock<Any, T>, watch: Arc<Watch>) -> Watched<T>
        ensures { result ≡ lock }
    {
        Watched { lock, watch }
    }

    /// Returns the lock. Does not allocate.
    pub fn into_lock(self) -> TurnLock<Any, T>
        ensures { result ≡ self }
    {
        let Watched { lock, watch: _ } = self;
        lock
    }

    // Notes the answer to a command.
    #[inline(always)]
    fn note<R: Wait>(&self, rt: &R, command: &Command<Any>, answer: &Answer) {
        if let Some(note) = note_of(command, answer) {
            self.watch.note(rt, note);
        }
    }
}

impl<T: Tabled<Any> + Drop> Access<Any> for Watched<T> {
    ghost use Rattle.std.specs.Prelude.{◌≡◌};
    ghost use Rattle.ring_turn.specs.Seats.{Settled};

    type Seat = Seat<Any, T>;

    ghost has_seat = { λ watched seat. seat.lock ≡ watched.id };

    ghost mine = { λ seat. seat.mine };

    ghost most = { T.most };

    ghost is_settled = { Settled };

    fn enter_queue<R: Wait>(&self, rt: &R) -> QueueHead<'_> {
        Access::enter_queue(&self.lock, rt)
    }

    fn hold(&self, seat: &mut Seat<Any, T>)
        requires { seat.old.lock ≡ self.now.id }
        ensures { seat.new ≡ seat.old }
    {
        Access::hold(&self.lock, seat);
    }

    fn release(&self, seat: &mut Seat<Any, T>)
        requires { seat.old.lock ≡ self.now.id }
        ensures { seat.new ≡ seat.old }
    {
        Access::release(&self.lock, seat);
    }

    #[inline(always)]
    fn call<R: Wait>(
        &self,
        rt: &R,
        seat: &mut Seat<Any, T>,
        session: u32,
        command: Command<Any>,
    ) -> Answer
        requires { seat.old.lock ≡ self.now.id }
        ensures seat { seat.new.lock ≡ self.now.id }
        ensures entry { AnswersAtSeat any_winner any_two_way any_greatest session command
            seat.old.mine result seat.new.mine }
        ensures place { HasPlaceBelow T.most result }
    {
        let answer = Access::call(&self.lock, rt, seat, session, command);
        self.note(rt, &command, &answer);
        answer
    }

    fn begin<R: Wait>(
        &self,
        rt: &R,
        seat: &mut Seat<Any, T>,
        session: u32,
        group: GroupName,
        copies: usize,
    ) -> (Answer, Vec<Arc<Charter<Any>>>)
        requires { seat.old.lock ≡ self.now.id }
        ensures seat { seat.new.lock ≡ self.now.id }
        ensures entry { BeginsAtSeat any_winner any_two_way any_greatest session group copies
            seat.old.mine result.0 (map (λ charter. charter.value) result.1.items) seat.new.mine }
        ensures place { HasPlaceBelow T.most result.0 }
    {
        let (answer, charters) = Access::begin(&self.lock, rt, seat, session, group, copies);
        self.note(rt, &Command::Start(group), &answer);
        if let Some(charter) = charters.first() {
            self.watch.note_term(rt, charter);
        }
        (answer, charters)
    }

    fn report<R: Wait>(&self, rt: &R, seat: &mut Seat<Any, T>, report: &Report<Any>) -> Filed
        requires { seat.old.lock ≡ self.now.id }
        ensures seat { seat.new.lock ≡ self.now.id }
        ensures entry { Reports any_winner any_greatest report.now seat.old.mine result
            seat.new.mine }
    {
        Access::report(&self.lock, rt, seat, report)
    }

    #[inline(always)]
    fn settle<R: Wait>(&self, rt: &R, seat: &mut Seat<Any, T>)
        requires { seat.old.lock ≡ self.now.id }
        ensures seat { seat.new.lock ≡ self.now.id }
        ensures entries { seat.new.mine ≡ seat.old.mine }
        ensures settled { Settled seat.new }
    {
        Access::settle(&self.lock, rt, seat);
    }
}
