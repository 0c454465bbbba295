ghost use Rattle.std.specs.Prelude.{◌≡◌, ◌<◌, ◌≤◌, length, map, ◌↔◌, IsTrue};
ghost use Rattle.ring_events.specs.declared.event.Command.TheVariants as command;
ghost use Rattle.ring_terms.specs.Kept.{IsKept};
ghost use Rattle.ring_table.specs.Histories.{IsLegal};
ghost use Rattle.ring_table.specs.Tables.{Calls, Files, GivesCharters, plain};

use crate::recorded::Recorded;
use crate::recorder::Recorder;
use crate::table::Table;
use ring_election::RingElection;
use ring_events::{Command, Reply};
use ring_id::GroupName;
use ring_node::{Charter, Filed, Report};
use std::sync::{Arc, Wait};

/// A table whose history is kept, or not, in a way of its own.
///
/// Contracts see its book and its history, as those of a `Table`, and how many of the first entries
/// are kept for good.
pub trait Tabled<E: RingElection> {
    ghost use Rattle.std.specs.Prelude.{ℕ};
    ghost use Rattle.ring_table.specs.Tables.{TableView};

    // the book and the history
    ghost shows: { Self → TableView E };

    // the history always has fewer entries than this
    ghost most: { ℕ };

    // how many of the first entries are kept for good
    ghost sure: { Self → ℕ };

    /// Carries out a session's command, as `Table::call` does.
    fn call(&mut self, session: u32, command: Command<E>) -> Reply
        ensures called { Calls E.is_two_way E.is_greatest session command
            (shows self.old) result (shows self.new) }
        ensures sure { sure self.old ≤ sure self.new };

    /// Starts a term and returns the reply with `copies` clones of its charter, as `Table::begin`
    /// does.
    fn begin(
        &mut self,
        session: u32,
        group: GroupName,
        copies: usize,
    ) -> (Reply, Vec<Arc<Charter<E>>>)
        ensures called { Calls E.is_two_way E.is_greatest session (command.Start group)
            (shows self.old) result.0 (shows self.new) }
        ensures charters { GivesCharters group copies
            result.0 (map (λ charter. charter.value) result.1.items) (shows self.new).book }
        ensures sure { sure self.old ≤ sure self.new };

    /// Files a report, as `Table::report` does.
    fn report(&mut self, report: &Report<E>) -> Filed
        ensures files { Files E.is_greatest report.now (shows self.old) result (shows self.new) }
        ensures sure { sure self.old ≤ sure self.new };

    /// Returns whether all entries are kept for good. Does not allocate.
    fn is_settled(&self) -> bool
        ensures { IsTrue result ↔ (sure self.now ≡ length (shows self.now).history) };

    /// Has all entries kept for good. It may wait, and does not return if they cannot be kept.
    fn settle<R: Wait>(&mut self, rt: &R)
        ensures same { shows self.new ≡ shows self.old }
        ensures sure { sure self.old ≤ sure self.new }
        ensures all { length (shows self.new).history ≤ sure self.new };

    /// Returns the number of entries. Does not allocate. The other clauses are what every table
    /// keeps.
    fn count(&self) -> usize
        ensures value { result ≡ length (shows self.now).history }
        ensures within { length (shows self.now).history < most }
        ensures legal { IsLegal E.is_two_way E.is_greatest (shows self.now).history
            (shows self.now).book }
        ensures kept { IsKept E.winner (shows self.now).book };
}

impl<E: RingElection> Tabled<E> for Table<E> {
    ghost use Rattle.std.specs.Prelude.{◌^◌, length};

    ghost shows = { λ table. table };

    ghost most = { 2 ^ 64 };

    // a history in memory has nothing to settle: each entry counts as kept for good
    ghost sure = { λ table. length table.history };

    fn call(&mut self, session: u32, command: Command<E>) -> Reply
        ensures called { Calls E.is_two_way E.is_greatest session command self.old result self.new }
        ensures sure { length self.old.history ≤ length self.new.history }
    {
        Table::call(self, session, command)
    }

    fn begin(
        &mut self,
        session: u32,
        group: GroupName,
        copies: usize,
    ) -> (Reply, Vec<Arc<Charter<E>>>)
        ensures called { Calls E.is_two_way E.is_greatest session (command.Start group)
            self.old result.0 self.new }
        ensures charters { GivesCharters group copies
            result.0 (map (λ charter. charter.value) result.1.items) self.new.book }
        ensures sure { length self.old.history ≤ length self.new.history }
    {
        Table::begin(self, session, group, copies)
    }

    fn report(&mut self, report: &Report<E>) -> Filed
        ensures files { Files E.is_greatest report.now self.old result self.new }
        ensures sure { length self.old.history ≤ length self.new.history }
    {
        Table::report(self, report)
    }

    fn is_settled(&self) -> bool {
        true
    }

    fn settle<R: Wait>(&mut self, _rt: &R) {}

    fn count(&self) -> usize {
        self.history().len()
    }
}

impl<E: RingElection, H: Recorder<E> + Drop> Tabled<E> for Recorded<E, H> {
    ghost use Rattle.ring_table.specs.Tables.{plain};

    ghost shows = { plain };

    ghost most = { H.most };

    ghost sure = { λ table. table.sure };

    fn call(&mut self, session: u32, command: Command<E>) -> Reply
        ensures called { Calls E.is_two_way E.is_greatest session command
            (plain self.old) result (plain self.new) }
        ensures sure { self.old.sure ≤ self.new.sure }
    {
        Recorded::call(self, session, command)
    }

    fn begin(
        &mut self,
        session: u32,
        group: GroupName,
        copies: usize,
    ) -> (Reply, Vec<Arc<Charter<E>>>)
        ensures called { Calls E.is_two_way E.is_greatest session (command.Start group)
            (plain self.old) result.0 (plain self.new) }
        ensures charters { GivesCharters group copies
            result.0 (map (λ charter. charter.value) result.1.items) self.new.book }
        ensures sure { self.old.sure ≤ self.new.sure }
    {
        Recorded::begin(self, session, group, copies)
    }

    fn report(&mut self, report: &Report<E>) -> Filed
        ensures files { Files E.is_greatest report.now (plain self.old) result (plain self.new) }
        ensures sure { self.old.sure ≤ self.new.sure }
    {
        Recorded::report(self, report)
    }

    fn is_settled(&self) -> bool {
        Recorded::is_settled(self)
    }

    fn settle<R: Wait>(&mut self, rt: &R) {
        Recorded::settle(self, rt);
    }

    fn count(&self) -> usize {
        Recorded::count(self)
    }
}
