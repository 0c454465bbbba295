ghost use Rattle.std.specs.Prelude.{◌≡◌, ◌<◌, ◌≤◌, [], length, map, ◌↔◌, IsTrue};
ghost use Rattle.ring_events.specs.declared.event.Command.TheVariants as command;
ghost use Rattle.ring_terms.specs.Kept.{IsKept};
ghost use Rattle.ring_table.specs.Histories.{IsLegal};
ghost use Rattle.ring_table.specs.Tables.{Calls, Files, GivesCharters, plain};

use crate::charters::start_shared;
use crate::entry::filed_from;
use crate::recorder::Recorder;
use crate::table::is_starved;
use ring_election::RingElection;
use ring_events::{Command, Reply};
use ring_id::{GroupName, Refusal};
use ring_node::{Charter, Filed, Report};
use ring_terms::Book;
use std::alloc::Global;
use std::marker::Model;
use std::sync::{Arc, Wait};

/// A book of groups and terms, whose history goes to a recorder.
///
/// Contracts see it as a table, its book and the entries that were recorded, and how many of the
/// first entries are kept for good. Its type keeps what a table's type keeps.
#[derive(Drop)]
pub struct Recorded<E: RingElection, H: Recorder<E> + Drop> {
    alloc: Global,
    book: Book<E>,
    recorder: H,
}

impl<E: RingElection, H: Recorder<E> + Drop> Model for Recorded<E, H> {
    ghost use Rattle.ring_table.specs.Tables.{RecordedView};

    ghost Value = { RecordedView E };

    ghost use Rattle.ring_table.specs.Histories.{IsLegal};

    ghost view = { λ a. record {
      book = a.book;
      history = H.entries a.recorder;
      sure = H.sure a.recorder;
    } };

    ghost invariant = { λ a. IsLegal E.is_two_way E.is_greatest (H.entries a.recorder) a.book };
}

impl<E: RingElection, H: Recorder<E> + Drop> Recorded<E, H> {
    /// Returns a table without groups over a recorder without entries. Does not allocate.
    pub fn new(alloc: Global, recorder: H) -> Recorded<E, H>
        requires { H.entries recorder ≡ [] }
        ensures { result ≡ record { book = []; history = []; sure = H.sure recorder } }
    {
        Recorded {
            alloc,
            book: Book::new(alloc),
            recorder,
        }
    }

    /// Returns a table of this book over the recorder of its history. Does not allocate.
    pub fn resume(alloc: Global, book: Book<E>, recorder: H) -> Recorded<E, H>
        requires { IsLegal E.is_two_way E.is_greatest (H.entries recorder) book }
        ensures { result
            ≡ record { book = book; history = H.entries recorder; sure = H.sure recorder } }
    {
        Recorded {
            alloc,
            book,
            recorder,
        }
    }

    /// Returns the book and the recorder. Does not allocate.
    pub fn into_parts(self) -> (Book<E>, H)
        ensures book { result.0 ≡ self.book }
        ensures history { H.entries result.1 ≡ self.history }
        ensures sure { H.sure result.1 ≡ self.sure }
        ensures legal { IsLegal E.is_two_way E.is_greatest self.history self.book }
    {
        let Recorded {
            alloc: _,
            book,
            recorder,
        } = self;
        (book, recorder)
    }

    /// Returns the book.
    pub fn book(&self) -> &Book<E>
        ensures { result.now ≡ self.now.book }
    {
        &self.book
    }

    /// Returns the number of entries. Does not allocate. The other clauses are what every table
    /// keeps.
    pub fn count(&self) -> usize
        ensures value { result ≡ length self.now.history }
        ensures within { length self.now.history < H.most }
        ensures legal { IsLegal E.is_two_way E.is_greatest self.now.history self.now.book }
        ensures kept { IsKept E.winner self.now.book }
    {
        // for its clause on what every book keeps
        let _ = self.book.len();
        self.recorder.count()
    }

    /// Carries out a session's command: one step of the election object, and one entry with its
    /// reply.
    ///
    /// The room for the entry is found first. If that allocation or one of the command fails, the
    /// reply is `NoMemory`, no entry is added and nothing has changed. Every other refusal is an
    /// entry.
    #[inline(always)]
    pub fn call(&mut self, session: u32, command: Command<E>) -> Reply
        ensures called { Calls E.is_two_way E.is_greatest session command
            (plain self.old) result (plain self.new) }
        ensures sure { self.old.sure ≤ self.new.sure }
    {
        let Ok(()) = self.recorder.reserve() else {
            return Reply::Refused(Refusal::NoMemory);
        };
        let reply = self.book.perform(self.alloc, command);
        if is_starved(&reply) {
            return reply;
        }
        self.recorder.record_call(session, command, &reply);
        reply
    }

    /// Starts a term and returns the reply with `copies` clones of the term's charter. They are
    /// made before the start. If no term was started, there are none.
    pub fn begin(
        &mut self,
        session: u32,
        group: GroupName,
        copies: usize,
    ) -> (Reply, Vec<Arc<Charter<E>>>)
        ensures called { Calls E.is_two_way E.is_greatest session (command.Start group)
            (plain self.old) result.0 (plain self.new) }
        ensures sure { self.old.sure ≤ self.new.sure }
        ensures charters { GivesCharters group copies
            result.0 (map (λ charter. charter.value) result.1.items) self.new.book }
    {
        let Ok(()) = self.recorder.reserve() else {
            return (Reply::Refused(Refusal::NoMemory), Vec::new(self.alloc));
        };
        let (reply, charters) = start_shared(self.alloc, &mut self.book, group, copies);
        if is_starved(&reply) {
            return (reply, charters);
        }
        self.recorder
            .record_call(session, Command::Start(group), &reply);
        (reply, charters)
    }

    /// Files a report. What the book makes of it is the answer, and one entry. If the room for the
    /// entry cannot be allocated, the report is refused and nothing has changed.
    pub fn report(&mut self, report: &Report<E>) -> Filed
        ensures files { Files E.is_greatest report.now (plain self.old) result (plain self.new) }
        ensures sure { self.old.sure ≤ self.new.sure }
    {
        let Ok(()) = self.recorder.reserve() else {
            return Filed::Refused(Refusal::NoMemory);
        };
        let noting = self.book.note(report);
        self.recorder.record_filing(report, noting);
        filed_from(noting)
    }

    /// Returns whether all entries are kept for good. Does not allocate.
    pub fn is_settled(&self) -> bool
        ensures { IsTrue result ↔ (self.now.sure ≡ length self.now.history) }
    {
        self.recorder.is_settled()
    }

    /// Has all entries kept for good. It may wait, and does not return if they cannot be kept. Then
    /// the recorder may keep them in less space.
    pub fn settle<R: Wait>(&mut self, rt: &R)
        ensures same { plain self.new ≡ plain self.old }
        ensures sure { self.old.sure ≤ self.new.sure }
        ensures all { length self.new.history ≤ self.new.sure }
    {
        self.recorder.settle(rt);
        self.recorder.shorten(rt, self.alloc, &self.book);
    }
}
