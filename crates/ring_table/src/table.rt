ghost use Rattle.std.specs.Prelude.{◌≡◌, ◌↔◌, [], map, IsTrue, OnErr, OnOk, Some};
ghost use Rattle.ring_events.specs.declared.event.Command.TheVariants as command;
ghost use Rattle.ring_node.specs.Nodes.{report_of};
ghost use Rattle.ring_node.specs.declared.charter.Charter.{Charter};
ghost use Rattle.ring_node.specs.Nodes.{IsFaithful};
ghost use Rattle.ring_world.specs.Settlements.{EachReports, IsSettled};
ghost use Rattle.ring_terms.specs.Charters.{running_in};
ghost use Rattle.ring_terms.specs.Kept.{IsKept};
ghost use Rattle.ring_table.specs.Finishing.{AllInformed, Finishes, FilesOne};
ghost use Rattle.ring_table.specs.Histories.{IsLegal, starved};
ghost use Rattle.ring_table.specs.Tables.{Calls, Files, GivesCharters};

use crate::charters::start_shared;
use crate::entry::{Entry, filed_from, is_refused};
use crate::history::History;
use crate::kept::KeptReply;
use ring_election::RingElection;
use ring_events::{Command, Reply};
use ring_id::{GroupName, NoMemory, Refusal};
use ring_node::{Charter, Filed, Node, Report};
use ring_terms::Book;
use std::alloc::Global;
use std::marker::Model;
use std::sync::Arc;

/// A book of groups and terms, and the history of the calls and filings that made it.
///
/// Its type keeps that the history, replayed from no groups at all, gives the book and the replies.
/// A call is a step of the election object. A report that was noted is a step by which that member
/// becomes informed. No reply in it is `NoMemory`.
#[derive(Drop)]
pub struct Table<E: RingElection> {
    alloc: Global,
    book: Book<E>,
    history: History<E>,
}

impl<E: RingElection> Model for Table<E> {
    ghost use Rattle.ring_table.specs.Tables.{TableView};

    ghost Value = { TableView E };

    ghost use Rattle.ring_table.specs.Histories.{IsLegal};

    ghost view = { λ a. record { book = a.book; history = a.history } };

    ghost invariant = { λ a. IsLegal E.is_two_way E.is_greatest a.history a.book };
}

impl<E: RingElection> Table<E> {
    /// Returns a table without groups and entries. Does not allocate.
    pub fn new(alloc: Global) -> Table<E>
        ensures { result ≡ record { book = []; history = [] } }
    {
        Table {
            alloc,
            book: Book::new(alloc),
            history: History::new(alloc),
        }
    }

    /// Returns the book of groups and terms. Does not allocate.
    pub fn book(&self) -> &Book<E>
        ensures { result.now ≡ self.now.book }
    {
        &self.book
    }

    /// Returns all calls and filings so far, in order. Does not allocate. The other clauses are
    /// what every table keeps.
    pub fn history(&self) -> &History<E>
        ensures value { result.now ≡ self.now.history }
        ensures legal { IsLegal E.is_two_way E.is_greatest self.now.history self.now.book }
        ensures kept { IsKept E.winner self.now.book }
    {
        // for its clause on what every book keeps
        let _ = self.book.len();
        &self.history
    }

    /// Carries out a session's command: one step of the election object, and one entry with its
    /// reply.
    ///
    /// The room for the entry is found first. If that allocation or one of the command fails, the
    /// reply is `NoMemory`, no entry is added and nothing has changed. Every other refusal is an
    /// entry.
    pub fn call(&mut self, session: u32, command: Command<E>) -> Reply
        ensures { Calls E.is_two_way E.is_greatest session command self.old result self.new }
    {
        let Ok(()) = self.history.entries.reserve() else {
            return Reply::Refused(Refusal::NoMemory);
        };
        let reply = self.book.perform(self.alloc, command);
        if is_starved(&reply) {
            return reply;
        }
        // the copy allocates only for a list, and a command whose reply is a list changes nothing
        let Ok(kept) = KeptReply::copy_of(self.alloc, &reply) else {
            drop(reply);
            return Reply::Refused(Refusal::NoMemory);
        };
        self.history.entries.push_reserved(Entry::Call {
            session,
            command,
            reply: kept,
        });
        reply
    }

    /// Starts a term and returns the reply with `copies` clones of the term's charter. They are
    /// made before the start. If no term was started, there are none.
    pub fn begin(
        &mut self,
        session: u32,
        group: GroupName,
        copies: usize,
    ) -> (Reply, Vec<Arc<Charter<E>>>)
        ensures called { Calls E.is_two_way E.is_greatest session (command.Start group)
            self.old result.0 self.new }
        ensures charters { GivesCharters group copies
            result.0 (map (λ charter. charter.value) result.1.items) self.new.book }
    {
        let Ok(()) = self.history.entries.reserve() else {
            return (Reply::Refused(Refusal::NoMemory), Vec::new(self.alloc));
        };
        let (reply, charters) = start_shared(self.alloc, &mut self.book, group, copies);
        if is_starved(&reply) {
            return (reply, charters);
        }
        // the copy allocates only for a list, and no reply to a start has one
        let Ok(kept) = KeptReply::copy_of(self.alloc, &reply) else {
            unreachable!()
        };
        self.history.entries.push_reserved(Entry::Call {
            session,
            command: Command::Start(group),
            reply: kept,
        });
        (reply, charters)
    }

    /// Returns no charters, as a list over the table's allocator. Does not allocate.
    pub fn no_charters(&self) -> Vec<Arc<Charter<E>>>
        ensures { result.items ≡ [] }
    {
        Vec::new(self.alloc)
    }

    /// Files a report. What the book makes of it is the answer, and one entry. If the room for the
    /// entry cannot be allocated, the report is refused and nothing has changed.
    pub fn report(&mut self, report: &Report<E>) -> Filed
        ensures { Files E.is_greatest report.now self.old result self.new }
    {
        let Ok(()) = self.history.entries.reserve() else {
            return Filed::Refused(Refusal::NoMemory);
        };
        let noting = self.book.note(report);
        self.history.entries.push_reserved(Entry::Filing {
            group: report.charter().group(),
            term: report.charter().term(),
            member: report.member(),
            leader: report.leader(),
            noting,
        });
        filed_from(noting)
    }

    /// Files the reports of nodes that come back from elsewhere: of each node that knows the leader
    /// of its term, in order.
    ///
    /// If the nodes of a running term are settled, each member of the term is informed afterwards.
    /// For that it is enough that each member of its ring is in a report of these nodes. Fails only
    /// if an allocation fails. Then the reports before that one are filed.
    pub fn finish(&mut self, nodes: &[Node<E>]) -> Result<(), NoMemory>
        ensures files { Finishes E.table E.is_greatest nodes.now self.old result self.new }
        ensures informed { OnOk result ((charter : Charter E) →
            EachReports E.table E.winner charter nodes.now →
            running_in charter.group self.old.book ≡ Some charter →
            AllInformed charter (E.winner charter.algorithm charter.roster) self.new.book) }
        ensures settled { OnOk result ((charter : Charter E) →
            IsSettled E.table charter nodes.now →
            running_in charter.group self.old.book ≡ Some charter →
            AllInformed charter (E.winner charter.algorithm charter.roster) self.new.book) }
    {
        for node in nodes {
            let Ok(()) = self.finish_one(node) else {
                return Err(NoMemory);
            };
        }
        Ok(())
    }

    // Files the report of a node, if it knows the leader.
    fn finish_one(&mut self, node: &Node<E>) -> Result<(), NoMemory>
        ensures ok { OnOk result (
            FilesOne E.is_greatest (report_of E.table node.now) self.old self.new) }
        ensures err { OnErr result (self.new ≡ self.old) }
        ensures faithful { IsFaithful E.table E.fits E.winner node.now }
    {
        // for its clause on what every node keeps
        let _ = node.position();
        let Ok(copy) = Arc::try_clone(node.charter()) else {
            return Err(NoMemory);
        };
        let Some(report) = node.report(copy) else {
            return Ok(());
        };
        if is_refused(&self.report(&report)) {
            return Err(NoMemory);
        }
        Ok(())
    }
}

/// Returns whether a table's reply to a call is `NoMemory`. Does not allocate.
pub fn is_starved(reply: &Reply) -> bool
    ensures { IsTrue result ↔ (reply.now ≡ starved) }
{
    match reply {
        Reply::Refused(refusal) => *refusal == Refusal::NoMemory,
        _ => false,
    }
}
