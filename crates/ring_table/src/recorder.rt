ghost use Rattle.std.specs.Prelude.{◌≡◌, ◌<◌, ◌≤◌, ◌++◌, ◌∷◌, [], length, ◌↔◌, IsTrue, OnOk};
ghost use Rattle.ring_table.specs.Accesses.{filing};
ghost use Rattle.ring_table.specs.Histories.{IsLegal};
ghost use Rattle.ring_table.specs.declared.entry.Entry.TheVariants as entry;

use crate::trace::Trace;
use ring_election::RingElection;
use ring_events::{Command, Reply};
use ring_id::NoMemory;
use ring_node::Report;
use ring_terms::{Book, Noting};
use std::alloc::Global;
use std::marker::Model;
use std::sync::Wait;

/// Keeps the entries of a table: in memory, in another place, or not at all.
///
/// Contracts see the entries that were recorded, in order, for how many more there is room, and how
/// many of the first ones are kept for good.
pub trait Recorder<E: RingElection> {
    ghost use Rattle.std.specs.Prelude.{List, ℕ};
    ghost use Rattle.ring_table.specs.declared.entry.Entry.{Entry};

    // the entries that were recorded, in order
    ghost entries: { Self → List (Entry E) };

    // there are always fewer entries than this
    ghost most: { ℕ };

    // for how many more entries there is room
    ghost room: { Self → ℕ };

    // how many of the first entries are kept for good
    ghost sure: { Self → ℕ };

    /// Returns the number of entries. Does not allocate.
    fn count(&self) -> usize
        ensures value { result ≡ length (entries self.now) }
        ensures within { length (entries self.now) < most };

    /// Finds room for one more entry. The entries stay as they were. Fails only if an allocation
    /// fails, or if there are as many entries as there may be.
    fn reserve(&mut self) -> Result<(), NoMemory>
        ensures items { entries self.new ≡ entries self.old }
        ensures room { OnOk result (0 < room self.new) }
        ensures sure { sure self.old ≤ sure self.new };

    /// Records a session's command and its reply as the last entry. There must be room for it.
    fn record_call(&mut self, session: u32, command: Command<E>, reply: &Reply)
        requires { 0 < room self.old }
        ensures added { entries self.new
            ≡ entries self.old ++ entry.Call session command reply.now ∷ [] }
        ensures sure { sure self.old ≤ sure self.new };

    /// Records a report and what became of it as the last entry. There must be room for it.
    fn record_filing(&mut self, report: &Report<E>, noting: Noting)
        requires { 0 < room self.old }
        ensures added { entries self.new ≡ entries self.old ++ filing report.now noting ∷ [] }
        ensures sure { sure self.old ≤ sure self.new };

    /// Returns whether all entries are kept for good. Does not allocate.
    fn is_settled(&self) -> bool
        ensures { IsTrue result ↔ (sure self.now ≡ length (entries self.now)) };

    /// Has all entries kept for good. It may wait, and does not return if they cannot be kept.
    fn settle<R: Wait>(&mut self, rt: &R)
        ensures items { entries self.new ≡ entries self.old }
        ensures sure { sure self.old ≤ sure self.new }
        ensures all { length (entries self.new) ≤ sure self.new };

    /// Keeps the entries in less space, if that is due: `book` is what they lead to. It may wait,
    /// and does not return if they cannot be kept.
    fn shorten<R: Wait>(&mut self, rt: &R, alloc: Global, book: &Book<E>)
        requires { IsLegal E.is_two_way E.is_greatest (entries self.old) book.now }
        ensures items { entries self.new ≡ entries self.old }
        ensures sure { sure self.old ≤ sure self.new };
}

/// A recorder that keeps the number of entries and nothing else. Its size does not grow.
///
/// There is nothing to settle: each entry counts as kept for good.
///
/// Contracts see its entries and the room for more.
#[derive(Drop)]
pub struct Unkept<E> {
    // a list of values without bytes never allocates
    entries: Vec<Trace<E>>,
}

impl<E> Model for Unkept<E> {
    ghost use Rattle.std.specs.Prelude.{◌-◌, vec_capacity, vec_len};
    ghost use Rattle.ring_table.specs.Recorders.{UnkeptView};

    ghost Value = { UnkeptView E };

    ghost view = { λ a. record {
      items = a.entries.items;
      room = vec_capacity a.entries - vec_len a.entries;
    } };
}

impl<E> Unkept<E> {
    /// Returns a recorder without entries. Does not allocate.
    pub fn new(alloc: Global) -> Unkept<E>
        ensures { result.items ≡ [] }
    {
        Unkept {
            entries: Vec::new(alloc),
        }
    }
}

impl<E: RingElection> Recorder<E> for Unkept<E> {
    ghost use Rattle.std.specs.Prelude.{◌^◌, length};

    ghost entries = { λ a. a.items };

    ghost most = { 2 ^ 64 };

    ghost room = { λ a. a.room };

    ghost sure = { λ a. length a.items };

    fn count(&self) -> usize {
        self.entries.len()
    }

    fn reserve(&mut self) -> Result<(), NoMemory> {
        self.entries.reserve(1)?;
        Ok(())
    }

    fn record_call(&mut self, session: u32, command: Command<E>, reply: &Reply)
        requires { 0 < self.old.room }
        ensures added { self.new.items
            ≡ self.old.items ++ entry.Call session command reply.now ∷ [] }
        ensures sure { length self.old.items ≤ length self.new.items }
    {
        self.entries
            .push_reserved(Trace::of_call(session, command, reply));
    }

    fn record_filing(&mut self, report: &Report<E>, noting: Noting)
        requires { 0 < self.old.room }
        ensures added { self.new.items ≡ self.old.items ++ filing report.now noting ∷ [] }
        ensures sure { length self.old.items ≤ length self.new.items }
    {
        self.entries.push_reserved(Trace::of_filing(report, noting));
    }

    fn is_settled(&self) -> bool {
        true
    }

    fn settle<R: Wait>(&mut self, _rt: &R) {}

    fn shorten<R: Wait>(&mut self, _rt: &R, _alloc: Global, _book: &Book<E>) {}
}
