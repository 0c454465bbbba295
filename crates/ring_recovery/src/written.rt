//! The recorder that writes changes to a journal.
ghost use Rattle.std.specs.Prelude.{◌≡◌, ◌↔◌, ◌<◌, ◌≤◌, ◌^◌, ◌++◌, ◌∷◌, [], length, All, Err, IsTrue, None, OnOk};
ghost use Rattle.ring_journal.specs.Journals.{Adds, settled};
ghost use Rattle.ring_journal.specs.declared.medium.Fault.TheVariants as fault;
ghost use Rattle.ring_table.specs.Accesses.{filing};
ghost use Rattle.ring_table.specs.declared.entry.Entry.TheVariants as entry;
ghost use Rattle.ring_change.specs.Changes.{change_by};
ghost use Rattle.ring_change.specs.Checks.{first_check};
ghost use Rattle.ring_change.specs.Lines.{check_behind, marked_line};
ghost use Rattle.ring_change.specs.Spelling.{IsChange};
ghost use Rattle.ring_lives.specs.Changes.{change_in, changes_of};
ghost use Rattle.ring_recovery.specs.JournalLines.{check_of, journal_lines};
ghost use Rattle.ring_any.specs.Any.{any_greatest, any_two_way};
ghost use Rattle.ring_table.specs.Histories.{IsLegal};
ghost use Rattle.ring_recovery.specs.Written.{AreLinesOf, IsRewritten, LeavesEither, LeavesFirst};

use crate::alarm::{Alarm, Ending};
use crate::life::Life;
use crate::short::shorter;
use ring_any::Any;
use ring_change::{Change, Check, Line, change_of, change_of_filing, spell_line};
use ring_events::{Command, Reply};
use ring_id::NoMemory;
use ring_journal::{Fault, Journal, Medium, RoomFault};
use ring_lives::{follows_replays, replays_exact};
use ring_node::Report;
use ring_table::{Recorder, Unkept};
use ring_terms::{Book, Noting};
use std::alloc::Global;
use std::marker::Model;
use std::sync::{Arc, Wait};

/// The greatest number of bytes that the line of a change takes with its LF.
const LONGEST: usize = Line::LONGEST + 1;

/// The greatest number of entries of a life, so that places of different lives differ.
const ENTRIES: usize = (1 << 44) - 1;

/// A recorder that writes the changes of its entries to a journal. It keeps no entry in memory.
///
/// The journal is rewritten once it has 256 KiB and is twice as long as it was. The changes that
/// lead to the groups must take at most half of it. This is tested, not proved.
///
/// There are fewer than 2^44 entries. Then there is no room for one more.
///
/// Contracts see its entries in order, and for how many more there is room. They see how many of
/// the first entries are kept for good, the journal, and the number of its life.
#[derive(Drop)]
pub struct Written<D: Medium + Drop> {
    pub(crate) entries: Unkept<Any>,
    pub(crate) journal: Journal<D>,
    // the check after the last line
    pub(crate) check: Check,
    // how many of the first entries are kept for good
    pub(crate) sure: usize,
    life: Life,
    // how many bytes the lines take
    pub(crate) size: usize,
    // how many bytes they took when the journal was begun, or when a rewrite was last tried
    pub(crate) mark: usize,
    pub(crate) alarm: Arc<Alarm>,
}

impl<D: Medium + Drop> Model for Written<D> {
    ghost use Rattle.std.specs.Prelude.{◌-◌, ◌/◌, ◌^◌, length, min};
    ghost use Rattle.ring_recovery.specs.Written.{WrittenView};
    ghost use Rattle.ring_recovery.specs.private.Invariant.{IsWritten};

    ghost Value = { WrittenView };

    ghost view = { λ a. record {
      items = a.entries.items;
      room = min
          (2 ^ 44 - 1 - length a.entries.items)
          (min a.entries.room (a.journal.room / 71));
      sure = a.sure;
      journal = a.journal;
      life = a.life;
    } };

    ghost invariant = { λ a. IsWritten a.life a.entries.items a.journal a.check a.sure };
}

// Adds the line of a change to a journal that has room for it. Returns how many bytes it takes. It
// is not inlined, so that the code for a question stays short.
#[inline(never)]
fn add_line<D: Medium + Drop>(
    journal: &mut Journal<D>,
    check: &mut Check,
    change: &Change<Any>,
) -> usize
    requires room { 71 ≤ journal.old.room }
    ensures added { Adds journal.old (marked_line check.old change.now) journal.new }
    ensures check { check.new ≡ check_behind check.old change.now }
    ensures legal { IsChange change.now }
{
    let line = spell_line(change, check);
    journal.add_reserved(line.as_slice());
    line.as_slice().len() + 1
}

impl<D: Medium + Drop> Written<D> {
    /// Returns a recorder of entries whose changes are the lines of a journal, all of them settled.
    /// They take `size` bytes. Does not allocate.
    pub(crate) fn new(
        entries: Unkept<Any>,
        journal: Journal<D>,
        check: Check,
        life: Life,
        size: usize,
        alarm: Arc<Alarm>,
    ) -> Written<D>
        requires few { length entries.items < 2 ^ 44 }
        requires lines { journal.lines ≡ journal_lines life (changes_of entries.items) }
        requires legal { All IsChange (changes_of entries.items) }
        requires check { check ≡ check_of first_check (changes_of entries.items) }
        requires settled { settled journal ≡ length journal.lines }
        ensures items { result.items ≡ entries.items }
        ensures sure { result.sure ≡ length entries.items }
        ensures journal { result.journal ≡ journal }
        ensures life { result.life ≡ life }
    {
        // for its law: the number of a life is legal
        let _counted = life.get();
        let sure = entries.count();
        Written {
            entries,
            journal,
            check,
            sure,
            life,
            size,
            mark: size,
            alarm,
        }
    }

    /// Returns the journal. The other clauses are laws of every recorder, about the lines of its
    /// journal and about a crash that comes now.
    pub fn journal(&self) -> &Journal<D>
        ensures value { result.now ≡ self.now.journal }
        ensures lines { AreLinesOf self.now.life self.now.items self.now.journal.lines }
        ensures any_moment { LeavesFirst self.now self.now }
    {
        // for its law on crashes
        let _pending = self.journal.pending();
        &self.journal
    }

    /// Settles the journal, so that all entries are kept for good.
    ///
    /// Returns `Failed` if and only if the disk failed, in this call or an earlier one.
    pub fn try_settle(&mut self) -> Result<(), Fault>
        ensures items { self.new.items ≡ self.old.items }
        ensures sure { self.old.sure ≤ self.new.sure }
        ensures ok { OnOk result (self.new.sure ≡ length self.new.items) }
        ensures failed { (result ≡ Err fault.Failed) ↔ IsTrue self.new.journal.is_broken }
        ensures life { self.new.life ≡ self.old.life }
        ensures any_moment { LeavesFirst self.old self.new }
    {
        self.journal.settle()?;
        self.sure = self.entries.count();
        Ok(())
    }

    // Makes room for one more line. If the batch of the journal is full, its lines are settled
    // first.
    fn reserve_line(&mut self) -> Result<(), NoMemory>
        ensures items { self.new.items ≡ self.old.items }
        ensures room { OnOk result (71 ≤ self.new.journal.room) }
        ensures sure { self.old.sure ≤ self.new.sure }
        ensures life { self.new.life ≡ self.old.life }
        ensures any_moment { LeavesFirst self.old self.new }
    {
        match self.journal.reserve(LONGEST) {
            Ok(()) => Ok(()),
            Err(RoomFault::NoMemory) => Err(NoMemory),
            Err(RoomFault::Full) => self.reserve_settled(),
        }
    }

    // Settles the journal, and makes room for one more line.
    fn reserve_settled(&mut self) -> Result<(), NoMemory>
        ensures items { self.new.items ≡ self.old.items }
        ensures room { OnOk result (71 ≤ self.new.journal.room) }
        ensures sure { self.old.sure ≤ self.new.sure }
        ensures life { self.new.life ≡ self.old.life }
        ensures any_moment { LeavesFirst self.old self.new }
    {
        let Ok(()) = self.try_settle() else {
            return Err(NoMemory);
        };
        match self.journal.reserve(LONGEST) {
            Ok(()) => Ok(()),
            Err(_) => Err(NoMemory),
        }
    }
}

impl<D: Medium + Drop> Recorder<Any> for Written<D> {
    ghost use Rattle.std.specs.Prelude.{◌^◌};

    ghost entries = { λ a. a.items };

    ghost most = { 2 ^ 44 };

    ghost room = { λ a. a.room };

    ghost sure = { λ a. a.sure };

    /// Returns the number of entries. Does not allocate.
    fn count(&self) -> usize {
        self.entries.count()
    }

    /// Finds room for one more entry and its line. If the batch of the journal is full, its lines
    /// are settled first. Fails if an allocation or the journal fails, or if there are 2^44 - 1
    /// entries.
    #[inline(never)]
    fn reserve(&mut self) -> Result<(), NoMemory>
        ensures items { self.new.items ≡ self.old.items }
        ensures room { OnOk result (0 < self.new.room) }
        ensures sure { self.old.sure ≤ self.new.sure }
        ensures life { self.new.life ≡ self.old.life }
        ensures any_moment { LeavesFirst self.old self.new }
    {
        self.reserve_line()?;
        if self.entries.count() >= ENTRIES {
            return Err(NoMemory);
        }
        self.entries.reserve()
    }

    /// Records a session's command and its reply as the last entry, for which there is room.
    ///
    /// The line of its change is pending then. An entry without a change is kept for good if all
    /// entries before it are.
    #[inline(never)]
    fn record_call(&mut self, session: u32, command: Command<Any>, reply: &Reply)
        requires { 0 < self.old.room }
        ensures added { self.new.items
            ≡ self.old.items ++ entry.Call session command reply.now ∷ [] }
        ensures sure { self.old.sure ≤ self.new.sure }
        ensures kept { change_by command reply.now ≡ None
            → self.old.sure ≡ length self.old.items
            → self.new.sure ≡ length self.new.items }
        ensures disk { self.new.journal.disk ≡ self.old.journal.disk }
        ensures life { self.new.life ≡ self.old.life }
        ensures any_moment { LeavesFirst self.old self.new }
    {
        let was_settled = self.is_settled();
        self.entries.record_call(session, command, reply);
        match change_of(&command, reply) {
            Some(change) => {
                let more = add_line(&mut self.journal, &mut self.check, &change);
                self.size = self.size.saturating_add(more);
            }
            None if was_settled => self.sure = self.entries.count(),
            None => {}
        }
    }

    /// Records a report and the outcome of its filing as the last entry, for which there is room.
    ///
    /// The line of its change is pending then. An entry without a change is kept for good if all
    /// entries before it are.
    fn record_filing(&mut self, report: &Report<Any>, noting: Noting)
        requires { 0 < self.old.room }
        ensures added { self.new.items ≡ self.old.items ++ filing report.now noting ∷ [] }
        ensures sure { self.old.sure ≤ self.new.sure }
        ensures kept { change_in (filing report.now noting) ≡ None
            → self.old.sure ≡ length self.old.items
            → self.new.sure ≡ length self.new.items }
        ensures disk { self.new.journal.disk ≡ self.old.journal.disk }
        ensures life { self.new.life ≡ self.old.life }
        ensures any_moment { LeavesFirst self.old self.new }
    {
        let was_settled = self.is_settled();
        self.entries.record_filing(report, noting);
        match change_of_filing(report, noting) {
            Some(change) => {
                let more = add_line(&mut self.journal, &mut self.check, &change);
                self.size = self.size.saturating_add(more);
            }
            None if was_settled => self.sure = self.entries.count(),
            None => {}
        }
    }

    /// Returns whether all entries are kept for good. Does not allocate. The second clause is a law
    /// of every recorder, for a crash that comes now.
    fn is_settled(&self) -> bool
        ensures settled { IsTrue result ↔ (self.now.sure ≡ length self.now.items) }
        ensures any_moment { LeavesFirst self.now self.now }
    {
        // for its law on crashes
        let _journal = self.journal();
        self.sure == self.entries.count()
    }

    /// Settles the journal, so that all entries are kept for good. If the journal fails, it rings
    /// the alarm and does not return.
    fn settle<R: Wait>(&mut self, rt: &R)
        ensures items { self.new.items ≡ self.old.items }
        ensures sure { self.old.sure ≤ self.new.sure }
        ensures all { self.new.sure ≡ length self.new.items }
        ensures life { self.new.life ≡ self.old.life }
        ensures any_moment { LeavesFirst self.old self.new }
    {
        if self.try_settle().is_ok() {
            return;
        }
        self.alarm.ring(rt, Ending::Failed);
        for _ in rt.forever() {
            self.alarm.doze(rt);
        }
        unreachable!()
    }

    /// Rewrites the journal by the changes that lead to `book`, if it has grown enough and these
    /// take at most half of its bytes. The new text has the same life.
    ///
    /// If an allocation fails, the journal stays as it is. If the journal fails, it rings the alarm
    /// and does not return.
    fn shorten<R: Wait>(&mut self, rt: &R, alloc: Global, book: &Book<Any>)
        requires { IsLegal any_two_way any_greatest self.old.items book.now }
        ensures items { self.new.items ≡ self.old.items }
        ensures sure { self.old.sure ≤ self.new.sure }
        ensures life { self.new.life ≡ self.old.life }
        ensures lines { IsRewritten self.old book.now self.new }
        ensures any_moment { LeavesEither self.old self.new }
    {
        // for its law on crashes
        let _journal = self.journal();
        if !self.is_long() {
            return;
        }
        // for their laws: a history has the effect of its changes, which lead to one book
        follows_replays::<Any>();
        replays_exact::<Any>();
        self.mark = self.size;
        let Some(short) = shorter(alloc, self.life, book, self.size / 2) else {
            return;
        };
        self.rewrite(rt, short);
    }
}
