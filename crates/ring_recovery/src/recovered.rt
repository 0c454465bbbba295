ghost use Rattle.std.specs.Prelude.{◌≡◌, ◌<◌, ◌^◌, length, map, All, IfOk};
ghost use Rattle.ring_change.specs.Checks.{first_check};
ghost use Rattle.ring_change.specs.Spelling.{IsChange};
ghost use Rattle.ring_any.specs.Any.{any_greatest, any_two_way};
ghost use Rattle.ring_table.specs.Histories.{IsLegal};
ghost use Rattle.ring_lives.specs.Changes.{changes_of};
ghost use Rattle.ring_recovery.specs.Charters.{running_charters};
ghost use Rattle.ring_recovery.specs.JournalLines.{check_of};
ghost use Rattle.ring_recovery.specs.Recovered.{IsTextOf};

use crate::alarm::Alarm;
use crate::charters::charters_of;
use crate::life::Life;
use crate::replay::Replayed;
use crate::written::Written;
use ring_any::Any;
use ring_change::Check;
use ring_id::NoMemory;
use ring_journal::{Batch, Journal, Medium};
use ring_node::Charter;
use ring_table::Recorded;
use ring_terms::Book;
use std::alloc::Global;
use std::marker::Model;
use std::sync::Arc;

/// A table that was recovered, and the text that its next journal begins with.
///
/// Contracts see its book, its history, the number of the life that it begins, and the text. The
/// text is the heading of this life and the lines of the changes of the history.
#[derive(Drop)]
pub struct Recovered {
    table: Replayed,
    // the check after the last line
    check: Check,
    life: Life,
    text: Batch,
}

impl Model for Recovered {
    ghost use Rattle.ring_recovery.specs.Recovered.{RecoveredView};
    ghost use Rattle.ring_recovery.specs.private.Invariant.{IsRecovered};

    ghost Value = { RecoveredView };

    ghost view = { λ a. record {
      book = a.table.book;
      history = a.table.history;
      life = a.life;
      text = a.text.bytes;
    } };

    ghost invariant = { λ a. IsRecovered a.life a.table.history a.check a.text.bytes };
}

impl Recovered {
    /// Returns a table with the text of its changes. Does not allocate.
    pub(crate) fn new(table: Replayed, check: Check, life: Life, text: Batch) -> Recovered
        requires few { length table.history < 2 ^ 44 }
        requires text { IsTextOf life (changes_of table.history) text.bytes }
        requires legal { All IsChange (changes_of table.history) }
        requires check { check ≡ check_of first_check (changes_of table.history) }
        ensures { result ≡ record {
          book = table.book;
          history = table.history;
          life = life;
          text = text.bytes;
        } }
    {
        Recovered {
            table,
            check,
            life,
            text,
        }
    }

    /// Returns the text that the next journal begins with: the heading of its life, and the lines
    /// of its changes. The other clauses are laws of every recovered table.
    pub fn text(&self) -> &Batch
        ensures value { result.now.bytes ≡ self.now.text }
        ensures lines { IsTextOf self.now.life (changes_of self.now.history) self.now.text }
        ensures changes { All IsChange (changes_of self.now.history) }
        ensures legal { IsLegal any_two_way any_greatest self.now.history self.now.book }
        ensures few { length self.now.history < 2 ^ 44 }
    {
        // the history is legal, as its count says
        let _count = self.table.count();
        &self.text
    }

    /// Returns the life that the next journal begins with.
    pub fn life(&self) -> Life
        ensures { result ≡ self.now.life }
    {
        self.life
    }

    /// Returns the groups and terms. Does not allocate.
    pub fn book(&self) -> &Book<Any>
        ensures { result.now ≡ self.now.book }
    {
        self.table.book()
    }

    /// Returns how many changes were recovered. Does not allocate.
    pub fn count(&self) -> usize
        ensures { result ≡ length self.now.history }
    {
        self.table.count()
    }

    /// Returns the charter of the last term of each group that has one, in order of creation. These
    /// terms are begun again. Fails only if an allocation fails.
    pub fn charters(&self, alloc: Global) -> Result<Vec<Arc<Charter<Any>>>, NoMemory>
        ensures { IfOk result (λ charters.
            map (λ charter. charter.value) charters.items ≡ running_charters self.now.book) }
    {
        charters_of(alloc, self.table.book())
    }

    /// Returns the table over a journal on a medium that holds the text, all of it synced. Does not
    /// allocate.
    ///
    /// All entries are kept for good. If the journal fails, the alarm is rung.
    pub fn open<D: Medium + Drop>(
        self,
        alloc: Global,
        medium: D,
        alarm: Arc<Alarm>,
    ) -> Recorded<Any, Written<D>>
        requires text { (D.moment medium).text ≡ self.text }
        requires kept { (D.moment medium).kept ≡ length self.text }
        ensures { result
            ≡ record { book = self.book; history = self.history; sure = length self.history } }
    {
        let Recovered {
            table,
            check,
            life,
            text,
        } = self;
        let size = text.len();
        drop(text);
        let (book, entries) = table.into_parts();
        let journal = Journal::new(alloc, medium);
        Recorded::resume(
            alloc,
            book,
            Written::new(entries, journal, check, life, size, alarm),
        )
    }
}
