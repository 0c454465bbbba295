//! Compaction: a recovered table is built again by fewer changes.
ghost use Rattle.std.specs.Prelude.{◌<◌, ◌^◌, length, IfOk, OnOk};
ghost use Rattle.ring_recovery.specs.Compacted.{KeepsBook};
ghost use Rattle.ring_recovery.specs.private.Rebuilding.{AddsChange, IsOf};

use crate::book_changes::changes_of_book;
use crate::life::Life;
use crate::recovered::Recovered;
use crate::recovery::text_of;
use crate::replay::{ReplayFault, Replayed, replay};
use ring_any::Any;
use ring_change::{Change, Check, spell_line};
use ring_id::NoMemory;
use ring_journal::Batch;
use ring_lives::{follows_replays, replays_exact};
use ring_table::{Recorded, Unkept};
use std::alloc::Global;

impl Recovered {
    /// Returns a table of the same groups and terms. If at most half as many changes lead to them,
    /// it is built again by these, and its text is their lines. Otherwise it is this table.
    ///
    /// So joins and leaves do not make a journal grow with each start. This is tested, not proved.
    /// Fails only if an allocation fails.
    pub fn compacted(self, alloc: Global) -> Result<Recovered, NoMemory>
        ensures { IfOk result (KeepsBook self) }
    {
        // for their laws: a history has the effect of its changes, the same changes lead to the
        // same book, and this history is legal
        follows_replays::<Any>();
        replays_exact::<Any>();
        let _text = self.text();
        let Ok(changes) = changes_of_book(alloc, self.book()) else {
            drop(self);
            return Err(NoMemory);
        };
        if changes.len() > self.count() / 2 {
            drop(changes);
            return Ok(self);
        }
        match rebuilt(alloc, self.life(), &changes) {
            Ok(short) => {
                let _short_text = short.text();
                drop(self);
                Ok(short)
            }
            Err(ReplayFault::Refused) => Ok(self),
            Err(ReplayFault::NoMemory) => {
                drop(self);
                Err(NoMemory)
            }
        }
    }
}

// The table of these changes, carried out one after another on a table without groups. It begins
// this life.
fn rebuilt(alloc: Global, life: Life, changes: &[Change<Any>]) -> Result<Recovered, ReplayFault>
    requires { length changes.now < 2 ^ 44 }
    ensures { IfOk result (IsOf life changes.now) }
{
    let Ok(mut text) = text_of(alloc, Vec::new(alloc), life, 0) else {
        return Err(ReplayFault::NoMemory);
    };
    let mut table = Recorded::new(alloc, Unkept::new(alloc));
    let mut check = Check::new();
    for change in changes {
        let added = add_change(alloc, change, &mut table, &mut check, &mut text);
        if let Err(fault) = added {
            drop(table);
            drop(text);
            return Err(fault);
        }
    }
    Ok(Recovered::new(table, check, life, text))
}

// Carries out a change, and adds its line.
fn add_change(
    alloc: Global,
    change: &Change<Any>,
    table: &mut Replayed,
    check: &mut Check,
    text: &mut Batch,
) -> Result<(), ReplayFault>
    ensures { OnOk result (AddsChange change.now
        table.old table.new check.old check.new text.old.bytes text.new.bytes) }
{
    replay(alloc, *change, table)?;
    let line = spell_line(change, check);
    match text.add(line.as_slice()) {
        Ok(()) => Ok(()),
        Err(_) => Err(ReplayFault::NoMemory),
    }
}
