ghost use Rattle.std.specs.Prelude.{◌≡◌, ◌↔◌, ◌∷◌, [], All, IfErr, IfOk, IsTrue};
ghost use Rattle.ring_journal.specs.Journals.{HasAll};
ghost use Rattle.ring_journal.specs.Lines.{lines_in, whole_lines_of};
ghost use Rattle.ring_recovery.specs.Damage.{IsFaultOf};
ghost use Rattle.ring_recovery.specs.JournalLines.{IsZerosAlone, heading};
ghost use Rattle.ring_recovery.specs.Recovered.{Recovers};
ghost use Rattle.ring_recovery.specs.private.Reading.{HasRead, HasReplayed, IsHeaded, after_first, first_size};

use crate::fault::RecoverFault;
use crate::heading::{fault_of, next_life, put_heading};
use crate::life::Life;
use crate::recovered::Recovered;
use crate::replay::{ReplayFault, Replayed, replay_line};
use ring_any::Any;
use ring_change::Check;
use ring_journal::{Batch, Lines, read_lines, whole_len};
use ring_lives::follows_replays;
use ring_table::{Recorded, Unkept};
use std::alloc::{AllocError, Global};

/// A life has fewer entries than this.
const ENTRIES: usize = 1 << 44;

// The parts of a file other than its changes.
#[derive(Clone, Copy)]
struct Said {
    // the life after that of the file
    life: Life,
    // the first byte after the heading
    start: usize,
    // the check after the last line
    check: Check,
}

/// Recovers a table from the bytes of its journal's file.
///
/// Each line is carried out by the call that made it: as a command of session 0, or as a report.
/// The bytes after the last line are a torn tail and are left out. The table begins the life after
/// that of the file. If the file is empty or holds zeros alone, the table is empty and begins life
/// 1.
///
/// The faults, which are clauses except for `NoMemory`:
/// - `Bad`: the byte is the first of a line, and no change that may come there has this line. Or it
///   is a byte that no crash leaves there. Or the number of the life begins at this byte, and the
///   number or the mark after it is damaged.
/// - `Version`: the file has a byte that is no zero, and does not begin with the words of a
///   heading. So a journal whose first byte became a zero is refused, and none of its terms is
///   started again.
/// - `Lives`: the file is of life 1048576, which is the last one.
/// - `NoMemory`: an allocation failed, or the file has 2^44 changes or more.
pub fn recover(alloc: Global, found: Vec<u8>) -> Result<Recovered, RecoverFault>
    ensures ok { IfOk result (Recovers found.items) }
    ensures err { IfErr result (IsFaultOf found.items) }
{
    let mut table = Recorded::new(alloc, Unkept::new(alloc));
    match replay_file(alloc, &found, &mut table) {
        Ok(said) => finish(alloc, found, said, table),
        Err(fault) => {
            drop(found);
            drop(table);
            Err(fault)
        }
    }
}

// Carries out the changes of a file on a table without groups.
fn replay_file(alloc: Global, found: &[u8], table: &mut Replayed) -> Result<Said, RecoverFault>
    requires { table.old.history ≡ [] }
    ensures ok { IfOk result (λ said.
        HasReplayed found.now table.new said.life said.start said.check) }
    ensures err { IfErr result (IsFaultOf found.now) }
{
    let mut lines = read_lines(found)?;
    match lines.next() {
        Some(first) => {
            let life = next_life(found, first)?;
            let start = first.len() + 1;
            let check = replay_lines(alloc, found, start, lines, table)?;
            Ok(Said { life, start, check })
        }
        None if is_blank(found) => Ok(Said {
            life: Life::first(),
            start: 0,
            check: Check::new(),
        }),
        None => Err(fault_of(found)),
    }
}

// Whether the file is empty or holds zeros alone. Each start puts a file with a whole heading in
// its place, so no crash leaves zeros and then a part of a heading.
fn is_blank(found: &[u8]) -> bool
    ensures { IsTrue result ↔ IsZerosAlone found.now }
{
    found.iter().all(|&byte| byte == 0)
}

// Carries out the changes of the lines after the heading, which begin at `start`. Returns the check
// after them.
fn replay_lines(
    alloc: Global,
    found: &[u8],
    start: usize,
    lines: Lines<'_>,
    table: &mut Replayed,
) -> Result<Check, RecoverFault>
    requires lines { IsHeaded found.now start lines }
    requires empty { table.old.history ≡ [] }
    ensures ok { IfOk result (HasRead found.now table.new) }
    ensures err { IfErr result (IsFaultOf found.now) }
{
    // for its law: a history has the effect of its changes
    follows_replays::<Any>();
    let mut check = Check::new();
    let mut at = start;
    for line in lines {
        match replay_line(alloc, line, &mut check, table) {
            Ok(()) => at += line.len() + 1,
            Err(ReplayFault::Refused) => return Err(RecoverFault::Bad { at }),
            Err(ReplayFault::NoMemory) => return Err(RecoverFault::NoMemory),
        }
    }
    Ok(check)
}

// The table and the text of its changes.
fn finish(
    alloc: Global,
    found: Vec<u8>,
    said: Said,
    table: Replayed,
) -> Result<Recovered, RecoverFault>
    requires { HasReplayed found.items table said.life said.start said.check }
    ensures ok { IfOk result (Recovers found.items) }
    ensures err { IfErr result (IsFaultOf found.items) }
{
    // `count` and `follows_replays` for their laws: the history is legal, and has the effect of its
    // changes
    if table.count() >= ENTRIES {
        drop(found);
        drop(table);
        return Err(RecoverFault::NoMemory);
    }
    follows_replays::<Any>();
    let Said { life, start, check } = said;
    match text_of(alloc, found, life, start) {
        Ok(text) => Ok(Recovered::new(table, check, life, text)),
        Err(_) => {
            drop(table);
            Err(RecoverFault::NoMemory)
        }
    }
}

/// The heading of a life and the lines of the changes of a file, as a text.
pub(crate) fn text_of(
    alloc: Global,
    found: Vec<u8>,
    life: Life,
    start: usize,
) -> Result<Batch, AllocError>
    requires { start ≡ first_size (lines_in found.items) }
    ensures whole { IfOk result (λ text. HasAll text.bytes) }
    ensures lines { IfOk result (λ text.
        whole_lines_of text.bytes ≡ heading life ∷ after_first (lines_in found.items)) }
{
    let mut text = Vec::new(alloc);
    put_heading(life, &mut text)?;
    text.extend_from_slice(&found[start..whole_len(&found)])?;
    drop(found);
    Ok(Batch::from(text))
}
