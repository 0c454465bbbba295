//! The listing of a journal, for people to read: its groups with their members and terms, and the
//! end of its text.
ghost use Rattle.std.specs.Prelude.{◌≡◌, ◌-◌, ◌++◌, length, All, IfErr, IfOk, OnOk};
ghost use Rattle.ring_change.specs.Spelling.{IsChange};
ghost use Rattle.ring_lives.specs.Changes.{changes_of};
ghost use Rattle.ring_recovery.specs.Damage.{IsFaultOf};
ghost use Rattle.ring_recovery.specs.Listing.{IsUsed, Lists, end_text, groups_text, life_text};

mod groups;

use crate::fault::RecoverFault;
use crate::recovered::Recovered;
use crate::recovery::recover;
use groups::put_groups;
use ring_id::NoMemory;
use ring_journal::whole_len;
use std::alloc::Global;

/// Returns the listing of the journal with these bytes, as lines of text.
///
/// Each group has three lines, in order of creation. The first has its name and its algorithm. The
/// second has its members as `members` replies them. The third has the leaders of its terms as
/// `terms` replies them.
///
/// The last line has the number of the journal's life, the number of changes and the byte at which
/// their text ends. It also has the length of the torn tail after the text, which a restart drops.
///
/// Refuses the bytes that `recover` refuses. If they have several faults, it may name another one.
pub fn list_journal(alloc: Global, found: Vec<u8>) -> Result<Vec<u8>, RecoverFault>
    ensures ok { IfOk result (λ text. Lists found.items text.items) }
    ensures err { IfErr result (IsFaultOf found.items) }
{
    let end = whole_len(&found);
    let torn = used_len(&found).saturating_sub(end);
    let recovered = recover(alloc, found)?;
    let listed = list(alloc, &recovered, end, torn);
    drop(recovered);
    match listed {
        Ok(text) => Ok(text),
        Err(_) => Err(RecoverFault::NoMemory),
    }
}

// The number of bytes up to the last one that is not a zero.
fn used_len(found: &[u8]) -> usize
    ensures used { IsUsed found.now result }
{
    let mut at = 0;
    let mut used = 0;
    while at < found.len() {
        let is_used = found[at] != 0;
        at += 1;
        if is_used {
            used = at;
        }
    }
    used
}

// The lines of a recovered table, and the line about its text.
fn list(alloc: Global, recovered: &Recovered, end: usize, torn: usize) -> Result<Vec<u8>, NoMemory>
    requires { All IsChange (changes_of recovered.now.history) }
    ensures { IfOk result (λ text. text.items
        ≡ groups_text recovered.now.book (changes_of recovered.now.history)
        ++ life_text (recovered.now.life - 1)
        ++ end_text (length recovered.now.history) end torn) }
{
    let mut text = Vec::new(alloc);
    put_groups(alloc, recovered, &mut text)?;
    put_life(alloc, recovered.life().get() - 1, &mut text)?;
    put_end(alloc, recovered.count(), end, torn, &mut text)?;
    Ok(text)
}

// Begins the last line, with the number of the life.
fn put_life(alloc: Global, life: u32, text: &mut Vec<u8>) -> Result<(), NoMemory>
    ensures { OnOk result (text.new.items ≡ text.old.items ++ life_text life) }
{
    let line = format!(in alloc; "whole: life {life}, ")?;
    text.extend_from_slice(line.as_bytes())?;
    Ok(())
}

// Adds the rest of the last line, about the text of the changes.
fn put_end(
    alloc: Global,
    changes: usize,
    end: usize,
    torn: usize,
    text: &mut Vec<u8>,
) -> Result<(), NoMemory>
    ensures { OnOk result (text.new.items ≡ text.old.items ++ end_text changes end torn) }
{
    let line = format!(in alloc;
        "{changes} changes end at byte {end}, {torn} bytes of a torn tail are dropped\n"
    )?;
    text.extend_from_slice(line.as_bytes())?;
    Ok(())
}
