//! The lines of the groups of a recovered table.
ghost use Rattle.std.specs.Prelude.{◌≡◌, ◌++◌, List, All, OnOk};
ghost use Rattle.ring_any.specs.declared.any.Any.{Any};
ghost use Rattle.ring_change.specs.Checks.{first_check};
ghost use Rattle.ring_change.specs.Lines.{check_behind, marked_line};
ghost use Rattle.ring_change.specs.Spelling.{IsChange};
ghost use Rattle.ring_change.specs.declared.change.Change.{Change};
ghost use Rattle.ring_lives.specs.Changes.{changes_of};
ghost use Rattle.ring_recovery.specs.JournalLines.{marked_lines};
ghost use Rattle.ring_recovery.specs.Listing.{change_text, group_text, groups_text, head_line, lines_of_group};
ghost use Rattle.ring_terms.specs.Object.{find};

use crate::recovered::Recovered;
use ring_any::Any;
use ring_change::{Change, Check, one_change, read_line};
use ring_grammar::{Sink, SinkFailed, print_members, print_terms};
use ring_id::{GroupName, NoMemory, Refusal};
use ring_journal::{Lines, read_lines};
use ring_terms::{Book, MemberList, TermList};
use std::alloc::Global;

/// Adds the lines of each group of a recovered table, in order of creation. Fails only if an
/// allocation fails.
pub(crate) fn put_groups(
    alloc: Global,
    recovered: &Recovered,
    text: &mut Vec<u8>,
) -> Result<(), NoMemory>
    requires { All IsChange (changes_of recovered.now.history) }
    ensures { OnOk result (text.new.items
        ≡ text.old.items ++ groups_text recovered.now.book (changes_of recovered.now.history)) }
{
    let Ok(mut lines) = read_lines(recovered.text().bytes()) else {
        unreachable!("the text has no zero")
    };
    let _heading = lines.next();
    put_lines(alloc, recovered.book(), lines, text)
}

// Adds the lines of each group that one of these changes creates.
fn put_lines(
    alloc: Global,
    book: &Book<Any>,
    lines: Lines<'_>,
    text: &mut Vec<u8>,
) -> Result<(), NoMemory>
    ensures { (changes : List (Change Any))
        → lines.entry ≡ marked_lines first_check changes → All IsChange changes
        → OnOk result (text.new.items ≡ text.old.items ++ groups_text book.now changes) }
{
    let mut check = Check::new();
    for line in lines {
        put_line(alloc, book, line, &mut check, text)?;
    }
    Ok(())
}

// Adds the lines of the group that the change of this line creates, if it does.
fn put_line(
    alloc: Global,
    book: &Book<Any>,
    line: &[u8],
    check: &mut Check,
    text: &mut Vec<u8>,
) -> Result<(), NoMemory>
    ensures check { (change : Change Any) → IsChange change
        → line.now ≡ marked_line check.old change → check.new ≡ check_behind check.old change }
    ensures text { (change : Change Any) → IsChange change
        → line.now ≡ marked_line check.old change
        → OnOk result (text.new.items ≡ text.old.items ++ change_text book.now change) }
{
    // no two changes have this line
    one_change();
    match read_line(line, check) {
        Some(change) => put_change(alloc, book, change, text),
        None => Ok(()),
    }
}

// Adds the lines of the group that a change creates, if it does.
fn put_change(
    alloc: Global,
    book: &Book<Any>,
    change: Change<Any>,
    text: &mut Vec<u8>,
) -> Result<(), NoMemory>
    ensures { OnOk result (text.new.items ≡ text.old.items ++ change_text book.now change) }
{
    match change {
        Change::Create(group, algorithm) => put_group(alloc, book, group, algorithm, text),
        Change::Join(..) | Change::Leave(..) | Change::Start(_) | Change::Know { .. } => Ok(()),
    }
}

// Adds the lines of a group, if it is in the book.
fn put_group(
    alloc: Global,
    book: &Book<Any>,
    name: GroupName,
    algorithm: Any,
    text: &mut Vec<u8>,
) -> Result<(), NoMemory>
    ensures { OnOk result (text.new.items
        ≡ text.old.items ++ group_text name algorithm (find name book.now)) }
{
    let members = match book.members(alloc, name) {
        Ok(members) => members,
        Err(Refusal::NoMemory) => return Err(NoMemory),
        Err(_) => return Ok(()),
    };
    let Ok(terms) = book.terms(alloc, name) else {
        return Err(NoMemory);
    };
    match put_three(name, algorithm, &members, &terms, text) {
        Ok(()) => Ok(()),
        Err(_) => Err(NoMemory),
    }
}

// Adds the lines of a group with these members and leaders.
fn put_three(
    name: GroupName,
    algorithm: Any,
    members: &MemberList,
    leaders: &TermList,
    text: &mut Vec<u8>,
) -> Result<(), SinkFailed>
    ensures { OnOk result (text.new.items
        ≡ text.old.items ++ lines_of_group name algorithm members.now leaders.now) }
{
    put_head(name, algorithm, text)?;
    text.put(b"  ")?;
    print_members(members, text)?;
    text.put(b"  ")?;
    print_terms(leaders, text)
}

// Adds the first line of a group.
fn put_head(name: GroupName, algorithm: Any, text: &mut Vec<u8>) -> Result<(), SinkFailed>
    ensures { OnOk result (text.new.items ≡ text.old.items ++ head_line name algorithm) }
{
    text.put(b"group ")?;
    text.put(name.bytes())?;
    text.put(b" ")?;
    text.put(algorithm.word())?;
    text.put(b"\n")
}
