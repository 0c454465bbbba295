//! A short list of changes that leads to the groups and terms of a book.
ghost use Rattle.std.specs.Prelude.{◌≡◌, ◌≤◌, [], length, IfOk};
ghost use Rattle.ring_lives.specs.Replays.{Replays};
ghost use Rattle.ring_recovery.specs.BookChanges.{book_changes};
ghost use Rattle.ring_recovery.specs.private.MostChanges.{most_changes};

mod group;

use group::add_group;
use ring_change::Change;
use ring_election::RingElection;
use ring_id::NoMemory;
use ring_terms::Book;
use std::alloc::Global;

/// Returns changes that lead from no groups to this book.
///
/// Members that joined and left again between two terms are not among them. So their number depends
/// on the groups and terms alone: at most 513 for each group and 769 for each term.
///
/// Fails only if an allocation fails.
pub(crate) fn changes_of_book<E: RingElection>(
    alloc: Global,
    book: &Book<E>,
) -> Result<Vec<Change<E>>, NoMemory>
    ensures changes { IfOk result (λ changes. changes.items ≡ book_changes book.now) }
    ensures leads { IfOk result (λ changes. Replays E.is_greatest [] changes.items book.now) }
    ensures bound { IfOk result (λ changes. length changes.items ≤ most_changes book.now) }
{
    let mut changes = Vec::new(alloc);
    for place in 0..book.len() {
        let Some(group) = book.group_at(place) else {
            unreachable!()
        };
        add_group(alloc, &group, &mut changes)?;
    }
    Ok(changes)
}
