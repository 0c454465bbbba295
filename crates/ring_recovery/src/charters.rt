ghost use Rattle.std.specs.Prelude.{◌≡◌, ◌++◌, [], map, IfOk, OnOk};
ghost use Rattle.ring_terms.specs.Charters.{running_in};
ghost use Rattle.ring_lives.specs.Changes.{onto};
ghost use Rattle.ring_recovery.specs.Charters.{running_charters};

use ring_election::RingElection;
use ring_id::{GroupName, NoMemory};
use ring_node::Charter;
use ring_terms::Book;
use std::alloc::Global;
use std::sync::Arc;

/// Returns the charter of the last term of each group that has one, in order of creation. Fails
/// only if an allocation fails.
pub(crate) fn charters_of<E: RingElection>(
    alloc: Global,
    book: &Book<E>,
) -> Result<Vec<Arc<Charter<E>>>, NoMemory>
    ensures { IfOk result (λ charters.
        map (λ charter. charter.value) charters.items ≡ running_charters book.now) }
{
    let Ok(names) = book.groups(alloc) else {
        return Err(NoMemory);
    };
    let Ok(mut charters) = Vec::with_capacity(alloc, book.len()) else {
        return Err(NoMemory);
    };
    for name in names.as_slice() {
        add_running(book, *name, &mut charters)?;
    }
    Ok(charters)
}

// Adds the charter of the last term of a group, if it has one.
fn add_running<E: RingElection>(
    book: &Book<E>,
    group: GroupName,
    charters: &mut Vec<Arc<Charter<E>>>,
) -> Result<(), NoMemory>
    ensures { OnOk result (map (λ charter. charter.value) charters.new.items
        ≡ map (λ charter. charter.value) charters.old.items
        ++ onto (running_in group book.now) []) }
{
    let Ok(charter) = book.running(group) else {
        return Ok(());
    };
    let Ok(copy) = Arc::try_clone(charter) else {
        return Err(NoMemory);
    };
    let Ok(()) = charters.push(copy) else {
        return Err(NoMemory);
    };
    Ok(())
}
