ghost use Rattle.std.specs.Prelude.{◌≡◌, map, replicate, IfOk};
ghost use Rattle.ring_events.specs.declared.event.Command.TheVariants as command;
ghost use Rattle.ring_table.specs.Tables.{GivesCharters};
ghost use Rattle.ring_terms.specs.Steps.{StepOf};

use ring_election::RingElection;
use ring_events::Reply;
use ring_id::{GroupName, NoMemory, Refusal};
use ring_node::Charter;
use ring_terms::Book;
use std::alloc::Global;
use std::sync::Arc;

/// Starts a term in a book and returns the reply with `copies` clones of the term's charter.
///
/// The charter is planned once: the book and the clones share it. The clones are made before the
/// start, so a start that runs out of memory changes nothing. If no term was started, there are
/// none.
pub(crate) fn start_shared<E: RingElection>(
    alloc: Global,
    book: &mut Book<E>,
    group: GroupName,
    copies: usize,
) -> (Reply, Vec<Arc<Charter<E>>>)
    ensures step { StepOf E.is_two_way E.is_greatest
        book.old (command.Start group) result.0 book.new }
    ensures charters { GivesCharters group copies
        result.0 (map (λ charter. charter.value) result.1.items) book.new }
{
    let charter = match book.plan(alloc, group) {
        Ok(charter) => charter,
        Err(refusal) => return (Reply::Refused(refusal), Vec::new(alloc)),
    };
    let Ok(charters) = share(alloc, &charter, copies) else {
        return (Reply::Refused(Refusal::NoMemory), Vec::new(alloc));
    };
    let term = charter.term();
    let Ok(()) = book.start_planned(alloc, charter) else {
        return (Reply::Refused(Refusal::NoMemory), Vec::new(alloc));
    };
    (Reply::Term(term), charters)
}

// Returns `copies` clones of a charter.
fn share<E: RingElection>(
    alloc: Global,
    charter: &Arc<Charter<E>>,
    copies: usize,
) -> Result<Vec<Arc<Charter<E>>>, NoMemory>
    ensures { IfOk result (λ shared.
        map (λ c. c.value) shared.items ≡ replicate copies charter.now.value) }
{
    let Ok(mut shared) = Vec::with_capacity(alloc, copies) else {
        return Err(NoMemory);
    };
    for _ in 0..copies {
        let Ok(copy) = Arc::try_clone(charter) else {
            return Err(NoMemory);
        };
        shared.push_reserved(copy);
    }
    Ok(shared)
}
