//! What a book makes of a report: it is news once, known after that, and stale when its term is
//! over.

use crate::elections::rings::{identity, name};
use crate::elections::worlds::{begun_on, delivery, end, seen};
use crate::equal::equal;
use crate::memory::TWICE;
use ring_chang::Chang;
use ring_id::{GroupName, NodeId, Refusal};
use ring_node::{Charter, Report};
use ring_terms::{Book, Noting};
use ring_world::{Delivery, World};
use std::alloc::Global;
use std::process::Abort;
use std::sync::Arc;

/// A member joins. A call that ran out of memory is made once more, as are all that follow.
fn join(rt: &impl Abort, book: &mut Book<Chang>, group: GroupName, node: NodeId) {
    let joined = match book.join(group, node) {
        Err(Refusal::NoMemory) => book.join(group, node),
        joined => joined,
    };
    equal(rt, "a member", joined, Ok(()));
}

/// A book with a group of 3, 1 and 2, which has no term.
fn book(rt: &impl Abort, alloc: Global, group: GroupName) -> Book<Chang> {
    let mut book = Book::new(alloc);
    let created = match book.create(alloc, group, Chang) {
        Err(Refusal::NoMemory) => book.create(alloc, group, Chang),
        created => created,
    };
    equal(rt, "a group", created, Ok(()));
    for number in [3, 1, 2] {
        join(rt, &mut book, group, identity(rt, number));
    }
    book
}

/// A term starts.
fn start(
    rt: &impl Abort,
    alloc: Global,
    book: &mut Book<Chang>,
    group: GroupName,
) -> Arc<Charter<Chang>> {
    match book.start(alloc, group) {
        Ok(charter) => charter,
        Err(refusal) => {
            equal(rt, "why there is no term", refusal, Refusal::NoMemory);
            book.start(alloc, group).expect(rt, TWICE)
        }
    }
}

/// The first report that comes of a world.
fn first_report(rt: &impl Abort, world: &mut World<Chang>) -> Report<Chang> {
    for _ in 0..8 {
        let (position, side) = seen(world).0.expect(rt, "nothing is in flight");
        match delivery(rt, world, position, side) {
            Delivery::Moved(Some(report)) => return report,
            other => drop(other),
        }
    }
    panic!(rt; "no node made a report")
}

/// The report of a book's first term, from a run of its own: that of the member with the number 3.
fn first_term(
    rt: &impl Abort,
    alloc: Global,
    book: &mut Book<Chang>,
    group: GroupName,
) -> Report<Chang> {
    let charter = start(rt, alloc, book, group);
    let mut world = begun_on(rt, alloc, &charter);
    drop(charter);
    let report = first_report(rt, &mut world);
    end(world);
    equal(rt, "the member", report.member().get(), 3);
    report
}

/// The leaders of a group's terms are these.
fn leaders_are(rt: &impl Abort, alloc: Global, book: &Book<Chang>, leaders: &[Option<NodeId>]) {
    let terms = match book.terms(alloc, name(rt)) {
        Ok(terms) => terms,
        Err(refusal) => {
            equal(rt, "why there are no terms", refusal, Refusal::NoMemory);
            book.terms(alloc, name(rt)).expect(rt, TWICE)
        }
    };
    equal(rt, "the leaders of the terms", terms.as_slice(), leaders);
    drop(terms);
}

/// A book makes this of a report, and the leaders of the group's terms are these then.
fn notes(
    rt: &impl Abort,
    alloc: Global,
    book: &mut Book<Chang>,
    report: &Report<Chang>,
    noting: Noting,
    leaders: &[Option<NodeId>],
) {
    equal(rt, "a report", book.note(report), noting);
    leaders_are(rt, alloc, book, leaders);
}

/// The report comes twice in its term, and once in the next.
#[test]
fn a_report_is_news_once_and_stale_later(rt: HostRuntime) {
    let (group, alloc) = (name(&rt), rt.alloc());
    let mut book = book(&rt, alloc, group);
    let report = first_term(&rt, alloc, &mut book, group);
    leaders_are(&rt, alloc, &book, &[None]);
    let leaders = [NodeId::new(3)];
    notes(&rt, alloc, &mut book, &report, Noting::Noted, &leaders);
    notes(&rt, alloc, &mut book, &report, Noting::Known, &leaders);
    drop(start(&rt, alloc, &mut book, group));
    let leaders = [NodeId::new(3), None];
    notes(&rt, alloc, &mut book, &report, Noting::Stale, &leaders);
    drop(report);
    drop(book);
}
