//! Test cases of services: what they answer, and what they leave at the end. A test that runs out
//! of memory stops.

use crate::equal::equal;
use crate::memory::shared;
use crate::table::grounds::{end, open_locked};
use crate::table::telling::{FIRST, FIRST_TOLD, SECOND, SECOND_TOLD, tally, tells};
use ring_any::Any;
use ring_service::Service;
use ring_table::{LockedTable, Table};
use ring_workers::OpenGate;
use std::sync::Arc;

// A service with one worker serves two sessions, one after the other, and is ended. Each line has
// its reply, and each command its entry. The other lines are counted. No begin waits.
#[test]
fn a_service_answers_each_line_and_hands_over(rt: HostRuntime) {
    let alloc = rt.alloc();
    let gate = shared(&rt, alloc, OpenGate);
    let made = open_locked(&rt, alloc, Table::new(alloc), 1, 64, &gate);
    let mut ground = made.expect(&rt, "no service");
    drop(gate);
    let (front, seat) = (ground.service.front(), &mut ground.one);
    tells(&rt, alloc, front, seat, 1, FIRST, FIRST_TOLD);
    tells(&rt, alloc, front, seat, 2, SECOND, SECOND_TOLD);
    equal(&rt, "lines that were not read", front.unread(), 2);
    let (table, handed, waiting) = end(&rt, ground);
    let [calls, ..] = tally(&table);
    drop(table);
    let found = (handed.len(), waiting.len(), calls);
    drop(handed);
    drop(waiting);
    equal(&rt, "workers, begins, and calls", found, (1, 0, 6));
}

#[test]
fn a_service_that_ends_leaves_nothing(rt: HostRuntime) {
    let alloc = rt.alloc();
    let made = LockedTable::new(alloc, Table::<Any>::new(alloc), 3);
    let (table, seats) = made.expect(&rt, "no table");
    equal(&rt, "seats", seats.len(), 3);
    let access = shared(&rt, alloc, table);
    let copy = Arc::try_clone(&access).expect(&rt, "no copy");
    let service = Service::new(&rt, alloc, copy, seats, 3, 1);
    drop(service.expect(&rt, "no service").close(&rt));
    drop(Arc::into_inner(access).expect(&rt, "something shares the table still"));
}
