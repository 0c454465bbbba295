//! A test case of two sessions in two threads at one locked table. A test that runs out of memory
//! stops.

use crate::equal::equal;
use crate::table::grounds::{Opened, open_locked, table_of};
use crate::table::meetings::new_meeting;
use crate::table::telling::{joined, repeated, tells};
use ring_any::Any;
use ring_election::RingElection;
use ring_service::{Closing, Front};
use ring_table::{Access, Table};
use std::alloc::Global;
use std::fmt::Write;
use std::process::Abort;
use std::sync::{Arc, Wait};
use std::thread;
use std::thread::Threads;

// Returns the lines by which a hundred numbers from `from` on join the group `a`.
fn joins(rt: &impl Abort, alloc: Global, from: u32) -> String {
    let mut lines = String::new(alloc);
    for number in from..from.saturating_add(100) {
        assert!(rt; writeln!(lines, "join a {number}").is_ok());
    }
    lines
}

// A session in which a hundred numbers from `from` on join. Each line is answered `ok`. Returns the
// seat.
fn join_hundred<R: Abort + Wait, A: Access<Any> + Drop>(
    rt: &R,
    alloc: Global,
    front: &Front<A>,
    seat: A::Seat,
    session: u32,
    from: u32,
) -> A::Seat
    requires { A.has_seat front.now seat }
    ensures { A.has_seat front.now result }
{
    let mut seat = seat;
    let lines = joins(rt, alloc, from);
    let told = repeated(rt, alloc, b"ok\n", 100);
    tells(
        rt,
        alloc,
        front,
        &mut seat,
        session,
        lines.as_bytes(),
        &told,
    );
    drop(lines);
    drop(told);
    seat
}

// Two such sessions in two threads. Returns the first one's seat.
fn join_in_two<R, A>(
    rt: &R,
    alloc: Global,
    front: &Front<A>,
    one: A::Seat,
    other: A::Seat,
) -> A::Seat
where
    R: Abort + Threads + Wait + Sync,
    A: Access<Any> + Send + Sync + Drop,
    A::Seat: Send,
    requires { A.has_seat front.now one × A.has_seat front.now other }
    ensures { A.has_seat front.now result }
{
    let (one, other) = thread::join(
        rt,
        || -> A::Seat
            requires { A.has_seat front.now one }
        { join_hundred(rt, alloc, front, one, 1, 1) },
        || -> A::Seat
            requires { A.has_seat front.now other }
        { join_hundred(rt, alloc, front, other, 2, 101) },
    );
    drop(other);
    one
}

// Two sessions in two threads, in each of which a hundred numbers join. There are no other entries
// than theirs. Returns the access.
fn share<R, A>(rt: &R, alloc: Global, opened: Opened<A>) -> Arc<A>
where
    R: Abort + Threads + Wait + Sync,
    A: Access<Any> + Send + Sync + Drop + 'static,
    A::Seat: Send + 'static,
{
    let Opened {
        service,
        mut one,
        other,
    } = opened;
    let front = service.front();
    tells(rt, alloc, front, &mut one, 1, b"create a chang\n", b"ok\n");
    let mut one = join_in_two(rt, alloc, front, one, other);
    tells(rt, alloc, front, &mut one, 3, b"groups\n", b"groups a\n");
    drop(one);
    let Closing {
        access,
        handed,
        waiting,
    } = service.close(rt);
    drop(handed);
    drop(waiting);
    access
}

// Stops the test if a table has other entries than a create, a hundred joins in each of two
// sessions, in order, and the last one.
fn has_joins<E: RingElection>(rt: &impl Abort, table: Table<E>) {
    let (mut low, mut high) = (1_u32, 101_u32);
    for entry in table.history() {
        if let Some((session, number, is_done)) = joined(Some(entry)) {
            let wanted = if session == 1 { low } else { high };
            equal(rt, "a join, and done", (number, is_done), (wanted, true));
            if session == 1 {
                low = low.saturating_add(1);
            } else {
                high = high.saturating_add(1);
            }
        }
    }
    let found = (low, high, table.history().len());
    drop(table);
    equal(rt, "the next joins, and entries", found, (101, 201, 202));
}

#[test]
fn two_sessions_share_a_locked_table(rt: HostRuntime) {
    let alloc = rt.alloc();
    let gate = new_meeting(&rt, alloc, 0);
    let made = open_locked(&rt, alloc, Table::new(alloc), 1, 1, &gate);
    drop(gate);
    let access = share(&rt, alloc, made.expect(&rt, "no service"));
    has_joins(&rt, table_of(&rt, access));
}
