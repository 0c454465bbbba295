//! Test cases of begins that an inbox could not store: when they are tried again. A test that runs
//! out of memory stops.

use crate::equal::equal;
use crate::table::grounds::{Opened, end, open_locked};
use crate::table::meetings::{LOOKS, Meeting, new_meeting};
use crate::table::telling::{nodes_of, tells};
use ring_any::Any;
use ring_table::{Access, Table};
use std::alloc::Global;
use std::process::Abort;
use std::sync::Wait;
use std::sync::atomic::Ordering;
use std::thread::Threads;
use std::time::Clock;

const AHEAD: &[u8] = b"create a chang\njoin a 1\nstart a\n";

const AHEAD_TOLD: &[u8] = b"ok\nok\nterm 1\n";

const BEHIND: &[u8] = b"create b chang\njoin b 1\nstart b\ncreate c chang\njoin c 1\nstart c\n";

const BEHIND_TOLD: &[u8] = b"ok\nok\nterm 1\nok\nok\nterm 1\n";

// Starts three terms of one member each. The gate holds the worker at the begin of the first term.
// The inbox holds the begin of the second term, and the begin of the third term waits. Then the
// worker may go on: it handles a begin, a message and an announcement of each of the first two.
// If another session gives a command, the begin that waits is tried before it.
fn fall_behind<R, A>(
    rt: &R,
    alloc: Global,
    opened: &mut Opened<A>,
    gate: &Meeting<R>,
    is_asked: bool,
)
where
    R: Abort + Wait + Clock,
    A: Access<Any> + Send + Sync + Drop + 'static,
    A::Seat: Send + 'static,
{
    let (front, seat) = (opened.service.front(), &mut opened.one);
    tells(rt, alloc, front, seat, 1, AHEAD, AHEAD_TOLD);
    assert!(rt; gate.reaches(&gate.entered, 1));
    tells(rt, alloc, front, seat, 1, BEHIND, BEHIND_TOLD);
    gate.entered.fetch_add(1, Ordering::SeqCst);
    assert!(rt; gate.reaches(&gate.left, 6));
    if is_asked {
        tells(rt, alloc, front, seat, 2, b"groups\n", b"groups a b c\n");
        assert!(rt; gate.reaches(&gate.left, 9));
    }
}

// Has the begin of a third term wait, and ends the service, whose one worker has an inbox of one
// item. The gate waits for a second worker, which there is not: the caller lets the worker go on.
// At the end no begin waits any more, and the worker hands over three nodes.
fn wait<R>(rt: &R, alloc: Global, is_asked: bool)
where
    R: Abort + Threads + Wait + Clock + Copy + Send + Sync + Drop + 'static,
{
    let gate = new_meeting(rt, alloc, LOOKS);
    let made = open_locked(rt, alloc, Table::new(alloc), 1, 1, &gate);
    let mut ground = made.expect(rt, "no service");
    fall_behind(rt, alloc, &mut ground, &gate, is_asked);
    drop(gate);
    let (table, handed, waiting) = end(rt, ground);
    drop(table);
    let begins = waiting.len();
    drop(waiting);
    let nodes = nodes_of(rt, alloc, handed);
    let found = (begins, nodes.len());
    drop(nodes);
    equal(rt, "begins that wait, and nodes", found, (0, 3));
}

#[test]
fn a_begin_that_waits_is_tried_before_a_command_and_at_the_end(rt: HostRuntime) {
    for is_asked in [true, false] {
        wait(&rt, rt.alloc(), is_asked);
    }
}
