//! A test case of a service in which any one allocation may fail. Sessions get their replies. The
//! worker is starved with its item in hand, or keeps the report that the table refused. A service
//! that cannot be started says so.
//!
//! A session that ran out of memory is repeated once. So the test passes if one allocation fails,
//! whichever that is. A sweep fails each in turn.

use crate::equal::equal;
use crate::memory::{TWICE, shared, with_room};
use crate::table::grounds::{Ground, Opened, end, open_locked};
use crate::table::telling::tally;
use ring_any::Any;
use ring_election::RingElection;
use ring_lines::{FromRead, LineFault, ToWrite};
use ring_service::StartFault;
use ring_table::{Access, Table};
use ring_workers::{Handed, OpenGate, Why};
use std::alloc::Global;
use std::process::Abort;
use std::sync::Wait;
use std::thread;
use std::thread::Threads;
use std::time::{Clock, Duration};

// At most this often a session asks whether the member knows its leader, a millisecond apart.
const LOOKS: u32 = 1000;

// Returns what a session of one line is told.
fn told<R, A>(rt: &R, alloc: Global, opened: &mut Opened<A>, line: &[u8]) -> Vec<u8>
where
    R: Abort + Wait,
    A: Access<Any> + Send + Sync + Drop + 'static,
    A::Seat: Send + 'static,
{
    for _ in 0..2 {
        let mut writer = ToWrite(with_room(rt, alloc, 64));
        let (front, seat) = (opened.service.front(), &mut opened.one);
        let served = front.serve(rt, seat, 1, &mut FromRead(line), &mut writer, 1000);
        let told = writer.0;
        if served != Err(LineFault::NoMemory) && told.as_slice() != b"no no-memory\n".as_slice() {
            equal(rt, "lines", served, Ok(1));
            return told;
        }
        drop(told);
    }
    panic!(rt; "{TWICE}")
}

// Returns whether the one member comes to know that it leads.
fn comes_to_know<R, A>(rt: &R, alloc: Global, opened: &mut Opened<A>) -> bool
where
    R: Abort + Wait + Clock,
    A: Access<Any> + Send + Sync + Drop + 'static,
    A::Seat: Send + 'static,
{
    for _ in 0..LOOKS {
        let reply = told(rt, alloc, opened, b"who a 5\n");
        let knows = reply.as_slice() == b"leader 1 5\n".as_slice();
        drop(reply);
        if knows {
            return true;
        }
        thread::sleep(rt, Duration::from_millis(1));
    }
    false
}

// Returns whether a worker hands over what it must: its item, if it is starved, and the one report,
// if the table has not filed it.
fn is_whole<E: RingElection>(handed: &Handed<E>, filed: usize) -> bool {
    let is_starved = handed.why == Why::Starved && handed.held.is_some();
    let is_stopped = handed.why == Why::Stopped && handed.held.is_none();
    let reports = filed.saturating_add(handed.unfiled.len());
    handed.dropped == 0 && (is_stopped && reports == 1 || is_starved && reports <= 1)
}

// Stops the test if the one worker does not hand over what it must. If the member knows its leader,
// its report must be filed.
fn ends_whole<E: RingElection>(
    rt: &impl Abort,
    table: Table<E>,
    handed: Vec<Handed<E>>,
    knows: bool,
) {
    let [_, news, known, stale] = tally(&table);
    drop(table);
    let filed = news.saturating_add(known).saturating_add(stale);
    let mut whole = 0_usize;
    for one in &handed {
        if is_whole(one, filed) {
            whole = whole.saturating_add(1);
        }
    }
    let found = (handed.len(), whole, filed);
    drop(handed);
    let wanted = if knows { 1 } else { filed };
    equal(rt, "workers, whole, and filed", found, (1, 1, wanted));
}

// The lines by which a term of one member is started, with their replies.
const STARTED: [(&[u8], &[u8]); 4] = [
    (b"create a chang\n", b"ok\n"),
    (b"join a 5\n", b"ok\n"),
    (b"start a\n", b"term 1\n"),
    (b"members a\n", b"members 5\n"),
];

// Elects the one member of a group by a service with one worker. Then ends the service.
fn elect<R>(rt: &R, alloc: Global, ground: Ground)
where
    R: Abort + Threads + Wait + Clock,
{
    let mut ground = ground;
    for (line, wanted) in &STARTED {
        let reply = told(rt, alloc, &mut ground, line);
        equal(rt, "a reply", reply.as_slice(), *wanted);
        drop(reply);
    }
    let knows = comes_to_know(rt, alloc, &mut ground);
    let (table, handed, waiting) = end(rt, ground);
    drop(waiting);
    ends_whole(rt, table, handed, knows);
}

#[test]
fn a_service_that_is_refused_memory_says_where(rt: HostRuntime) {
    let alloc = rt.alloc();
    let gate = shared(&rt, alloc, OpenGate);
    let made = open_locked(&rt, alloc, Table::new(alloc), 1, 64, &gate);
    drop(gate);
    match made {
        Ok(ground) => elect(&rt, alloc, ground),
        Err(fault) => equal(&rt, "a fault", fault, StartFault::NoMemory),
    }
}
