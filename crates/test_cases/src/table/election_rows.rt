//! Test cases of elections that the workers of a service decide. A test that runs out of memory
//! stops.
ghost use Rattle.std.specs.Prelude.{◌≤◌};

use crate::equal::equal;
use crate::table::grounds::{Opened, open_locked, table_of};
use crate::table::meetings::{LOOKS, Meeting, new_meeting};
use crate::table::rings_of_one::Spelled;
use crate::table::telling::{nodes_of, tally, tells};
use ring_any::Any;
use ring_election::RingElection;
use ring_id::{GroupName, NodeId};
use ring_node::{Charter, Node};
use ring_service::{Closing, Service};
use ring_table::{Access, Filed, Table};
use ring_world::{Settlement, settle};
use std::alloc::Global;
use std::process::Abort;
use std::sync::{Arc, Wait};
use std::thread::Threads;
use std::time::Clock;

// The lines by which a term of four members is started.
const FOUR: &[u8] = b"create a peterson\njoin a 4\njoin a 1\njoin a 3\njoin a 2\nstart a\n";

// Their replies.
const FOUR_TOLD: &[u8] = b"ok\nok\nok\nok\nok\nterm 1\n";

// The number of items that two workers handle in that term: a begin each, 24 messages and 4
// announcements.
const FOUR_ITEMS: u64 = 30;

// Stops the test if these are not the four nodes of that term, settled, which all know 2.
fn all_know_two<E: RingElection>(rt: &impl Abort, nodes: &[Node<E>]) {
    let first = nodes.first().expect(rt, "no node");
    let found = (nodes.len(), settle(first.charter(), nodes));
    equal(rt, "nodes, and rest", found, (4, Settlement::Settled));
    for node in nodes {
        equal(rt, "who leads", node.known(), NodeId::new(2));
    }
}

// Stops the test if a report of one of these nodes was not known.
fn are_known<R: Abort + Wait, A: Access<Any> + Drop>(
    rt: &R,
    access: &A,
    seat: A::Seat,
    nodes: &[Node<Any>],
)
    requires { A.has_seat access.now seat }
{
    let mut seat = seat;
    for node in nodes {
        let copy = Arc::try_clone(node.charter()).expect(rt, "no copy");
        let report = node.report(copy).expect(rt, "no report");
        let filed = access.report(rt, &mut seat, &report);
        drop(report);
        equal(rt, "a report", filed, Filed::Known);
    }
    drop(seat);
}

// Has a session start a term of four members. If there are charters, the workers go on with their
// term instead.
fn begin<R, A>(
    rt: &R,
    alloc: Global,
    service: &Service<A>,
    seat: &mut A::Seat,
    running: Vec<Arc<Charter<Any>>>,
)
where
    R: Abort + Wait,
    A: Access<Any> + Send + Sync + Drop + 'static,
    A::Seat: Send + 'static,
    requires { A.has_seat service.now seat.old }
    ensures { A.has_seat service.now seat.new }
{
    if running.is_empty() {
        drop(running);
        tells(rt, alloc, service.front(), seat, 1, FOUR, FOUR_TOLD);
    } else {
        assert!(rt; service.resume(rt, running).is_ok());
    }
}

/// Two workers that must both run decide a term of four members, which a session starts or which
/// was running with these charters. All nodes come to rest, and the table knows what they know, by
/// a seat that is left. Returns the access and the nodes.
pub fn decide<R, A>(
    rt: &R,
    alloc: Global,
    opened: Opened<A>,
    gate: &Meeting<R>,
    running: Vec<Arc<Charter<Any>>>,
) -> (Arc<A>, Vec<Node<Any>>)
where
    R: Abort + Threads + Wait + Clock,
    A: Access<Any> + Send + Sync + Drop + 'static,
    A::Seat: Send + 'static,
{
    let Opened {
        service,
        one: mut seat,
        other,
    } = opened;
    drop(other);
    begin(rt, alloc, &service, &mut seat, running);
    assert!(rt; gate.reaches(&gate.left, FOUR_ITEMS));
    let told = b"terms 1:2\n";
    tells(rt, alloc, service.front(), &mut seat, 1, b"terms a\n", told);
    let Closing {
        access,
        handed,
        waiting,
    } = service.close(rt);
    drop(waiting);
    let nodes = nodes_of(rt, alloc, handed);
    all_know_two(rt, &nodes);
    are_known(rt, &*access, seat, &nodes);
    (access, nodes)
}

// Files the reports of four nodes once more. Stops the test if one was not known.
fn finish_known<E: RingElection>(rt: &impl Abort, table: Table<E>, nodes: Vec<Node<E>>) {
    let mut table = table;
    let [calls, news, known, stale] = tally(&table);
    assert!(rt; table.finish(&nodes).is_ok());
    drop(nodes);
    let found = tally(&table);
    drop(table);
    let wanted = [calls, news, known.saturating_add(4), stale];
    equal(rt, "calls, and reports", found, wanted);
}

// The lines by which a group of four members is made.
const FOUR_MADE: [&[u8]; 5] = [
    b"create a peterson",
    b"join a 4",
    b"join a 1",
    b"join a 3",
    b"join a 2",
];

// A table in which a term of four members was started, and its charter.
fn started<E: Spelled>(rt: &impl Abort, alloc: Global) -> (Table<E>, Vec<Arc<Charter<E>>>) {
    let mut table = Table::new(alloc);
    for line in FOUR_MADE {
        let command = E::parse(line).expect(rt, "no command");
        drop(table.call(1, command));
    }
    let group = GroupName::from_bytes(b"a").expect(rt, "no name");
    let (reply, charters) = table.begin(1, group, 1);
    drop(reply);
    equal(rt, "charters", charters.len(), 1);
    (table, charters)
}

// Two workers decide a term by a locked table, with inboxes of this capacity. The table knows what
// the nodes know, also if they are filed once more at the end.
fn decide_locked<R>(rt: &R, alloc: Global, inbox: usize, is_running: bool)
where
    R: Abort + Threads + Wait + Clock + Copy + Send + Sync + Drop + 'static,
    requires { (1 ≤ inbox) × (inbox ≤ 65536) }
{
    let (table, running) = if is_running {
        started(rt, alloc)
    } else {
        (Table::new(alloc), Vec::new(alloc))
    };
    let gate = new_meeting(rt, alloc, LOOKS);
    let made = open_locked(rt, alloc, table, 2, inbox, &gate);
    let opened = made.expect(rt, "no service");
    let (access, nodes) = decide(rt, alloc, opened, &gate, running);
    drop(gate);
    finish_known(rt, table_of(rt, access), nodes);
}

#[test]
fn two_workers_decide_a_term_by_a_lock(rt: HostRuntime) {
    let alloc = rt.alloc();
    for (inbox, is_running) in [(64, false), (1, false), (64, true)] {
        decide_locked(&rt, alloc, inbox, is_running);
    }
}
