//! Test cases of a table that one caller has alone, by a turn lock or by a locked table: which
//! places its calls and reports get. A call that ran out of memory is repeated once.

use crate::equal::equal;
use crate::memory::with_room;
use crate::table::desks::{Desk, LockedDesk, TurnDesk};
use crate::table::rings_of_one::{Spelled, elect, is_line, told_by};
use crate::table::telling::tally;
use ring_any::Any;
use ring_election::RingElection;
use ring_id::{GroupName, Refusal};
use ring_node::{Charter, Node, Report};
use ring_table::{Answer, Filed, Table};
use std::alloc::Global;
use std::process::Abort;
use std::sync::{Arc, Wait};

// Stops the test if the answer to a session's line is not `told`, which begins with its place.
fn tells<E: Spelled, R: Abort + Wait, D: Desk<E>>(
    rt: &R,
    alloc: Global,
    desk: &mut D,
    line: (u32, &[u8]),
    told: &[u8],
) {
    let command = E::parse(line.1).expect(rt, "no command");
    let answer = match desk.call(rt, line.0, command) {
        Answer::Unplaced(Refusal::NoMemory) => desk.call(rt, line.0, command),
        answer => answer,
    };
    is_line(rt, alloc, line.1, &answer, told);
    drop(answer);
}

// Starts a term of the group `a`. Returns the clones of its charter. Stops the test if there are
// other than `len` clones, or the answer is not `told`.
fn starts<E: RingElection, R: Abort + Wait, D: Desk<E>>(
    rt: &R,
    alloc: Global,
    desk: &mut D,
    copies: usize,
    (len, told): (usize, &[u8]),
) -> Vec<Arc<Charter<E>>> {
    let group = GroupName::from_bytes(b"a").expect(rt, "no name");
    let (answer, charters) = match desk.begin(rt, group, copies) {
        (Answer::Unplaced(Refusal::NoMemory), _) => desk.begin(rt, group, copies),
        begun => begun,
    };
    is_line(rt, alloc, b"start a", &answer, told);
    drop(answer);
    equal(rt, "charters", charters.len(), len);
    charters
}

// Stops the test if a report becomes something else.
fn files<E: RingElection, R: Abort + Wait, D: Desk<E>>(
    rt: &R,
    desk: &mut D,
    report: &Report<E>,
    became: Filed,
) {
    let filed = match desk.report(rt, report) {
        Filed::Refused(Refusal::NoMemory) => desk.report(rt, report),
        filed => filed,
    };
    equal(rt, "a report", filed, became);
}

// The first four calls: a start that is refused and has no charter, and a term of one member.
// Returns the member's node, which knows that it leads.
fn begin<E: Spelled, R: Abort + Wait, D: Desk<E>>(
    rt: &R,
    alloc: Global,
    desk: &mut D,
    copies: usize,
) -> Node<E> {
    drop(starts(rt, alloc, desk, copies, (0, b"1 no no-group\n")));
    tells(rt, alloc, desk, (1, b"create a chang"), b"2 ok\n");
    tells(rt, alloc, desk, (1, b"join a 7"), b"3 ok\n");
    let charters = starts(rt, alloc, desk, copies, (copies, b"4 term 1\n"));
    let node = elect(rt, alloc, charters.first().expect(rt, "no charter"));
    drop(charters);
    node
}

// The last five calls: the report, which is news at the fifth place, is known, and after the start
// of another term it is stale.
fn go_on<E: Spelled, R: Abort + Wait, D: Desk<E>>(
    rt: &R,
    alloc: Global,
    desk: &mut D,
    report: &Report<E>,
) {
    files(rt, desk, report, Filed::Known);
    tells(rt, alloc, desk, (2, b"who a 7"), b"7 leader 1 7\n");
    tells(rt, alloc, desk, (1, b"start a"), b"8 term 2\n");
    files(rt, desk, report, Filed::Stale);
    tells(rt, alloc, desk, (1, b"groups"), b"10 groups a\n");
}

// Ten calls, each of which is an entry at its place.
fn ten_calls<E: Spelled, R: Abort + Wait, D: Desk<E>>(
    rt: &R,
    alloc: Global,
    desk: &mut D,
    copies: usize,
) {
    let node = begin(rt, alloc, desk, copies);
    let report = told_by(rt, &node);
    drop(node);
    files(rt, desk, &report, Filed::Noted);
    go_on(rt, alloc, desk, &report);
    drop(report);
}

// Stops the test if a table does not have the calls and reports of ten calls.
fn has_ten<E: RingElection>(rt: &impl Abort, table: Table<E>) {
    let found = tally(&table);
    drop(table);
    equal(rt, "calls, and reports", found, [7, 1, 1, 1]);
}

// A table that its caller has alone.
fn ten_alone<E: Spelled, R: Abort + Wait>(rt: &R, alloc: Global) {
    let mut table = Table::<E>::new(alloc);
    ten_calls(rt, alloc, &mut table, 2);
    has_ten(rt, table);
}

// Files what a node knows. Stops the test if memory is refused twice.
fn finish<E: RingElection>(rt: &impl Abort, alloc: Global, table: &mut Table<E>, node: Node<E>) {
    let mut nodes = with_room(rt, alloc, 1);
    nodes.push_reserved(node);
    assert!(rt; table.finish(&nodes).is_ok() || table.finish(&nodes).is_ok());
    drop(nodes);
}

// The same ten entries, but what the node knows is filed by `Table::finish`.
fn ten_by_finish<E: Spelled, R: Abort + Wait>(rt: &R, alloc: Global) {
    let mut table = Table::<E>::new(alloc);
    let history = table.history();
    let none = (history.is_empty(), history.last().is_none());
    equal(rt, "no entries", none, (true, true));
    let node = begin(rt, alloc, &mut table, 2);
    let report = told_by(rt, &node);
    finish(rt, alloc, &mut table, node);
    equal(rt, "calls, and reports", tally(&table), [4, 1, 0, 0]);
    go_on(rt, alloc, &mut table, &report);
    drop(report);
    has_ten(rt, table);
}

#[test]
fn every_call_and_report_is_an_entry(rt: HostRuntime) {
    ten_alone::<Any, HostRuntime>(&rt, rt.alloc());
    ten_by_finish::<Any, HostRuntime>(&rt, rt.alloc());
}

// A table under a lock, of either kind. A seat with eleven turns has one more than calls, since a
// call that runs out of memory uses a turn.
fn ten_under_lock<E: Spelled, R: Abort + Wait>(rt: &R, alloc: Global) {
    let mut desk = LockedDesk::<E>::new(rt, alloc);
    ten_calls(rt, alloc, &mut desk, 1);
    drop(desk);
    let mut desk = TurnDesk::<E>::new(rt, alloc, 11);
    ten_calls(rt, alloc, &mut desk, 1);
    has_ten(rt, desk.close(rt, alloc));
}

#[test]
fn each_entry_has_its_place(rt: HostRuntime) {
    ten_under_lock::<Any, HostRuntime>(&rt, rt.alloc());
}
