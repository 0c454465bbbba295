//! A test case of twenty groups that are started while each inbox holds one item. A test that runs
//! out of memory stops.

use crate::equal::equal;
use crate::memory::shared;
use crate::table::grounds::{end, open_locked};
use crate::table::telling::{nodes_of, repeated, tells};
use ring_any::Any;
use ring_election::RingElection;
use ring_id::GroupName;
use ring_node::Node;
use ring_service::Waiting;
use ring_table::Table;
use ring_workers::{Handed, OpenGate};
use std::alloc::Global;
use std::collections::VecDeque;
use std::fmt::Write;
use std::process::Abort;

// The names of the groups: a letter each.
const GROUPS: &str = "abcdefghijklmnopqrst";

// Returns the lines by which the groups of the members 1 and 2 are made, and each is started once.
fn twenty_groups(rt: &impl Abort, alloc: Global) -> String {
    let mut lines = String::new(alloc);
    for name in GROUPS.chars() {
        let made = writeln!(
            lines,
            "create {name} chang\njoin {name} 1\njoin {name} 2\nstart {name}"
        );
        assert!(rt; made.is_ok());
    }
    lines
}

// Returns whether a worker, of two, has the node of its member of a group, or the begin waits for
// the worker.
fn is_begun<E: RingElection>(
    nodes: &[Node<E>],
    waiting: &VecDeque<Waiting>,
    group: GroupName,
    worker: u32,
) -> bool {
    for node in nodes {
        let charter = node.charter();
        if let Some(member) = charter.roster().at(node.position()) {
            if charter.group() == group && member.get() % 2 == worker {
                return true;
            }
        }
    }
    for begin in waiting {
        if begin.worker == worker as usize && begin.charter.group() == group {
            return true;
        }
    }
    false
}

// Stops the test if a worker has not begun one of the groups, and no begin of it waits.
fn all_begun<E: RingElection>(
    rt: &impl Abort,
    alloc: Global,
    handed: Vec<Handed<E>>,
    waiting: VecDeque<Waiting>,
) {
    let nodes = nodes_of(rt, alloc, handed);
    for name in GROUPS.as_bytes() {
        let group = GroupName::from_bytes(&[*name]).expect(rt, "no name");
        let zero = is_begun(&nodes, &waiting, group, 0);
        let one = is_begun(&nodes, &waiting, group, 1);
        let found = (name, zero, one);
        equal(rt, "begun by two workers", found, (name, true, true));
    }
    drop(nodes);
    drop(waiting);
}

// When the service is ended, nobody shares the table any more.
#[test]
fn no_begin_is_lost(rt: HostRuntime) {
    let alloc = rt.alloc();
    let lines = twenty_groups(&rt, alloc);
    let told = repeated(&rt, alloc, b"ok\nok\nok\nterm 1\n", 20);
    let gate = shared(&rt, alloc, OpenGate);
    let made = open_locked(&rt, alloc, Table::<Any>::new(alloc), 2, 1, &gate);
    let mut ground = made.expect(&rt, "no service");
    drop(gate);
    let (front, seat) = (ground.service.front(), &mut ground.one);
    tells(&rt, alloc, front, seat, 1, lines.as_bytes(), &told);
    drop(lines);
    drop(told);
    let (table, handed, waiting) = end(&rt, ground);
    drop(table);
    all_begun(&rt, alloc, handed, waiting);
}
