//! Sessions over memory, their lines, the nodes that workers hand over, and what a table's entries
//! are. A test that runs out of memory stops.

use crate::equal::equal;
use ring_any::Any;
use ring_election::RingElection;
use ring_events::Command;
use ring_lines::{FromRead, ToWrite};
use ring_node::Node;
use ring_service::Front;
use ring_table::{Access, Entry, Kept, Table};
use ring_terms::Noting;
use ring_workers::{Handed, Why};
use std::alloc::Global;
use std::process::Abort;
use std::sync::Wait;

/// Stops the test if a session over memory, by this seat, is told something else.
pub fn tells<R: Abort + Wait, A: Access<Any> + Drop>(
    rt: &R,
    alloc: Global,
    front: &Front<A>,
    seat: &mut A::Seat,
    session: u32,
    lines: &[u8],
    told: &[u8],
)
    requires { A.has_seat front.now seat.old }
    ensures { A.has_seat front.now seat.new }
{
    let mut writer = ToWrite(Vec::new(alloc));
    let served = front.serve(rt, seat, session, &mut FromRead(lines), &mut writer, 1000);
    let found = (served.is_ok(), writer.0.as_slice());
    equal(rt, "served, and told", found, (true, told));
    drop(writer);
}

/// The lines of a first session. The last one is no command of a client.
pub const FIRST: &[u8] = b"create a chang\njoin a 5\nstart a\nmembers a\ndrain a 1\n";

/// Their replies.
pub const FIRST_TOLD: &[u8] = b"ok\nok\nterm 1\nmembers 5\nno bad-line\n";

/// The lines of a second session.
pub const SECOND: &[u8] = b"join a 5\ncut a 5 left\ngroups";

/// Their replies.
pub const SECOND_TOLD: &[u8] = b"no member\nno bad-line\ngroups a\n";

/// Returns a text `times` times.
pub fn repeated(rt: &impl Abort, alloc: Global, text: &[u8], times: u32) -> Vec<u8> {
    let mut all = Vec::new(alloc);
    for _ in 0..times {
        all.extend_from_slice(text).expect(rt, "no memory");
    }
    all
}

/// Returns the nodes that the workers handed over. Stops the test if a worker was not told to stop.
pub fn nodes_of<E: RingElection>(
    rt: &impl Abort,
    alloc: Global,
    handed: Vec<Handed<E>>,
) -> Vec<Node<E>> {
    let mut nodes = Vec::new(alloc);
    for one in handed {
        equal(rt, "why it ends", one.why, Why::Stopped);
        match one.append_to(&mut nodes) {
            Ok(rest) => drop(rest),
            Err(_) => panic!(rt; "no memory"),
        }
    }
    nodes
}

/// Returns the session and the number of a call that is a join, and whether it is done.
pub fn joined<E>(entry: Option<&Entry<E>>) -> Option<(u32, u32, bool)> {
    match entry {
        Some(
            Entry::Call {
                session,
                command: Command::Join(_, node),
                reply,
            },
        ) => Some((*session, node.get(), matches!(reply.as_kept(), Kept::Done))),
        _ => None,
    }
}

/// Returns the numbers of calls in a history, and of reports that were news, known and stale.
pub fn tally<E: RingElection>(table: &Table<E>) -> [usize; 4] {
    let (mut calls, mut news, mut known, mut stale) = (0_usize, 0_usize, 0_usize, 0_usize);
    for entry in table.history() {
        match entry {
            Entry::Call { .. } => calls = calls.saturating_add(1),
            Entry::Filing { noting, .. } => match noting {
                Noting::Noted => news = news.saturating_add(1),
                Noting::Known => known = known.saturating_add(1),
                Noting::Stale => stale = stale.saturating_add(1),
            },
        }
    }
    [calls, news, known, stale]
}
