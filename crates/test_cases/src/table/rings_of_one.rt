//! Elections of one member, and how their commands and replies are spelled. A call that ran out of
//! memory is repeated once.

use crate::equal::equal;
use crate::memory::{TWICE, with_room};
use ring_any::Any;
use ring_election::RingElection;
use ring_events::Command;
use ring_id::Side;
use ring_lines::{Spell, parse_command};
use ring_node::{Charter, Node, Report, TakeFault};
use std::alloc::Global;
use std::process::Abort;
use std::sync::Arc;

/// An election whose commands are spelled by lines. Test cases are for any such election, so that
/// their proofs do not see the parts of `Any`.
pub trait Spelled: RingElection {
    /// Returns the command that a line spells, if it spells one.
    fn parse(line: &[u8]) -> Option<Command<Self>>;
}

impl Spelled for Any {
    fn parse(line: &[u8]) -> Option<Command<Any>> {
        parse_command(line)
    }
}

/// Stops the test if the reply or the answer to a line is spelled by something else than `wanted`.
pub fn is_line<S: Spell>(rt: &impl Abort, alloc: Global, line: &[u8], told: &S, wanted: &[u8]) {
    let mut text = with_room(rt, alloc, 64);
    let spelled = told.spell(&mut text);
    let found = (line, spelled, text.as_slice());
    equal(rt, "a line, and its reply", found, (line, Ok(()), wanted));
    drop(text);
}

// Returns the node of the one member of a charter's ring, which has received nothing.
fn seated<E: RingElection>(rt: &impl Abort, alloc: Global, charter: &Arc<Charter<E>>) -> Node<E> {
    equal(rt, "members", charter.roster().len(), 1);
    for _ in 0..2 {
        let copy = Arc::try_clone(charter).expect(rt, "no copy");
        if let Ok(node) = Node::seat(alloc, copy, 0) {
            return node;
        }
    }
    panic!(rt; "{TWICE}")
}

/// Returns the node of the one member of a charter's ring, which knows that it leads.
pub fn elect<E: RingElection>(
    rt: &impl Abort,
    alloc: Global,
    charter: &Arc<Charter<E>>,
) -> Node<E> {
    let mut node = seated(rt, alloc, charter);
    let copy = Arc::try_clone(node.charter()).expect(rt, "no copy");
    let sent = node.envelope(copy, Side::Right, 0);
    let taken = match node.take(sent.expect(rt, "nothing was sent")) {
        Err((TakeFault::NoMemory, back)) => node.take(back),
        taken => taken,
    };
    assert!(rt; matches!(taken, Ok(Some(_))));
    drop(taken);
    node
}

/// Returns the report of a node that knows its leader.
pub fn told_by<E: RingElection>(rt: &impl Abort, node: &Node<E>) -> Report<E> {
    let copy = Arc::try_clone(node.charter()).expect(rt, "no copy");
    node.report(copy).expect(rt, "it knows no leader")
}
