//! A test case of a turn lock whose one seat uses up its turns before the lock is closed.

use crate::equal::equal;
use crate::table::desks::{Desk, TurnDesk};
use crate::table::rings_of_one::{Spelled, is_line};
use ring_any::Any;
use ring_id::Refusal;
use ring_table::Answer;
use std::alloc::Global;
use std::process::Abort;
use std::sync::Wait;

// Returns whether a line of session 1 is answered. If so, stops the test if the answer is not
// `told`. A call that runs out of memory is not repeated, since it uses a turn.
fn is_told<E: Spelled, R: Abort + Wait>(
    rt: &R,
    alloc: Global,
    desk: &mut TurnDesk<E>,
    line: &[u8],
    told: &[u8],
) -> bool {
    let answer = desk.call(rt, 1, E::parse(line).expect(rt, "no command"));
    let is_answered = !matches!(answer, Answer::Unplaced(Refusal::NoMemory));
    if is_answered {
        is_line(rt, alloc, line, &answer, told);
    }
    drop(answer);
    is_answered
}

// Uses the two turns of a seat. Returns the number of entries that they leave, or `None` if a call
// ran out of memory.
fn two_turns<E: Spelled, R: Abort + Wait>(rt: &R, alloc: Global) -> Option<usize> {
    let mut desk = TurnDesk::<E>::new(rt, alloc, 2);
    let is_made = is_told(rt, alloc, &mut desk, b"create a chang", b"1 ok\n");
    // a create that is refused leaves no entry and no group
    let told = if is_made {
        b"2 ok\n".as_slice()
    } else {
        b"1 no no-group\n"
    };
    let is_whole = is_told(rt, alloc, &mut desk, b"join a 5", told) && is_made;
    let is_spent = is_told(rt, alloc, &mut desk, b"members a", b"- no seat-spent\n");
    assert!(rt; is_spent);
    let table = desk.close(rt, alloc);
    let entries = table.history().len();
    drop(table);
    if is_whole { Some(entries) } else { None }
}

#[test]
fn a_seat_has_as_many_turns_as_it_was_given(rt: HostRuntime) {
    let entries = match two_turns::<Any, HostRuntime>(&rt, rt.alloc()) {
        Some(entries) => Some(entries),
        None => two_turns::<Any, HostRuntime>(&rt, rt.alloc()),
    };
    equal(&rt, "entries of two turns", entries, Some(2));
}
