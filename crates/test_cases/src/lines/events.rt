use crate::equal::equal;
use crate::lines::texts::Text;
use crate::memory::{TWICE, tells_of_memory, with_room};
use ring_any::Any;
use ring_events::Reply;
use ring_grammar::{parse_event, print_reply};
use ring_mux::{Event, Mux};
use ring_schedule::AnyTraffic;
use std::alloc::Global;
use std::process::Abort;

// A ring on which a link is cut, and its next term.
const LINES: [&[u8]; 18] = [
    b"who a 3",
    b"create a chang",
    b"join a 3",
    b"join a 1",
    b"join a 2/9",
    b"leave a 2",
    b"join a 2",
    b"start a",
    b"cut a 2 left",
    b"deliver a 2 left",
    b"drain a 100",
    b"pending a",
    b"start a",
    b"drain a 100",
    b"who a 1",
    b"members a",
    b"terms a",
    b"groups",
];

const REPLIES: &[u8] = b"no no-group\nok\nok\nok\nok\nok\nok\nterm 1\nok\nidle\n\
    drained 2 left 2\npending 2\nterm 2\ndrained 8 left 0\nleader 2 3\nmembers 3 1 2\n\
    terms 1:- 2:3\ngroups a\n";

// The events that the lines spell.
fn events(rt: &impl Abort, alloc: Global) -> Vec<Event<Any>> {
    let mut events = with_room(rt, alloc, LINES.len());
    for line in &LINES {
        let event = parse_event(line).expect(rt, "no event");
        assert!(rt; events.push(event).is_ok());
    }
    events
}

// The lines of these replies.
fn lines_of(rt: &impl Abort, alloc: Global, replies: &[Reply]) -> Text {
    let mut lines = with_room(rt, alloc, 300);
    for reply in replies {
        equal(rt, "a reply", print_reply(reply, &mut lines), Ok(()));
    }
    let text = Text::of(&lines);
    drop(lines);
    text
}

// The lines by which a mux answers these events in one list. `None` if it ran out of memory.
fn answered(rt: &impl Abort, alloc: Global, events: &[Event<Any>]) -> Option<Text> {
    let mut mux: Mux<Any, AnyTraffic> = Mux::new(alloc).expect(rt, "no mux");
    let answered = mux.run(alloc, events);
    drop(mux);
    let Ok(replies) = answered else {
        return None;
    };
    let lines = lines_of(rt, alloc, &replies);
    drop(replies);
    if tells_of_memory(lines.bytes()) {
        return None;
    }
    Some(lines)
}

#[test]
fn a_list_of_events_is_answered_as_its_lines_are(rt: HostRuntime) {
    let alloc = rt.alloc();
    let events = events(&rt, alloc);
    let lines = match answered(&rt, alloc, &events) {
        Some(lines) => lines,
        None => answered(&rt, alloc, &events).expect(&rt, TWICE),
    };
    drop(events);
    equal(&rt, "the replies", lines.bytes(), REPLIES);
}
