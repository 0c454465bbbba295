//! Tests of calls of the journal that no program makes, and of what no program shows.
//! `tests/check-journal` has all other cases.

use crate::equal::equal;
use crate::memory::with_room;
use ring_change::{Check, Line, parse_change, print_line};
use ring_journal::{Journal, MemoryMedium, RoomFault, is_line};
use ring_recovery::{Alarm, Ending};

#[test]
fn a_line_is_put_into_a_list(rt: HostRuntime) {
    let mut out = with_room(&rt, rt.alloc(), Line::LONGEST);
    let change = parse_change(b"create a chang").expect(&rt, "no change");
    let printed = print_line(&change, &mut Check::new(), &mut out);
    equal(
        &rt,
        "printed, and the line",
        (printed, out.as_slice()),
        (Ok(()), b"create a chang #a1f44896"),
    );
}

#[test]
fn a_line_is_added_and_settled(rt: HostRuntime) {
    let medium = MemoryMedium::new(with_room(&rt, rt.alloc(), 2));
    let mut journal = Journal::new(rt.alloc(), medium);
    assert!(rt; is_line(b"a"));
    let added = match journal.add(b"a") {
        Err(RoomFault::NoMemory) => journal.add(b"a"),
        answer => answer,
    };
    let done = (added, journal.settle(), journal.is_broken());
    let wanted = (Ok(()), Ok(()), false);
    equal(&rt, "added, settled, and broken", done, wanted);
    let memory = journal.medium();
    let found = (memory.text(), memory.kept());
    equal(&rt, "the text, and kept", found, (b"a\n", 2));
    drop(journal);
}

#[test]
fn the_first_ring_of_an_alarm_counts(rt: HostRuntime) {
    let alarm = Alarm::new();
    alarm.ring(&rt, Ending::Stopped);
    alarm.ring(&rt, Ending::Failed);
    equal(&rt, "the ending", alarm.wait(&rt), Ending::Stopped);
}
