use crate::equal::equal;
use ring_accept::{JournalFault, ProgramFault};

// Each fault that is not of a journal, and its line.
const FAULTS: [(ProgramFault, &str); 9] = [
    (ProgramFault::Read, "ringd: read failed"),
    (ProgramFault::Endless, "ringd: endless input"),
    (ProgramFault::Write, "ringd: write failed"),
    (ProgramFault::NoMemory, "ringd: no memory"),
    (ProgramFault::Unreadable, "ringd: config unreadable"),
    (ProgramFault::Bad, "ringd: config bad"),
    (ProgramFault::Listen, "ringd: listen failed"),
    (ProgramFault::Accept, "ringd: accept failed"),
    (ProgramFault::Thread, "ringd: thread failed"),
];

// Each fault of a journal, and its line.
const JOURNAL_FAULTS: [(JournalFault, &str); 9] = [
    (JournalFault::InUse, "ringd: journal in use"),
    (JournalFault::Unreadable, "ringd: journal unreadable"),
    (JournalFault::NotAFile, "ringd: journal not a file"),
    (
        JournalFault::Bad { at: 17 },
        "ringd: journal bad at byte 17",
    ),
    (JournalFault::Version, "ringd: journal of another version"),
    (JournalFault::Failed, "ringd: journal failed"),
    (JournalFault::Lives, "ringd: journal has no life left"),
    (JournalFault::TakenOver, "ringd: journal taken over"),
    (JournalFault::NoAnswer, "ringd: journal unanswered"),
];

#[test]
fn each_fault_has_its_line(rt: HostRuntime) {
    for (fault, line) in FAULTS {
        let told = fault.to_string(rt.alloc()).expect(&rt, "no line");
        equal(&rt, "a line", told.as_str(), line);
        drop(told);
    }
    for (cause, line) in JOURNAL_FAULTS {
        let fault = ProgramFault::from(cause);
        let told = fault.to_string(rt.alloc()).expect(&rt, "no line");
        equal(&rt, "a line of a journal", told.as_str(), line);
        drop(told);
    }
}
