//! Test cases of campaigns.
use crate::table::fields::Step::{Clears, Elects, Says, Tells};
use crate::table::fields::{Step, run};

// A group with one member.
const FIVE: &[&[u8]] = &[b"create a chang", b"join a 5"];

// Lines that get the reply `ok`, and the steps after them.
const CASES: [(&[&[u8]], &[Step]); 8] = [
    // a client is a member until it ends
    (
        &[b"create a chang"],
        &[
            Tells(b"join a 3/9\n\n", b"ok\nundecided 1\n"),
            Says(b"members a", b"members\n"),
            Says(b"terms a", b"terms 1:-\n"),
        ],
    ),
    // a refused client is told why
    (
        &[b"create a chang", b"join a 3"],
        &[
            Tells(b"join b 3\n", b"no no-group\n"),
            Tells(b"join a 3\n", b"no member\n"),
            Tells(b"who a 3\n", b"no bad-line\n"),
            Tells(b"\n", b"no bad-line\n"),
            Tells(b"", b""),
            Says(b"members a", b"members 3\n"),
            Says(b"terms a", b"terms\n"),
        ],
    ),
    // a client follows a leader that is there
    (
        FIVE,
        &[
            Elects,
            Tells(b"join a 3\n", b"ok\nno not-in-term\n"),
            Says(b"members a", b"members 5\n"),
            Says(b"terms a", b"terms 1:5\n"),
        ],
    ),
    // a leader that is gone is not followed
    (
        FIVE,
        &[
            Elects,
            Says(b"leave a 5", b"ok\n"),
            Tells(b"join a 3\n", b"ok\nundecided 2\n"),
            Says(b"members a", b"members\n"),
        ],
    ),
    // nobody leads a term of an earlier connection
    (
        FIVE,
        &[
            Elects,
            Says(b"leave a 5", b"ok\n"),
            Tells(b"join a 5\n", b"ok\nundecided 2\n"),
            Says(b"members a", b"members\n"),
        ],
    ),
    // nothing is told while the last term is undecided
    (
        FIVE,
        &[
            Says(b"start a", b"term 1\n"),
            Tells(b"join a 3\n\n", b"ok\n"),
            Says(b"members a", b"members 5\n"),
            Says(b"terms a", b"terms 1:-\n"),
        ],
    ),
    // a term that nobody can decide is not waited for
    (
        FIVE,
        &[
            Says(b"start a", b"term 1\n"),
            Says(b"leave a 5", b"ok\n"),
            Tells(b"join a 3\n", b"ok\nundecided 2\n"),
            Says(b"members a", b"members\n"),
        ],
    ),
    // all members are taken out of all groups
    (
        &[
            b"create a chang",
            b"join a 5",
            b"join a 3/9",
            b"create b lelann",
            b"create c peterson",
            b"join c 4",
        ],
        &[
            Clears,
            Says(b"members a", b"members\n"),
            Says(b"members b", b"members\n"),
            Says(b"members c", b"members\n"),
            Says(b"terms a", b"terms\n"),
        ],
    ),
];

#[test]
fn clients_are_told_and_leave_no_member(rt: HostRuntime) {
    for (made, steps) in &CASES {
        run(&rt, rt.alloc(), made, steps);
    }
}
