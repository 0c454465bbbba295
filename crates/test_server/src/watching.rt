use crate::equal::equal;
use ring_http::Beside;
use ring_journal::{Batch, Medium, MemoryMedium};
use ring_server::{Meter, Metered, Watch};
use std::sync::Arc;

// The bytes and the syncs of a meter.
fn counts_of(meter: &Meter) -> (u64, u64) {
    let figures = meter.figures();
    (figures.bytes, figures.syncs)
}

// The journal begins with five bytes. It is written by two batches and synced, and then another
// text takes its place.
#[test]
fn a_journal_is_metered(rt: HostRuntime) {
    let alloc = rt.alloc();
    let other = Batch::from(b"xy\n".to_vec(alloc).expect(&rt, "no batch"));
    let text = Batch::from(b"abcd\n".to_vec(alloc).expect(&rt, "no batch"));
    let memory = MemoryMedium::new(text.bytes().to_vec(alloc).expect(&rt, "no journal"));
    let meter = Arc::new(alloc, Meter::new(text.len())).expect(&rt, "no meter");
    let theirs = Arc::try_clone(&meter).expect(&rt, "no meter");
    let mut medium = Metered::new(rt, memory, theirs);
    let begun = counts_of(&meter);
    let first = medium.append(&text);
    drop(text);
    let written = (first, medium.append(&other), counts_of(&meter));
    let synced = (medium.sync(), counts_of(&meter));
    let replaced = (medium.replace(&other), counts_of(&meter));
    drop(medium);
    drop(meter);
    drop(other);
    let done = Ok(());
    let wanted = (
        (5, 0),
        (done, done, (13, 0)),
        (done, (13, 1)),
        (done, (3, 1)),
    );
    equal(&rt, "counts", (begun, written, synced, replaced), wanted);
}

// 1024 answers are remembered, and then the oldest gives way to a newer one.
#[test]
fn the_last_answers_are_remembered(rt: HostRuntime) {
    let watch = Watch::new(rt.alloc(), 1).expect(&rt, "no watch");
    let known = watch.beside(&rt, 0);
    let none = (known.shown_at(0), known.shown_at(1));
    for place in 1..1026 {
        known.note_shown(place, 7);
    }
    known.note_shown(2000, 9);
    let oldest = (known.shown_at(1), known.shown_at(2), known.shown_at(3));
    let newest = (known.shown_at(1025), known.shown_at(2000));
    drop(watch);
    let wanted = ((None, None), (None, None, Some(7)), (Some(7), Some(9)));
    equal(&rt, "sums", (none, oldest, newest), wanted);
}
