//! The elections of worked rings, drawn. A call that ran out of memory is repeated once.

use crate::elections::rings::{charter, rising};
use crate::memory::TWICE;
use ring_any::Any;
use ring_chart::election;
use ring_node::Charter;
use std::alloc::{AllocError, Global};
use std::process::Abort;
use std::sync::Arc;

/// The words of every picture.
const DRAIN: &str = "in the order of a drain: not what this run of the service delivered.";

/// The picture of a charter's election.
fn drawn_of(rt: &impl Abort, alloc: Global, charter: &Arc<Charter<Any>>) -> String {
    match election(alloc, charter) {
        Ok(picture) => picture,
        Err(AllocError) => election(alloc, charter).expect(rt, TWICE),
    }
}

/// The picture of the election of the numbers from 1 to `most`. Stops the test if a second picture
/// is another, as it would be if one had lost a piece.
fn drawn(rt: &impl Abort, alloc: Global, algorithm: Any, most: u32) -> String {
    let numbers = rising(rt, alloc, most);
    let charter = charter(rt, alloc, 1, algorithm, &numbers);
    drop(numbers);
    let picture = drawn_of(rt, alloc, &charter);
    let again = drawn_of(rt, alloc, &charter);
    assert!(rt; picture.as_str() == again.as_str());
    drop(again);
    drop(charter);
    picture
}

/// Stops the test if a picture lacks one of these texts, has one of those others, or is no SVG
/// document of its own.
fn says(rt: &impl Abort, picture: &str, texts: &[&str], others: &[&str]) {
    assert!(rt; picture.starts_with("<svg xmlns=\"http://www.w3.org/2000/svg\" "));
    assert!(rt; picture.ends_with("</svg>\n"));
    assert!(rt; picture.contains(DRAIN));
    for text in texts {
        assert!(rt; picture.contains(*text));
    }
    for text in others {
        assert!(rt; !picture.contains(*text));
    }
}

/// Number 3 passes all members, and each other number ends at the next member: five deliveries, and
/// three of the announcement.
#[test]
fn an_election_is_drawn_to_its_end(rt: HostRuntime) {
    let picture = drawn(&rt, rt.alloc(), Any::Chang, 3);
    let title = "Chang-Roberts, ring 1 2 3, term 1 of group a<";
    let outcome = "leader 3, known to 3 of 3 after 8 deliveries; nothing in flight<";
    let others = ["Cut off", "style", "not drawn"];
    says(&rt, picture.as_str(), &[title, outcome], &others);
}

/// Number 64 passes all members, and each other number ends at the next member: 127 deliveries, and
/// 64 of the announcement.
#[test]
fn sixty_four_members_have_columns(rt: HostRuntime) {
    let picture = drawn(&rt, rt.alloc(), Any::Chang, 64);
    let outcome = "leader 64, known to 64 of 64 after 191 deliveries; nothing in flight<";
    let texts = [outcome, ", ring 1 2 3 4 "];
    says(&rt, picture.as_str(), &texts, &["Cut off", "not drawn"]);
}

/// LeLann's election of 256 members has 65,792 deliveries. The first 500 go no further than the
/// first 32 members, and 256 numbers are in flight.
#[test]
fn a_long_election_is_cut_off(rt: HostRuntime) {
    let picture = drawn(&rt, rt.alloc(), Any::LeLann, 256);
    let title = "LeLann, ring of 256 members, term 1 of group a<";
    let outcome = "undecided after 500 deliveries; 256 in flight at the end<";
    let end = "Cut off after 500 deliveries: a picture has no more.<";
    let columns = "The first 64 of 256 members have columns.";
    says(&rt, picture.as_str(), &[title, outcome, end, columns], &[]);
    assert!(rt; picture.len() < 250_000);
}

/// Number 256 is passed on by each member, which first takes the number of the member before it. So
/// the first 64 members take 127 packets, and the next one goes to member 65.
#[test]
fn an_election_ends_at_the_last_column(rt: HostRuntime) {
    let picture = drawn(&rt, rt.alloc(), Any::Chang, 256);
    let end = "Cut off after 127 deliveries: the next one is to a member without a column.<";
    let columns = "The first 64 of 256 members have columns.";
    says(&rt, picture.as_str(), &[end, columns], &[]);
}
