//! The meaning of replies for a candidate.
ghost use Rattle.std.specs.Prelude.{◌≡◌, ◌↔◌, IsTrue};
ghost use Rattle.std.specs.List.{list_any};
ghost use Rattle.ring_roster.specs.Ring.{has_number};
ghost use Rattle.ring_events.specs.declared.reply.Reply.TheVariants as variant;
ghost use Rattle.ring_campaign.specs.Entries.{IsFirst, may_lead};
ghost use Rattle.ring_campaign.specs.private.Looking.{IsTold, SaysFirst, SaysLast, SaysMember};

use crate::finding::Last;
use ring_events::Reply;
use ring_id::{NodeId, NodeNo, Refusal, TermNo};

/// Returns whether the member with this number may lead the last term, by a reply to `who`. If so,
/// its leave starts a new term.
pub(crate) fn may_lead(number: NodeNo, reply: &Reply) -> bool
    ensures { result ≡ may_lead number reply.now }
{
    match reply {
        Reply::Leader(_, leader) => leader.number() == number,
        Reply::Undecided(_) => true,
        _ => false,
    }
}

/// Returns whether a command was done.
pub(crate) fn is_done(reply: &Reply) -> bool
    ensures { IsTrue result ↔ (reply.now ≡ variant.Done) }
{
    match reply {
        Reply::Done => true,
        _ => false,
    }
}

/// Returns whether a reply equals the last one.
pub(crate) fn is_same(last: &Reply, reply: &Reply) -> bool
    requires { IsTold reply.now }
    ensures { IsTrue result ↔ (reply.now ≡ last.now) }
{
    match reply {
        Reply::Done => is_done(last),
        Reply::Leader(term, leader) => is_leader(last, *term, *leader),
        Reply::Undecided(term) => is_undecided(last, *term),
        Reply::Refused(refusal) => is_refused(last, *refusal),
        _ => unreachable!(),
    }
}

// Returns whether a reply names this leader of this term.
fn is_leader(reply: &Reply, term: TermNo, leader: NodeId) -> bool
    ensures { IsTrue result ↔ (reply.now ≡ variant.Leader term leader) }
{
    match reply {
        Reply::Leader(t, l) => *t == term && *l == leader,
        _ => false,
    }
}

// Returns whether a reply says that this term is undecided.
fn is_undecided(reply: &Reply, term: TermNo) -> bool
    ensures { IsTrue result ↔ (reply.now ≡ variant.Undecided term) }
{
    match reply {
        Reply::Undecided(t) => *t == term,
        _ => false,
    }
}

// Returns whether a reply is this refusal.
fn is_refused(reply: &Reply, refusal: Refusal) -> bool
    ensures { IsTrue result ↔ (reply.now ≡ variant.Refused refusal) }
{
    match reply {
        Reply::Refused(r) => *r == refusal,
        _ => false,
    }
}

/// Returns the last term by the list of leaders in a reply.
pub(crate) fn last_in(reply: &Reply) -> Last
    ensures { SaysLast reply.now result }
{
    match reply {
        Reply::Terms(list) => last_of(list.as_slice()),
        _ => Last::Unknown,
    }
}

// Returns the last term by a list of leaders.
fn last_of(leaders: &[Option<NodeId>]) -> Last
    ensures { SaysLast (variant.Terms leaders.now) result }
{
    match leaders.split_last() {
        None => Last::NoTerm,
        Some((last, _)) => match last {
            None => Last::Undecided,
            Some(leader) => Last::Leader(*leader),
        },
    }
}

/// Returns whether a list of members has the number of this one, or `None` if the reply is no such
/// list.
pub(crate) fn member_in(leader: NodeId, reply: &Reply) -> Option<bool>
    ensures { SaysMember leader reply.now result }
{
    match reply {
        Reply::Members(list) => Some(has_member(list.as_slice(), leader)),
        _ => None,
    }
}

// Returns whether one of the members has the number of this one.
fn has_member(members: &[NodeId], leader: NodeId) -> bool
    ensures { result ≡ list_any (has_number leader) members.now }
{
    members
        .iter()
        .any(|member| member.number() == leader.number())
}

/// Returns whether the first of a list of members has this number.
pub(crate) fn is_first(number: NodeNo, reply: &Reply) -> bool
    ensures { IsTrue result ↔ SaysFirst number reply.now }
{
    match reply {
        Reply::Members(list) => has_first(list.as_slice(), number),
        _ => false,
    }
}

// Returns whether the first of these members has this number.
fn has_first(members: &[NodeId], number: NodeNo) -> bool
    ensures { IsTrue result ↔ IsFirst number members.now }
{
    match members.first() {
        Some(first) => first.number() == number,
        None => false,
    }
}
