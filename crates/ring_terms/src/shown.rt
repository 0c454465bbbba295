//! Groups and terms of a book, read part by part.
ghost use Rattle.std.specs.Prelude.{◌≡◌, slice_get};

use crate::group::Group;
use crate::term::Term;
use ring_election::RingElection;
use ring_id::{GroupName, NodeId};
use ring_roster::Roster;
use std::marker::Model;

/// A group of a book. Contracts see its name and its view.
///
/// No call allocates.
#[derive(Drop)]
pub struct ShownGroup<'a, E: RingElection> {
    name: GroupName,
    group: &'a Group<E>,
}

impl<'a, E: RingElection> Model for ShownGroup<'a, E> {
    ghost use Rattle.std.specs.Prelude.{List, ℕ};
    ghost use Rattle.ring_terms.specs.Object.{GroupView};
    ghost use Rattle.ring_terms.specs.Books.{group_view};

    ghost Value = { List ℕ × GroupView E };

    ghost view = { λ a. (a.name, group_view a.group.now) };
}

impl<'a, E: RingElection> ShownGroup<'a, E> {
    ghost use Rattle.ring_terms.specs.Books.{group_view};

    /// Returns this group under its name.
    pub(crate) fn new(name: GroupName, group: &'a Group<E>) -> ShownGroup<'a, E>
        ensures { result ≡ (name, group_view group.now) }
    {
        ShownGroup { name, group }
    }

    /// Its name.
    pub fn name(&self) -> GroupName
        ensures { result ≡ self.now.0 }
    {
        self.name
    }

    /// The algorithm of its terms.
    pub fn algorithm(&self) -> E
        ensures { result ≡ self.now.1.algorithm }
    {
        self.group.algorithm()
    }

    /// Its members in joining order.
    pub fn members(&self) -> &'a [NodeId]
        ensures { result.now ≡ self.now.1.members }
    {
        self.group.member_slice()
    }

    /// Its term at this place, counted from 0; `None` past the last.
    pub fn term_at(&self, place: usize) -> Option<ShownTerm<'a, E>>
        ensures { result ≡ slice_get self.now.1.terms place }
    {
        let term = self.group.term_at(place)?;
        Some(ShownTerm { term })
    }
}

/// A term of a group. Contracts see its ring, its leader or `None`, and a flag for each position:
/// whether that member is informed.
///
/// No call allocates.
#[derive(Drop)]
pub struct ShownTerm<'a, E: RingElection> {
    term: &'a Term<E>,
}

impl<'a, E: RingElection> Model for ShownTerm<'a, E> {
    ghost use Rattle.ring_terms.specs.Object.{TermView};
    ghost use Rattle.ring_terms.specs.Books.{term_view};

    ghost Value = { TermView };

    ghost view = { λ a. term_view a.term.now };
}

impl<'a, E: RingElection> ShownTerm<'a, E> {
    /// Its ring.
    pub fn ring(&self) -> &'a Roster
        ensures { result.now ≡ self.now.ring }
    {
        self.term.charter().roster()
    }

    /// Its leader; `None` if it has none.
    pub fn leader(&self) -> Option<NodeId>
        ensures { result ≡ self.now.leader }
    {
        self.term.leader()
    }

    /// Whether each member is informed, by its position on the ring.
    pub fn informed(&self) -> &'a [bool]
        ensures { result.now ≡ self.now.informed }
    {
        self.term.informed()
    }
}
