ghost use Rattle.std.specs.Prelude.{◌≡◌, ◌<◌, [], length, None, OnErr, OnOk, Some, slice_get, slice_index, true, false};
ghost use Rattle.ring_terms.specs.Object.{InGroup, OfGroup, leaders, names, place_of};
ghost use Rattle.ring_terms.specs.Charters.{next_charter, running_charter, running_in};
ghost use Rattle.ring_terms.specs.Commands.{create_refusal, in_group, join_refusal, leave_refusal, never_refused, running_refusal, start_refusal, who_refusal, Answers, Creates, Joins, Leaves, Shows, StartsWith};
ghost use Rattle.ring_terms.specs.Kept.{IsKept};
ghost use Rattle.ring_terms.specs.Notes.{Notes};
ghost use Rattle.ring_terms.specs.Standings.{Tells};

use crate::group::Group;
use crate::shown::ShownGroup;
use crate::standing::{Noting, Standing};
use indexmap::IndexMap;
use ring_election::RingElection;
use ring_events::{GroupList, MemberList, TermList};
use ring_id::{GroupName, NoMemory, NodeId, NodeNo, Refusal};
use ring_node::{Charter, Report};
use std::alloc::Global;
use std::marker::Model;
use std::sync::Arc;

/// The greatest number of groups of a book.
const MOST_GROUPS: usize = 256;

/// All groups and their terms. Each term is one election of a leader on a ring (Lynch, Distributed
/// Algorithms, 3.1).
///
/// Contracts see a book as the election object: groups in order of creation. Its type keeps the
/// limits of 256 groups, 256 members of a group with different numbers, and 1000 terms. It also
/// keeps that a term's leader is the winner of its ring.
#[derive(Drop)]
pub struct Book<E: RingElection> {
    groups: IndexMap<GroupName, Group<E>>,
}

impl<E: RingElection> Model for Book<E> {
    ghost use Rattle.ring_terms.specs.Object.{Object};

    ghost Value = { Object E };

    ghost use Rattle.ring_terms.specs.Books.{object_view};
    ghost use Rattle.ring_terms.specs.private.Books.{IsBook};

    ghost view = { λ a. object_view a.groups.entries };

    ghost invariant = { λ a. IsBook E.winner a.groups.entries };
}

impl<E: RingElection> Book<E> {
    /// Returns a book without groups. Does not allocate.
    pub fn new(alloc: Global) -> Book<E>
        ensures { result ≡ [] }
    {
        Book {
            groups: IndexMap::new(alloc),
        }
    }

    /// The number of groups, at most 256. Does not allocate. The second clause holds of every book.
    pub fn len(&self) -> usize
        ensures value { result ≡ length self.now }
        ensures kept { IsKept E.winner self.now }
    {
        self.groups.len()
    }

    /// Adds a group last, without members or terms. Refused, the first that holds: `Exists` if a
    /// group has this name, `GroupLimit` if there are 256 groups, `NoMemory`.
    pub fn create(&mut self, alloc: Global, group: GroupName, algorithm: E) -> Result<(), Refusal>
        ensures { Answers (create_refusal group self.old) true self.old result self.new
            (λ _. Creates group algorithm self.old self.new) }
    {
        if self.groups.contains_key(&group) {
            return Err(Refusal::Exists);
        }
        if self.len() >= MOST_GROUPS {
            return Err(Refusal::GroupLimit);
        }
        let made = Group::new(alloc, group, algorithm);
        let Ok(_) = self.groups.insert(group, made) else {
            return Err(Refusal::NoMemory);
        };
        Ok(())
    }

    /// Adds a member last. Refused, the first that holds: `NoGroup`, `Member` if a member has this
    /// identity's number with any weight, `RingFull` if there are 256 members, `NoMemory`.
    pub fn join(&mut self, group: GroupName, node: NodeId) -> Result<(), Refusal>
        ensures { Answers (in_group group (join_refusal node) self.old) true self.old result
            self.new (λ _. InGroup group (Joins node) self.old self.new) }
    {
        let Some(found) = self.groups.get_mut(&group) else {
            return Err(Refusal::NoGroup);
        };
        found.join(node)
    }

    /// Removes the member with this number, and keeps the order of the rest. Does not allocate.
    /// Refused, the first that holds: `NoGroup`, `NotMember` if no member has this number.
    pub fn leave(&mut self, group: GroupName, node: NodeNo) -> Result<(), Refusal>
        ensures { Answers (in_group group (leave_refusal node) self.old) false self.old result
            self.new (λ _. InGroup group (Leaves node) self.old self.new) }
    {
        let Some(found) = self.groups.get_mut(&group) else {
            return Err(Refusal::NoGroup);
        };
        found.leave(node)
    }

    /// Returns the charter that `start` would make now, and changes nothing. Refused as `start` is.
    pub fn plan(&self, alloc: Global, group: GroupName) -> Result<Arc<Charter<E>>, Refusal>
        ensures { Shows (in_group group start_refusal self.now) true result
            (λ c. OfGroup group (λ g. c.value ≡ next_charter group g) self.now) }
    {
        let Some(found) = self.groups.get(&group) else {
            return Err(Refusal::NoGroup);
        };
        found.plan(alloc)
    }

    /// Starts a term and returns its charter. Its ring is the member list in joining order, it has
    /// no leader, and no member is informed. Refused, the first that holds: `NoGroup`, `Empty` if
    /// there are no members, `TermLimit` if 1000 terms were started, `NoMemory`.
    pub fn start(&mut self, alloc: Global, group: GroupName) -> Result<Arc<Charter<E>>, Refusal>
        ensures { Answers (in_group group start_refusal self.old) true self.old result self.new
            (λ c. InGroup group (StartsWith group c.value) self.old self.new) }
    {
        let Some(found) = self.groups.get_mut(&group) else {
            return Err(Refusal::NoGroup);
        };
        found.start(alloc)
    }

    /// Starts the term of a charter that `plan` returned, if its group has not changed since. Its
    /// ring is the charter's, it has no leader, and no member is informed. `NoMemory` if an
    /// allocation fails; nothing has changed then.
    pub fn start_planned(&mut self, alloc: Global, charter: Arc<Charter<E>>) -> Result<(), NoMemory>
        requires planned { OfGroup charter.value.group (λ g. (start_refusal g ≡ None)
            × (charter.value ≡ next_charter charter.value.group g)) self.old }
        ensures started { OnOk result
            (InGroup charter.value.group (StartsWith charter.value.group charter.value) self.old
            self.new) }
        ensures err { OnErr result (self.new ≡ self.old) }
    {
        let Some(found) = self.groups.get_mut(&charter.group()) else {
            unreachable!()
        };
        found.start_planned(alloc, charter)
    }

    /// The standing of a member in the last term: its leader if the member is informed, otherwise
    /// undecided. Does not allocate. Refused, the first that holds: `NoGroup`, `NoTerm`,
    /// `NotInTerm` if no member of the term's ring has this number.
    pub fn who(&self, group: GroupName, node: NodeNo) -> Result<Standing, Refusal>
        ensures { Shows (in_group group (who_refusal node) self.now) false result
            (λ s. OfGroup group (Tells node s) self.now) }
    {
        let Some(found) = self.groups.get(&group) else {
            return Err(Refusal::NoGroup);
        };
        found.who(node)
    }

    /// The charter of the last term. Does not allocate. Refused, the first that holds: `NoGroup`,
    /// `NoTerm`.
    pub fn running(&self, group: GroupName) -> Result<&Arc<Charter<E>>, Refusal>
        ensures { Shows (in_group group running_refusal self.now) false result
            (λ c. OfGroup group (λ g. running_charter group g ≡ Some c.now.value) self.now) }
    {
        let Some(found) = self.groups.get(&group) else {
            return Err(Refusal::NoGroup);
        };
        found.running()
    }

    /// The members of a group in joining order. Refused, the first that holds: `NoGroup`,
    /// `NoMemory`.
    pub fn members(&self, alloc: Global, group: GroupName) -> Result<MemberList, Refusal>
        ensures { Shows (in_group group never_refused self.now) true result
            (λ list. OfGroup group (λ g. list ≡ g.members) self.now) }
    {
        let Some(found) = self.groups.get(&group) else {
            return Err(Refusal::NoGroup);
        };
        found.members(alloc)
    }

    /// The leader of each term of a group, or `None`, in order. Refused, the first that holds:
    /// `NoGroup`, `NoMemory`.
    pub fn terms(&self, alloc: Global, group: GroupName) -> Result<TermList, Refusal>
        ensures { Shows (in_group group never_refused self.now) true result
            (λ list. OfGroup group (λ g. list ≡ leaders g) self.now) }
    {
        let Some(found) = self.groups.get(&group) else {
            return Err(Refusal::NoGroup);
        };
        found.terms(alloc)
    }

    /// The names of all groups in order of creation. `NoMemory` if an allocation fails.
    pub fn groups(&self, alloc: Global) -> Result<GroupList, Refusal>
        ensures { Shows None true result (λ list. list ≡ names self.now) }
    {
        let Ok(names) = self.groups.keys().copied().collect(alloc) else {
            return Err(Refusal::NoMemory);
        };
        Ok(GroupList::new(names))
    }

    /// The place of the group with this name in order of creation, from 0 on; `None` if no group
    /// has it. Does not allocate. The second clause holds of every book.
    pub fn place(&self, group: GroupName) -> Option<usize>
        ensures value { result ≡ place_of group self.now }
        ensures kept { IsKept E.winner self.now }
    {
        self.groups.get_index_of(&group)
    }

    /// The group at this place in order of creation, from 0 on; `None` past the last. Does not
    /// allocate.
    pub fn group_at(&self, place: usize) -> Option<ShownGroup<'_, E>>
        ensures { result ≡ slice_get self.now place }
    {
        let Some((name, group)) = self.groups.get_index(place) else {
            return None;
        };
        Some(ShownGroup::new(*name, group))
    }

    /// Files a report: the member is informed of the leader of the last term of its group. Does not
    /// allocate. `Stale` if the report's charter is not that of the last term of a group here.
    /// Otherwise `Known` if the member was informed already, and `Noted` if not.
    pub fn note(&mut self, report: &Report<E>) -> Noting
        ensures { Notes E.is_greatest report.now self.old result self.new }
    {
        let Some(found) = self.groups.get_mut(&report.charter().group()) else {
            return Noting::Stale;
        };
        found.note(report)
    }

    /// Files the news that a member knows the leader, the winner of its ring. The charter is that
    /// of the last term of the group at this place, and the member is at this position of its ring.
    /// `Known` if the member was informed already, otherwise `Noted`. Does not allocate. No name is
    /// looked up, and the charter is not read.
    pub fn inform(
        &mut self,
        place: usize,
        charter: &Charter<E>,
        position: usize,
        leader: NodeId,
    ) -> Noting
        requires placed { place_of charter.now.group self.old ≡ Some place }
        requires running { running_in charter.now.group self.old ≡ Some charter.now }
        requires inside { position < length charter.now.roster }
        requires wins { leader ≡ E.winner charter.now.algorithm charter.now.roster }
        ensures { Notes E.is_greatest
            (record {
              charter = charter.now;
              member = slice_index charter.now.roster position;
              leader = leader;
            }) self.old result self.new }
    {
        let Some(found) = self.groups.get_index_mut(place) else {
            unreachable!()
        };
        found.inform(charter, position, leader)
    }
}
