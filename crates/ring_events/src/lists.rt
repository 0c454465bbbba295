ghost use Rattle.std.specs.Prelude.{◌≡◌, ◌≤◌, length};

use ring_id::{GroupName, NodeId};
use std::marker::Model;

/// The members of a group in joining order. Contracts see the list.
#[derive(Drop)]
pub struct MemberList {
    members: Vec<NodeId>,
}

impl Model for MemberList {
    ghost use Rattle.std.specs.Prelude.{List, ℕ};

    ghost Value = { List ℕ };

    ghost view = { λ a. a.members.items };
}

impl MemberList {
    /// Returns the list of these members.
    pub fn new(members: Vec<NodeId>) -> MemberList
        ensures { result ≡ members.items }
    {
        MemberList { members }
    }

    /// The members. Does not allocate.
    pub fn as_slice(&self) -> &[NodeId]
        ensures { result.now ≡ self.now }
    {
        &self.members
    }
}

/// The leader of each term of a group, or `None`, in the order of the terms from 1. Contracts see
/// the list, which has at most 1000 elements.
#[derive(Drop)]
pub struct TermList {
    leaders: Vec<Option<NodeId>>,
}

impl Model for TermList {
    ghost use Rattle.std.specs.Prelude.{List, Option, ℕ, ◌≤◌, length};

    ghost Value = { List (Option ℕ) };

    ghost view = { λ a. a.leaders.items };

    ghost invariant = { λ a. length a.leaders.items ≤ 1000 };
}

impl TermList {
    /// Returns the list of these leaders.
    pub fn new(leaders: Vec<Option<NodeId>>) -> TermList
        requires { length leaders.items ≤ 1000 }
        ensures { result ≡ leaders.items }
    {
        TermList { leaders }
    }

    /// The leaders. Does not allocate.
    pub fn as_slice(&self) -> &[Option<NodeId>]
        ensures value { result.now ≡ self.now }
        ensures few { length result.now ≤ 1000 }
    {
        &self.leaders
    }
}

/// The names of all groups in order of creation. Contracts see the list.
#[derive(Drop)]
pub struct GroupList {
    names: Vec<GroupName>,
}

impl Model for GroupList {
    ghost use Rattle.std.specs.Prelude.{List, ℕ};

    ghost Value = { List (List ℕ) };

    ghost view = { λ a. a.names.items };
}

impl GroupList {
    /// Returns the list of these names.
    pub fn new(names: Vec<GroupName>) -> GroupList
        ensures { result ≡ names.items }
    {
        GroupList { names }
    }

    /// The names. Does not allocate.
    pub fn as_slice(&self) -> &[GroupName]
        ensures { result.now ≡ self.now }
    {
        &self.names
    }
}
