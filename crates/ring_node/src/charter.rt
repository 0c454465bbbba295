ghost use Rattle.std.specs.Prelude.{◌≡◌, ◌↔◌, IsTrue, IfOk};

use ring_election::RingElection;
use ring_id::{GroupName, NoMemory, TermNo};
use ring_roster::Roster;
use std::alloc::Global;
use std::sync::Arc;

/// The facts of a term: its group, its number, the algorithm that decides it, and its ring.
///
/// Nodes, envelopes and reports of a term each own a share of its charter. Contracts compare
/// charters by value.
#[derive(Drop)]
pub struct Charter<E> {
    group: GroupName,
    term: TermNo,
    algorithm: E,
    roster: Roster,
}

impl<E: RingElection> Charter<E> {
    /// Returns the charter of this term as a shared owner. `NoMemory` if an allocation fails.
    pub fn new(
        alloc: Global,
        group: GroupName,
        term: TermNo,
        algorithm: E,
        roster: Roster,
    ) -> Result<Arc<Charter<E>>, NoMemory>
        ensures { IfOk result
            (λ c. c.value
            ≡ record { group = group; term = term; algorithm = algorithm; roster = roster }) }
    {
        let charter = Charter {
            group,
            term,
            algorithm,
            roster,
        };
        let Ok(shared) = Arc::new(alloc, charter) else {
            return Err(NoMemory);
        };
        Ok(shared)
    }

    /// Returns the charter of the same term with this algorithm as a shared owner. `NoMemory` if an
    /// allocation fails.
    pub fn under<F: RingElection>(
        &self,
        alloc: Global,
        algorithm: F,
    ) -> Result<Arc<Charter<F>>, NoMemory>
        ensures { IfOk result
            (λ c. c.value
            ≡ record {
              group = self.now.group;
              term = self.now.term;
              algorithm = algorithm;
              roster = self.now.roster;
            }) }
    {
        let roster = self.roster.shared()?;
        Charter::new(alloc, self.group, self.term, algorithm, roster)
    }

    /// The group of this term. Does not allocate, like the other readers.
    pub fn group(&self) -> GroupName
        ensures { result ≡ self.now.group }
    {
        self.group
    }

    /// The number of this term.
    pub fn term(&self) -> TermNo
        ensures { result ≡ self.now.term }
    {
        self.term
    }

    /// The algorithm that decides this term.
    pub fn algorithm(&self) -> E
        ensures { result ≡ self.now.algorithm }
    {
        self.algorithm
    }

    /// The ring of this term.
    pub fn roster(&self) -> &Roster
        ensures { result.now ≡ self.now.roster }
    {
        &self.roster
    }

    /// Whether two charters have the same group, term, algorithm and ring. Does not allocate.
    pub fn same(&self, other: &Charter<E>) -> bool
        ensures { IsTrue result ↔ (self.now ≡ other.now) }
    {
        self.group == other.group
            && self.term == other.term
            && self.algorithm == other.algorithm
            && self.roster.same(&other.roster)
    }
}
