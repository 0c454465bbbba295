ghost use Rattle.std.specs.Prelude.{◌≡◌, ◌<◌, IfOk, false, length, slice_index};
ghost use Rattle.ring_terms.specs.Object.{new_term};
ghost use Rattle.ring_terms.specs.Commands.{member_refusal, Shows};
ghost use Rattle.ring_terms.specs.Standings.{TellsIn};

use crate::standing::{Noting, Standing};
use ring_election::RingElection;
use ring_id::{NoMemory, NodeId, NodeNo, Refusal};
use ring_node::{Charter, Report};
use std::alloc::Global;
use std::sync::Arc;

/// One term of a group: its charter, its leader or `None`, and for each position of its ring
/// whether that member is informed.
#[derive(Drop)]
pub(crate) struct Term<E> {
    charter: Arc<Charter<E>>,
    leader: Option<NodeId>,
    informed: Vec<bool>,
}

impl<E: RingElection> Term<E> {
    ghost use Rattle.ring_terms.specs.Books.{term_view};
    ghost use Rattle.ring_terms.specs.private.Books.{IsSound, NotesTerm};

    /// Returns the term of this charter, with no leader and no member informed.
    pub(crate) fn begin(alloc: Global, charter: Arc<Charter<E>>) -> Result<Term<E>, NoMemory>
        ensures charter { IfOk result (λ t. t.charter ≡ charter) }
        ensures fresh { IfOk result (λ t. term_view t ≡ new_term charter.value.roster) }
    {
        let Ok(informed) = vec![in alloc; false; charter.roster().len()] else {
            return Err(NoMemory);
        };
        Ok(Term {
            charter,
            leader: None,
            informed,
        })
    }

    /// The charter of this term.
    pub(crate) fn charter(&self) -> &Arc<Charter<E>>
        ensures { result.now ≡ self.now.charter }
    {
        &self.charter
    }

    /// The leader of this term; `None` if it has none.
    pub(crate) fn leader(&self) -> Option<NodeId>
        ensures { result ≡ self.now.leader }
    {
        self.leader
    }

    /// Whether each member is informed, by its position.
    pub(crate) fn informed(&self) -> &[bool]
        ensures { result.now ≡ self.now.informed.items }
    {
        &self.informed
    }

    /// The standing of the member with this number in this term.
    pub(crate) fn who(&self, node: NodeNo) -> Result<Standing, Refusal>
        requires { IsSound E.winner self.now }
        ensures { Shows (member_refusal node (term_view self.now)) false result
            (λ s. TellsIn node self.now.charter.value.term s (term_view self.now)) }
    {
        let term = self.charter.term();
        let Some(position) = self.charter.roster().position(node) else {
            return Err(Refusal::NotInTerm);
        };
        match self.leader {
            Some(leader) if self.informed[position] => Ok(Standing::Leader { term, leader }),
            _ => Ok(Standing::Undecided(term)),
        }
    }

    /// Files a report.
    pub(crate) fn note(&mut self, report: &Report<E>) -> Noting
        requires { IsSound E.winner self.old }
        ensures notes { NotesTerm E.is_greatest report.now self.old result self.new }
        ensures kept { IsSound E.winner self.new }
    {
        if !self.charter.same(report.charter()) {
            return Noting::Stale;
        }
        self.inform(report.position(), report.leader())
    }

    /// Files that the member at this position knows the leader, the winner of the ring.
    pub(crate) fn inform(&mut self, position: usize, leader: NodeId) -> Noting
        requires sound { IsSound E.winner self.old }
        requires inside { position < length self.old.charter.value.roster }
        requires wins { leader
            ≡ E.winner self.old.charter.value.algorithm self.old.charter.value.roster }
        ensures notes { NotesTerm E.is_greatest
            (record {
              charter = self.old.charter.value;
              member = slice_index self.old.charter.value.roster position;
              leader = leader;
            })
            self.old result self.new }
        ensures kept { IsSound E.winner self.new }
    {
        if self.informed[position] {
            return Noting::Known;
        }
        self.informed[position] = true;
        self.leader = Some(leader);
        Noting::Noted
    }
}
