ghost use Rattle.std.specs.Prelude.{◌≡◌, ◌<◌, ◌≤◌, [], vec_capacity, vec_len, IfErr, IfOk, IfSome, OnErr, OnOk};
ghost use Rattle.ring_workers.specs.private.Fates.{IsBegun, IsDelivered, dropped_by};
ghost use Rattle.ring_workers.specs.Holdings.{AllOwned, NoTwoAlike, nodes_of};
ghost use Rattle.ring_workers.specs.private.Holdings.{Steps};
ghost use Rattle.ring_workers.specs.private.Runs.{EndsAt, Turns, held_of};

use crate::desk::Desk;
use crate::handed::{Handed, Why};
use crate::item::Item;
use crate::nodes::Nodes;
use crate::outbox::receiver;
use crate::owner::Worker;
use crate::term_nodes::Fate;
use ring_election::RingElection;
use ring_id::{NoMemory, Refusal};
use ring_node::{Charter, Envelope, Filed, Report};
use std::alloc::Global;
use std::collections::VecDeque;
use std::sync::Arc;

/// All that a running worker has in hand.
#[derive(Drop)]
pub(crate) struct WorkerState<E: RingElection> {
    alloc: Global,
    pub(crate) nodes: Nodes<E>,
    pub(crate) outbox: VecDeque<Envelope<E>>,
    unfiled: Vec<Report<E>>,
    dropped: u64,
}

impl<E: RingElection> WorkerState<E> {
    /// The worker_state of a worker before its first item: it has nothing in hand.
    pub fn new(worker: Worker<E>) -> WorkerState<E>
        ensures nodes { result.nodes ≡ record {
          number = worker.owner.number;
          workers = worker.owner.workers;
          groups = [];
        } }
        ensures outbox { result.outbox.items ≡ [] }
        ensures dropped { result.dropped ≡ 0 }
    {
        let alloc = worker.alloc;
        WorkerState {
            alloc,
            nodes: Nodes::new(alloc, worker.owner),
            outbox: VecDeque::new(alloc),
            unfiled: Vec::new(alloc),
            dropped: 0,
        }
    }

    /// Handles an item. If the worker ends, the result says why. It has the item too if an
    /// allocation failed and so the item was not handled.
    pub fn handle<D: Desk<E>>(
        &mut self,
        item: Item<E>,
        desk: &mut D,
    ) -> Option<(Why, Option<Item<E>>)>
        ensures turns { Turns E.table item self.old.nodes self.new.nodes
            self.old.outbox.items self.new.outbox.items
            self.old.dropped self.new.dropped (held_of result) }
        ensures ends { EndsAt item result }
    {
        match item {
            Item::Stop => Some((Why::Stopped, None)),
            Item::Begin(charter) => match self.begin(&charter) {
                Ok(()) => None,
                Err(NoMemory) => Some((Why::Starved, Some(Item::Begin(charter)))),
            },
            Item::Packet(envelope) => match self.deliver(envelope, desk) {
                Ok(None) => None,
                Ok(Some(why)) => Some((why, None)),
                Err(back) => Some((Why::Starved, Some(Item::Packet(back)))),
            },
        }
    }

    /// Begins the term of a charter. If it is another charter than the one held of its group and
    /// term, it is dropped and counted.
    fn begin(&mut self, charter: &Arc<Charter<E>>) -> Result<(), NoMemory>
        ensures steps { Steps E.table charter.now.value self.old.nodes self.new.nodes
            self.old.outbox.items self.new.outbox.items }
        ensures grows { self.old.dropped ≤ self.new.dropped }
        ensures begun { OnOk result (IsBegun self.old.nodes self.new.nodes
            self.old.dropped self.new.dropped charter.now.value) }
        ensures uncounted { OnErr result (self.new.dropped ≡ self.old.dropped) }
    {
        let fate = self.nodes.begin(self.alloc, charter, &mut self.outbox)?;
        self.dropped = dropped_after(self.dropped, fate);
        Ok(())
    }

    /// Delivers an envelope and files the report that comes of it. An envelope for a node of
    /// another worker is dropped and counted, as is one that its node does not take. The result
    /// says why the worker ends, if it does. If an allocation fails, the envelope comes back.
    fn deliver<D: Desk<E>>(
        &mut self,
        envelope: Envelope<E>,
        desk: &mut D,
    ) -> Result<Option<Why>, Envelope<E>>
        ensures steps { Steps E.table envelope.charter self.old.nodes self.new.nodes
            self.old.outbox.items self.new.outbox.items }
        ensures grows { self.old.dropped ≤ self.new.dropped }
        ensures delivered { OnOk result (IsDelivered self.old.nodes self.new.nodes
            self.old.dropped self.new.dropped envelope) }
        ensures uncounted { OnErr result (self.new.dropped ≡ self.old.dropped) }
        ensures back { IfErr result (λ back. back ≡ envelope) }
        ensures why { IfOk result (λ end. IfSome end (λ why. why ≡ Why.Spent)) }
    {
        let owner = self.nodes.owner();
        if owner.of(receiver(&envelope)) != owner.number {
            self.dropped = self.dropped.saturating_add(1);
            return Ok(None);
        }
        if self.unfiled.reserve(1).is_err() {
            return Err(envelope);
        }
        let (fate, report) = self
            .nodes
            .hand_over(self.alloc, envelope, &mut self.outbox)?;
        self.dropped = dropped_after(self.dropped, fate);
        match report {
            Some(report) => Ok(file(&mut self.unfiled, report, desk)),
            None => Ok(None),
        }
    }

    /// The worker's nodes and all else that it hands over when it ends.
    pub fn hand_back(self, held: Option<Item<E>>, why: Why) -> Handed<E>
        ensures number { result.number ≡ self.nodes.number }
        ensures workers { result.workers ≡ self.nodes.workers }
        ensures nodes { result.nodes ≡ self.nodes }
        ensures outbox { result.outbox ≡ self.outbox }
        ensures dropped { result.dropped ≡ self.dropped }
        ensures held { result.held ≡ held }
        ensures unfiled { result.unfiled ≡ self.unfiled }
        ensures why { result.why ≡ why }
        ensures owned { AllOwned self.nodes.number self.nodes.workers (nodes_of self.nodes) }
        ensures apart { NoTwoAlike (nodes_of self.nodes) }
    {
        let owner = self.nodes.owner();
        let WorkerState {
            alloc: _,
            nodes,
            outbox,
            unfiled,
            dropped,
        } = self;
        Handed {
            number: owner.number,
            workers: owner.workers,
            nodes,
            outbox,
            held,
            unfiled,
            dropped,
            why,
        }
    }
}

/// How many items were dropped after an item of this fate: one more if the item was for no node
/// here, or not the next packet of its link.
fn dropped_after(dropped: u64, fate: Fate) -> u64
    ensures grows { dropped ≤ result }
    ensures counted { result ≡ dropped_by fate dropped }
{
    match fate {
        Fate::Done | Fate::Older => dropped,
        Fate::Strange => dropped.saturating_add(1),
    }
}

/// Files a report. A report that the desk refuses is kept; there is room for it. The worker ends if
/// the desk's turns are used up.
fn file<E: RingElection, D: Desk<E>>(
    unfiled: &mut Vec<Report<E>>,
    report: Report<E>,
    desk: &mut D,
) -> Option<Why>
    requires { vec_len unfiled.old < vec_capacity unfiled.old }
    ensures { IfSome result (λ why. why ≡ Why.Spent) }
{
    let Filed::Refused(refusal) = desk.report(&report) else {
        return None;
    };
    unfiled.push_reserved(report);
    match refusal {
        Refusal::SeatSpent => Some(Why::Spent),
        _ => None,
    }
}
