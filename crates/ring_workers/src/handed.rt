ghost use Rattle.std.specs.Prelude.{◌≡◌, ◌+◌, ◌<◌, ◌++◌, length, vec_capacity, vec_len, IfErr, IfOk, OnErr, OnOk};
ghost use Rattle.ring_workers.specs.Handed.{rest_of};
ghost use Rattle.ring_workers.specs.Holdings.{nodes_of};

use crate::item::Item;
use crate::nodes::Nodes;
use ring_election::RingElection;
use ring_node::{Envelope, Node, Report};
use std::collections::VecDeque;

/// Why a worker ended.
#[derive(Clone, Copy, Debug, PartialEq, Eq)]
pub enum Why {
    /// It took the word to stop.
    Stopped,
    /// The channel said that all senders ended.
    Closed,
    /// Its gate halted it, with the item in hand.
    Halted,
    /// An allocation failed, with the item in hand.
    Starved,
    /// Its desk has used up its turns.
    Spent,
}

/// The nodes and all else that a worker hands over when it ends.
#[derive(Drop)]
pub struct Handed<E: RingElection> {
    /// The worker's number.
    pub number: usize,
    /// How many workers there are.
    pub workers: usize,
    /// The nodes that it held.
    pub nodes: Nodes<E>,
    /// Packets that were sent and not stored for their receivers' owners.
    pub outbox: VecDeque<Envelope<E>>,
    /// The item that was taken and not handled.
    pub held: Option<Item<E>>,
    /// Reports that the desk refused.
    pub unfiled: Vec<Report<E>>,
    /// How many items were for no node here, or not the next packet of their link. It stays at the
    /// greatest `u64`. No other item is counted.
    pub dropped: u64,
    /// Why it ended.
    pub why: Why,
}

/// All that a worker handed over except the nodes.
#[derive(Drop)]
pub struct Rest<E: RingElection> {
    /// The worker's number.
    pub number: usize,
    /// How many workers there are.
    pub workers: usize,
    /// Packets that were sent and not stored for their receivers' owners.
    pub outbox: VecDeque<Envelope<E>>,
    /// The item that was taken and not handled.
    pub held: Option<Item<E>>,
    /// Reports that the desk refused.
    pub unfiled: Vec<Report<E>>,
    /// How many items were dropped.
    pub dropped: u64,
    /// Why it ended.
    pub why: Why,
}

impl<E: RingElection> Handed<E> {
    /// Moves all nodes to the end of a list, and returns the rest. Fails only if the list has no
    /// room for them and an allocation fails. Then it gives itself back, and nothing changes.
    pub fn append_to(self, nodes: &mut Vec<Node<E>>) -> Result<Rest<E>, Handed<E>>
        ensures moved { OnOk result (nodes.new.items ≡ nodes.old.items ++ nodes_of self.nodes) }
        ensures rest { IfOk result (λ rest. rest ≡ rest_of self) }
        ensures kept { OnErr result (nodes.new.items ≡ nodes.old.items) }
        ensures back { IfErr result (λ back. back ≡ self) }
        ensures full { OnErr result
            (vec_capacity nodes.old < vec_len nodes.old + length (nodes_of self.nodes)) }
    {
        if nodes.reserve(self.nodes.count()).is_err() {
            return Err(self);
        }
        let Handed {
            number,
            workers,
            nodes: handed,
            outbox,
            held,
            unfiled,
            dropped,
            why,
        } = self;
        handed.append_to(nodes);
        Ok(Rest {
            number,
            workers,
            outbox,
            held,
            unfiled,
            dropped,
            why,
        })
    }
}
