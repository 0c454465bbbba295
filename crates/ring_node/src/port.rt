ghost use Rattle.std.specs.Prelude.{◌≡◌, ◌+◌, ◌^◌, ◌<◌, ◌≤◌, ◌++◌, ◌∷◌, [], slice_get, take, vec_capacity, vec_len, IfOk, IfSome, OnOk, true};
ghost use Rattle.ring_election.specs.Traces.{taken_from};
ghost use Rattle.ring_node.specs.Journals.{algo_count, leader_count};
ghost use Rattle.ring_node.specs.private.Journals.{leader_place};
ghost use Rattle.ring_node.specs.Ports.{all_algos, all_leaders};

use crate::packet::Packet;
use crate::room::{find_room, least};
use ring_id::{NoMemory, NodeId};
use std::alloc::Global;

/// One side of a node: the packets sent there, the place of its announcement among them, and the
/// number of packets of each sort taken from there.
#[derive(Drop)]
pub struct Port<M> {
    pub sent: Vec<Packet<M>>,
    pub announced: Option<usize>,
    pub algos: usize,
    pub leaders: usize,
    ghost announced_is: { announced ≡ leader_place sent.items },
}

impl<M: Copy> Port<M> {
    /// Returns a side with this first message sent and nothing taken, at a node of a ring of this
    /// length.
    pub fn opened(alloc: Global, first: Option<M>, ring: usize) -> Result<Port<M>, NoMemory>
        ensures sent { IfOk result (λ port. port.sent.items ≡ all_algos first) }
        ensures algos { IfOk result (λ port. port.algos ≡ 0) }
        ensures leaders { IfOk result (λ port. port.leaders ≡ 0) }
    {
        let mut port = Port {
            sent: Vec::new(alloc),
            announced: None,
            algos: 0,
            leaders: 0,
        };
        if first.is_some() && port.sent.reserve_exact(least(ring)).is_err() {
            return Err(NoMemory);
        }
        port.post(first);
        Ok(port)
    }

    /// Finds room for a message and an announcement if this side is open. The node is in a ring of
    /// this length. The packets sent stay in any case, and so do the numbers of those taken.
    pub fn make_room(&mut self, is_open: bool, ring: usize) -> Result<(), NoMemory>
        ensures sent { self.new.sent.items ≡ self.old.sent.items }
        ensures algos { self.new.algos ≡ self.old.algos }
        ensures leaders { self.new.leaders ≡ self.old.leaders }
        ensures room { OnOk result
            (is_open ≡ true → vec_len self.new.sent + 2 ≤ vec_capacity self.new.sent) }
    {
        if is_open {
            return find_room(&mut self.sent, 2, ring);
        }
        Ok(())
    }

    /// Sends a message of the algorithm, if there is one.
    pub fn post(&mut self, message: Option<M>)
        requires { IfSome message (λ _. vec_len self.old.sent + 1 ≤ vec_capacity self.old.sent) }
        ensures sent { self.new.sent.items ≡ self.old.sent.items ++ all_algos message }
        ensures algos { self.new.algos ≡ self.old.algos }
        ensures leaders { self.new.leaders ≡ self.old.leaders }
        ensures len { vec_len self.new.sent ≤ vec_len self.old.sent + 1 }
        ensures capacity { vec_capacity self.new.sent ≡ vec_capacity self.old.sent }
    {
        if let Some(message) = message {
            self.sent.push_reserved(Packet::Algo(message));
        }
    }

    /// Announces the leader, if there is one to announce.
    pub fn announce(&mut self, leader: &Option<NodeId>)
        requires { vec_len self.old.sent + 1 ≤ vec_capacity self.old.sent }
        ensures sent { self.new.sent.items ≡ self.old.sent.items ++ all_leaders leader.now }
        ensures algos { self.new.algos ≡ self.old.algos }
        ensures leaders { self.new.leaders ≡ self.old.leaders }
    {
        if let Some(leader) = leader {
            self.announced = Some(self.sent.len());
            self.sent.push_reserved(Packet::Leader(*leader));
        }
    }

    /// The packet that was sent here at this place; `None` past the last.
    pub fn nth(&self, place: usize) -> Option<Packet<M>>
        ensures { result ≡ slice_get self.now.sent.items place }
    {
        self.sent.get(place).copied()
    }

    /// The number of messages of the algorithm sent here before this place. At most one of the
    /// packets is an announcement.
    pub fn algos_before(&self, place: usize) -> usize
        requires within { place ≤ vec_len self.now.sent }
        requires once { leader_count self.now.sent.items ≤ 1 }
        ensures { result ≡ algo_count (take place self.now.sent.items) }
    {
        match self.announced {
            Some(announced) if announced < place => place - 1,
            _ => place,
        }
    }

    /// Counts a packet that was taken here.
    pub fn count(&mut self, packet: Packet<M>)
        requires algos { self.old.algos + 1 < 2 ^ 64 }
        requires leaders { self.old.leaders + 1 < 2 ^ 64 }
        ensures sent { self.new.sent.items ≡ self.old.sent.items }
        ensures algos { self.new.algos ≡ self.old.algos + algo_count (packet ∷ []) }
        ensures leaders { self.new.leaders ≡ self.old.leaders + leader_count (packet ∷ []) }
    {
        match packet {
            Packet::Algo(_) => self.algos += 1,
            Packet::Leader(_) => self.leaders += 1,
        }
    }
}
