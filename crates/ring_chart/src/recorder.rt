//! The world of a term, with a record of each delivery.
ghost use Rattle.std.specs.Prelude.{◌≡◌, ◌↔◌, [], IfNone, IfOk, IsTrue, length, replicate};
ghost use Rattle.ring_any.specs.Any.{any_table, any_winner};
ghost use Rattle.ring_world.specs.Quiet.{AllKnow, IsQuiet};
ghost use Rattle.ring_world.specs.Worlds.{IsReady, IsUncut, no_cuts, pending_of};

use crate::label;
use crate::tale::{Arrow, Kind, Step, Tale};
use crate::view::{Change, View, change_link, packet_on, view_of};
use ring_any::{Any, AnyMsg};
use ring_election::RingElection;
use ring_id::{GroupName, NodeId, NodeNo, Refusal, Side};
use ring_node::{Charter, Node, Packet};
use ring_roster::Roster;
use ring_world::{Passage, World};
use std::alloc::{AllocError, Global};
use std::marker::Model;
use std::mem;
use std::sync::Arc;

/// The world of a term, and the deliveries in it so far. Contracts see the world alone. Tested:
/// what it records of each delivery.
#[derive(Drop)]
pub struct Recorder {
    world: World<Any>,
    // The last column, as in a tale.
    last: usize,
    steps: Vec<Step>,
    // For each position, the deliveries at which its packets were sent.
    marks: Vec<Marks>,
}

impl Model for Recorder {
    ghost use Rattle.ring_any.specs.declared.any.Any.{Any};
    ghost use Rattle.ring_any.specs.declared.any.AnyMsg.{AnyMsg};
    ghost use Rattle.ring_world.specs.Worlds.{Running};

    ghost Value = { Running Any AnyMsg };

    ghost view = { λ a. a.world };
}

// The deliveries at which the packets of a position were sent, to the left and to the right.
#[derive(Drop)]
struct Marks {
    left: Vec<u64>,
    right: Vec<u64>,
}

impl Recorder {
    /// Returns the recorder of the world of a charter, in which every node has started. All members
    /// have columns. Fails only if an allocation fails.
    pub fn begin(alloc: Global, charter: Arc<Charter<Any>>) -> Result<Recorder, AllocError>
        ensures { IfOk result (λ recorder. recorder ≡ record {
          charter = charter.value;
          journals = replicate (length charter.value.roster) [];
          cut = no_cuts (length charter.value.roster);
        }) }
    {
        let Ok(world) = World::begin(alloc, charter) else {
            return Err(AllocError);
        };
        let mut recorder = Recorder {
            world,
            last: 0,
            steps: Vec::new(alloc),
            marks: Vec::new(alloc),
        };
        match recorder.mark_starts(alloc) {
            Ok(()) => Ok(recorder),
            Err(error) => {
                drop(recorder);
                Err(error)
            }
        }
    }

    // Gives columns to all members, and records the packets that were sent at the start.
    fn mark_starts(&mut self, alloc: Global) -> Result<(), AllocError>
        ensures { self.new ≡ self.old }
    {
        starts(alloc, self.world.nodes(), &mut self.marks)?;
        self.last = self.marks.len();
        Ok(())
    }

    // Returns the view of the world.
    fn view(&self) -> View<'_, Any>
        ensures group { result.group ≡ self.now.charter.group }
        ensures term { result.term ≡ self.now.charter.term }
        ensures algorithm { result.algorithm ≡ self.now.charter.algorithm }
        ensures ready { IsReady any_table self.now result.ready }
        ensures quiet { IfNone result.ready
            (IsUncut self.now → AllKnow any_table any_winner self.now) }
        ensures pending { result.pending ≡ pending_of any_table self.now }
    {
        view_of(&self.world)
    }

    // Changes the link to a position from a side.
    fn change(&mut self, position: usize, side: Side, change: Change) -> Passage {
        change_link(&mut self.world, position, side, change)
    }

    /// Returns the group of the term. Does not allocate, like the next three calls.
    pub fn group(&self) -> GroupName
        ensures { result ≡ self.now.charter.group }
    {
        self.view().group
    }

    /// Leaves columns to the first `count` members alone, if the ring has more. One member has a
    /// column at least.
    pub fn show_first(&mut self, count: usize)
        ensures { self.new ≡ self.old }
    {
        if count < self.view().roster.len() {
            self.last = count.saturating_sub(1);
        }
    }

    /// Returns whether no packet is in flight. Then, if no link is cut, every node knows the leader.
    pub fn is_quiet(&self) -> bool
        ensures quiet { IsTrue result ↔ IsQuiet any_table self.now }
        ensures known { IsTrue result → IsUncut self.now → AllKnow any_table any_winner self.now }
    {
        self.view().ready.is_none()
    }

    /// Returns how many packets are in flight or stuck.
    pub fn pending(&self) -> u128
        ensures { result ≡ pending_of any_table self.now }
    {
        self.view().pending
    }

    /// Makes one delivery to a member from a side, if a packet is in flight there. Fails only if an
    /// allocation fails.
    pub fn deliver_to(
        &mut self,
        alloc: Global,
        node: NodeNo,
        side: Side,
    ) -> Result<(), AllocError> {
        match self.view().roster.position(node) {
            Some(position) => self.deliver(alloc, position, side),
            None => Ok(()),
        }
    }

    /// Cuts the link to a member from a side, if it is a link of the algorithm. Does not allocate.
    pub fn cut(&mut self, node: NodeNo, side: Side) {
        if let Some(position) = self.view().roster.position(node) {
            self.change(position, side, Change::Cut);
        }
    }

    /// Makes at most `count` deliveries, each at the first link with a packet in flight. Ends
    /// before the first delivery to a member without a column. Fails only if an allocation fails.
    pub fn drain(&mut self, alloc: Global, count: u32) -> Result<(), AllocError> {
        for _ in 0..count {
            match self.view().ready {
                Some((position, side)) if position <= self.last => {
                    self.deliver(alloc, position, side)?;
                }
                _ => return Ok(()),
            }
        }
        Ok(())
    }

    // Makes one delivery to a position from a side, if a packet is in flight there.
    fn deliver(&mut self, alloc: Global, position: usize, side: Side) -> Result<(), AllocError> {
        let Some(arrow) = self.front(alloc, position, side, 0)? else {
            return Ok(());
        };
        match self.change(position, side, Change::Pass) {
            Passage::Moved(learned) => self.add(Step {
                arrow,
                position,
                learned,
            }),
            Passage::Refused(Refusal::NoMemory) => Err(AllocError),
            Passage::Idle | Passage::Refused(_) => Ok(()),
        }
    }

    // Records a delivery, and the packets that its receiver sent at it.
    fn add(&mut self, step: Step) -> Result<(), AllocError> {
        let position = step.position;
        self.steps.push(step)?;
        self.mark(position)
    }

    // Returns the arrow of a packet on the link to a position from a side: the packet after
    // `before` others. `None` if there is no such packet.
    fn front(
        &self,
        alloc: Global,
        position: usize,
        side: Side,
        before: usize,
    ) -> Result<Option<Arrow>, AllocError> {
        let roster = self.view().roster;
        let Some((from, place, packet)) = packet_on(
            self.world.nodes(),
            roster,
            position,
            side,
            before,
        ) else {
            return Ok(None);
        };
        let sent = self.sent_at(from, side.other(), place);
        Ok(Some(arrow(alloc, roster.len(), position, side, packet, sent)?))
    }

    // Returns the delivery at which packet number `place` from a position to a side was sent.
    fn sent_at(&self, position: usize, side: Side, place: usize) -> u64 {
        let Some(marks) = self.marks.get(position) else {
            return 0;
        };
        let marks = match side {
            Side::Left => &marks.left,
            Side::Right => &marks.right,
        };
        marks.get(place).copied().unwrap_or(0)
    }

    // Records the packets that a position sent at the last delivery.
    fn mark(&mut self, position: usize) -> Result<(), AllocError> {
        let now = self.steps.len() as u64;
        match (
            self.world.nodes().get(position),
            self.marks.get_mut(position),
        ) {
            (Some(node), Some(marks)) => marks.fill(node, now),
            _ => Ok(()),
        }
    }

    /// Returns all that happened, and takes the deliveries out of the recorder. Fails only if an
    /// allocation fails.
    pub fn tale(&mut self, alloc: Global) -> Result<Tale, AllocError>
        ensures group { IfOk result (λ tale. tale.group ≡ self.old.charter.group) }
        ensures term { IfOk result (λ tale. tale.term ≡ self.old.charter.term) }
        ensures algorithm { IfOk result (λ tale. tale.algorithm ≡ self.old.charter.algorithm) }
        ensures same { self.new ≡ self.old }
    {
        let flying = self.flying(alloc)?;
        let view = self.view();
        let ring = members(alloc, view.roster)?;
        Ok(Tale {
            group: view.group,
            term: view.term,
            algorithm: view.algorithm,
            ring,
            last: self.last,
            pending: u64::try_from(view.pending).unwrap_or(u64::MAX),
            steps: mem::replace(&mut self.steps, Vec::new(alloc)),
            flying,
            remarks: Vec::new(alloc),
        })
    }

    // Returns the arrows of the packets in flight or stuck that go from a column to a column, in
    // the order of their receivers.
    fn flying(&self, alloc: Global) -> Result<Vec<Arrow>, AllocError> {
        let mut flying = Vec::new(alloc);
        for position in 0..self.marks.len() {
            self.fly(alloc, position, Side::Left, &mut flying)?;
            self.fly(alloc, position, Side::Right, &mut flying)?;
        }
        Ok(flying)
    }

    // Adds the arrows of the packets on one link.
    fn fly(
        &self,
        alloc: Global,
        position: usize,
        side: Side,
        flying: &mut Vec<Arrow>,
    ) -> Result<(), AllocError> {
        for before in 0..usize::MAX {
            match self.front(alloc, position, side, before)? {
                Some(arrow) if arrow.from > self.last || arrow.to > self.last => break,
                Some(arrow) => flying.push(arrow)?,
                None => break,
            }
        }
        Ok(())
    }
}

// Returns the members of a ring, in the order of their positions.
fn members(alloc: Global, roster: &Roster) -> Result<Vec<NodeId>, AllocError> {
    let mut ring = Vec::new(alloc);
    for position in 0..roster.len() {
        if let Some(member) = roster.at(position) {
            ring.push(member)?;
        }
    }
    Ok(ring)
}

// Returns the arrow of a packet to a position from a side, between neighbouring columns.
fn arrow(
    alloc: Global,
    size: usize,
    position: usize,
    side: Side,
    packet: Packet<AnyMsg>,
    sent: u64,
) -> Result<Arrow, AllocError> {
    let (from, to) = match side {
        Side::Left if position == 0 => (size.saturating_sub(1), size),
        Side::Left => (position - 1, position),
        Side::Right => (position.saturating_add(1), position),
    };
    let kind = match packet {
        Packet::Leader(_) => Kind::Announcement,
        Packet::Algo(_) => Kind::Message,
    };
    Ok(Arrow {
        from,
        to,
        label: label::of_packet(alloc, packet)?,
        kind,
        sent,
    })
}

// Adds the marks of each node at the start: all its packets were sent at the start.
fn starts<E: RingElection>(
    alloc: Global,
    nodes: &[Node<E>],
    marks: &mut Vec<Marks>,
) -> Result<(), AllocError> {
    for node in nodes {
        let mut start = Marks {
            left: Vec::new(alloc),
            right: Vec::new(alloc),
        };
        start.fill(node, 0)?;
        marks.push(start)?;
    }
    Ok(())
}

impl Marks {
    // Adds this mark for each packet of a node that has no mark yet.
    fn fill<E: RingElection>(&mut self, node: &Node<E>, mark: u64) -> Result<(), AllocError> {
        fill(&mut self.left, node.sent(Side::Left), mark)?;
        fill(&mut self.right, node.sent(Side::Right), mark)
    }
}

// Adds this mark until there are `count` marks.
fn fill(marks: &mut Vec<u64>, count: usize, mark: u64) -> Result<(), AllocError> {
    for _ in marks.len()..count {
        marks.push(mark)?;
    }
    Ok(())
}
