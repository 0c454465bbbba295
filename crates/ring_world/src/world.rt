ghost use Rattle.std.specs.Prelude.{◌≡◌, ◌<◌, ◌≤◌, ◌↔◌, true, [], IfNone, IfOk, IsSome, length, replicate, slice_index};
ghost use Rattle.ring_node.specs.Reports.{IsTruthful};
ghost use Rattle.ring_world.specs.Quiet.{AllKnow, IsEmptied};
ghost use Rattle.ring_world.specs.Worlds.{Cuts, Delivers, IsReady, IsSoundWorld, IsUncut, Passes, PassesReady, announcements_of, delivered_of, is_cut, most_deliveries, no_cuts, nodes_of, pending_of};

use crate::delivery::Delivery;
use crate::owners::Owners;
use crate::passage::{Passage, Passages};
use crate::tallied_circle::TalliedCircle;
use crate::traffic::Traffic;
use ring_election::RingElection;
use ring_id::{NoMemory, NodeId, Refusal, Side};
use ring_node::{Charter, Node, Report};
use std::alloc::Global;
use std::marker::Model;
use std::sync::Arc;

/// All nodes of one term and the packets between them. It makes reports of what its nodes know.
#[derive(Drop)]
pub struct World<E: RingElection, T: Traffic<E> = TalliedCircle<E>> {
    owners: Owners<E>,
    traffic: T,
}

impl<E: RingElection, T: Traffic<E>> Model for World<E, T> {
    ghost use Rattle.ring_world.specs.private.Worlds.{IsTold};
    ghost use Rattle.ring_world.specs.Worlds.{Running};

    ghost Value = { Running E E.Msg };

    ghost view = { λ a. T.running a.traffic };

    ghost invariant = { λ a. IsTold E.table E.fits E.winner
        a.owners.charter.value (T.running a.traffic) };
}

impl<E: RingElection, T: Traffic<E>> World<E, T> {
    /// The world of this charter in which every node has started, and no link is cut. Fails only if
    /// an allocation fails.
    pub fn begin(alloc: Global, charter: Arc<Charter<E>>) -> Result<World<E, T>, NoMemory>
        ensures started { IfOk result (λ world. world ≡ record {
          charter = charter.value;
          journals = replicate (length charter.value.roster) [];
          cut = no_cuts (length charter.value.roster);
        }) }
        ensures sound { IfOk result (λ world. IsSoundWorld E.table E.fits E.winner world) }
    {
        let Ok(copy) = Arc::try_clone(&charter) else {
            return Err(NoMemory);
        };
        let Ok(traffic) = T::begin(alloc, copy) else {
            return Err(NoMemory);
        };
        Ok(World {
            owners: Owners::of(charter),
            traffic,
        })
    }

    /// The charter of this term. Does not allocate, like the other readers.
    pub fn charter(&self) -> &Arc<Charter<E>>
        ensures value { result.now.value ≡ self.now.charter }
        ensures sound { IsSoundWorld E.table E.fits E.winner self.now }
    {
        &self.owners.charter
    }

    /// Cuts the link into a position from a side. From now on nothing is in flight there, and the
    /// packets on the link are stuck. Cutting it again changes nothing. Refused as `OneWay` if the
    /// algorithm sends nothing that arrives from there; nothing has changed then. Does not
    /// allocate, and takes constant time.
    pub fn cut(&mut self, position: usize, side: Side) -> Result<(), Refusal>
        requires { position < length self.old.charter.roster }
        ensures cuts { Cuts (E.is_two_way self.old.charter.algorithm)
            self.old position side result self.new }
        ensures again { is_cut self.old position side ≡ true → self.new ≡ self.old }
        ensures sound { IsSoundWorld E.table E.fits E.winner self.new }
    {
        self.traffic.cut(position, side)
    }

    /// Delivers the first packet of the link into a position from a side. Refused as `OneWay` if
    /// the algorithm sends nothing that arrives from there. The result is `Idle` if nothing is in
    /// flight on the link, as on a link that is cut. Refused as `NoMemory` if an allocation fails.
    /// In these cases nothing has changed. A world takes no more packets than the algorithm's bound
    /// and the length of its ring together (Lynch, Distributed Algorithms, 2.6: communication
    /// complexity).
    pub fn deliver(&mut self, position: usize, side: Side) -> Delivery<E>
        requires { position < length self.old.charter.roster }
        ensures delivers { Delivers E.table (E.is_two_way self.old.charter.algorithm)
            self.old position side result self.new }
        ensures sound { IsSoundWorld E.table E.fits E.winner self.new }
        ensures bounded { delivered_of self.new ≤ most_deliveries E.bound self.new }
    {
        let may_tell = self.owners.find().is_ok();
        match self.traffic.pass(position, side, may_tell) {
            Passage::Moved(None) => Delivery::Moved(None),
            Passage::Moved(Some(leader)) => {
                Delivery::Moved(Some(report_of(&mut self.owners, position, leader)))
            }
            Passage::Idle => Delivery::Idle,
            Passage::Refused(refusal) => Delivery::Refused(refusal),
        }
    }

    /// Delivers the first packet of the link into a position from a side, as `deliver` does.
    /// Returns the leader alone, exactly if the receiver now knows it for the first time. It makes
    /// no report, and so no owner of the charter.
    pub fn pass(&mut self, position: usize, side: Side) -> Passage
        requires { position < length self.old.charter.roster }
        ensures passes { Passes E.table (E.is_two_way self.old.charter.algorithm) true
            self.old position side result self.new }
        ensures sound { IsSoundWorld E.table E.fits E.winner self.new }
        ensures bounded { delivered_of self.new ≤ most_deliveries E.bound self.new }
    {
        self.traffic.pass(position, side, true)
    }

    /// Passes first packets as `pass` does, each on the link that is ready at that moment. It ends
    /// when a node learns the leader, `most` are made, no link is ready, or an allocation fails.
    /// Returns how many were made, and what ended them.
    pub fn pass_ready(&mut self, most: u32) -> Passages
        ensures passes { PassesReady E.table E.fits E.winner most self.old result self.new }
        ensures sound { IsSoundWorld E.table E.fits E.winner self.new }
        ensures bounded { delivered_of self.new ≤ most_deliveries E.bound self.new }
    {
        self.traffic.pass_ready(most)
    }

    /// How many packets were sent and not yet taken, be they in flight or stuck on links that are
    /// cut. If there are none, every node knows the leader (Lynch, Distributed Algorithms, 3.1 and
    /// 15.1).
    pub fn pending(&self) -> u128
        ensures value { result ≡ pending_of E.table self.now }
        ensures emptied { (result ≡ 0) ↔ IsEmptied E.table self.now }
        ensures quiet { result ≡ 0 → AllKnow E.table E.winner self.now }
    {
        self.traffic.pending()
    }

    /// The first link with something in flight: the least position that receives, left before
    /// right. A link that is cut is never ready. If no link is ready and no link is cut, every node
    /// knows the leader.
    pub fn ready(&self) -> Option<(usize, Side)>
        ensures first { IsReady E.table self.now result }
        ensures sound { IsSoundWorld E.table E.fits E.winner self.now }
        ensures quiet { IfNone result (IsUncut self.now → AllKnow E.table E.winner self.now) }
    {
        self.traffic.ready()
    }
}

impl<E: RingElection> World<E> {
    /// The node of each position, in order. Does not allocate, like the next two.
    pub fn nodes(&self) -> &[Node<E>]
        ensures { result.now ≡ nodes_of self.now }
    {
        self.traffic.nodes()
    }

    /// Whether the link into a position from a side was cut in this world.
    pub fn is_cut(&self, position: usize, side: Side) -> bool
        requires { position < length self.now.charter.roster }
        ensures { result ≡ is_cut self.now position side }
    {
        self.traffic.is_cut(position, side)
    }

    /// How many packets were taken in all: at most the algorithm's bound and the length of the
    /// ring. Of these at most one for each position is an announcement.
    pub fn delivered(&self) -> u128
        ensures value { result ≡ delivered_of self.now }
        ensures bounded { result ≤ most_deliveries E.bound self.now }
        ensures announced { announcements_of self.now ≤ length self.now.charter.roster }
    {
        self.traffic.delivered()
    }
}

/// The report that the member at this position of a charter's ring knows this leader, its winner.
/// The owner that was found goes into it.
fn report_of<E: RingElection>(owners: &mut Owners<E>, position: usize, leader: NodeId) -> Report<E>
    requires found { IsSome owners.old.spare }
    requires inside { position < length owners.old.charter.value.roster }
    requires truthful { IsTruthful (E.winner owners.old.charter.value.algorithm)
        owners.old.charter.value.roster
        (slice_index owners.old.charter.value.roster position) leader }
    ensures told { result ≡ record {
      charter = owners.old.charter.value;
      member = slice_index owners.old.charter.value.roster position;
      leader = leader;
    } }
    ensures same { owners.new.charter ≡ owners.old.charter }
{
    let charter = owners.take();
    let member = charter.roster().at(position).unwrap();
    Report::new(charter, position, member, leader)
}
