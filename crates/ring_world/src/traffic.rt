ghost use Rattle.std.specs.Prelude.{◌≡◌, ◌<◌, [], IfOk, length, replicate};
ghost use Rattle.ring_world.specs.Worlds.{Cuts, IsReady, IsSoundWorld, Passes, PassesReady, no_cuts, pending_of};

use crate::passage::{Passage, Passages};
use ring_election::RingElection;
use ring_id::{NoMemory, Refusal, Side};
use ring_node::Charter;
use std::alloc::Global;
use std::sync::Arc;

/// The nodes of a term and the packets between them, however they are kept.
///
/// Contracts see its charter, the journals of its nodes and which links are cut, and these say what
/// is in flight. A world makes reports of news; the calls here return the leader alone.
pub trait Traffic<E: RingElection>: Sized + Drop {
    ghost use Rattle.ring_world.specs.Worlds.{Running};

    // its charter, the journals of its nodes, and which links are cut
    ghost running: { Self → Running E E.Msg };

    /// The nodes of this charter, which have started, and no link is cut. Fails only if an
    /// allocation fails.
    fn begin(alloc: Global, charter: Arc<Charter<E>>) -> Result<Self, NoMemory>
        ensures started { IfOk result (λ made. running made ≡ record {
          charter = charter.value;
          journals = replicate (length charter.value.roster) [];
          cut = no_cuts (length charter.value.roster);
        }) }
        ensures sound { IfOk result (λ made. IsSoundWorld E.table E.fits E.winner (running made)) };

    /// Cuts the link into a position from a side. Refused as `OneWay` if the algorithm sends
    /// nothing that arrives from there; nothing has changed then. Does not allocate.
    fn cut(&mut self, position: usize, side: Side) -> Result<(), Refusal>
        requires { position < length (running self.old).charter.roster }
        ensures cuts { Cuts (E.is_two_way (running self.old).charter.algorithm)
            (running self.old) position side result (running self.new) }
        ensures sound { IsSoundWorld E.table E.fits E.winner (running self.new) };

    /// Passes the first packet of the link into a position from a side to its receiver. Returns the
    /// leader exactly if the receiver now knows it for the first time. Refused as `OneWay` if the
    /// algorithm sends nothing that arrives from there. The result is `Idle` if nothing is in
    /// flight on the link. Refused as `NoMemory` if an allocation fails, or if `may_tell` is false.
    /// In these cases nothing has changed.
    fn pass(&mut self, position: usize, side: Side, may_tell: bool) -> Passage
        requires { position < length (running self.old).charter.roster }
        ensures passes { Passes E.table (E.is_two_way (running self.old).charter.algorithm) may_tell
            (running self.old) position side result (running self.new) }
        ensures sound { IsSoundWorld E.table E.fits E.winner (running self.new) };

    /// Passes first packets to their receivers, each on the first link with something in flight at
    /// that moment. It ends when a node learns the leader, `most` are made, nothing is in flight,
    /// or an allocation fails. Returns how many were made, and what ended them.
    fn pass_ready(&mut self, most: u32) -> Passages
        ensures passes { PassesReady E.table E.fits E.winner most
            (running self.old) result (running self.new) }
        ensures sound { IsSoundWorld E.table E.fits E.winner (running self.new) };

    /// How many packets are in flight or stuck. Does not allocate, like the next.
    fn pending(&self) -> u128
        ensures { result ≡ pending_of E.table (running self.now) };

    /// The first link with something in flight.
    fn ready(&self) -> Option<(usize, Side)>
        ensures { IsReady E.table (running self.now) result };
}
