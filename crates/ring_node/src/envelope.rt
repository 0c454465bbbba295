ghost use Rattle.std.specs.Prelude.{◌≡◌};
ghost use Rattle.ring_node.specs.Envelopes.{IsSendable};

use crate::charter::Charter;
use crate::packet::Packet;
use ring_election::RingElection;
use ring_id::Side;
use std::marker::Model;
use std::sync::Arc;

/// A packet on its way: its term, the link that it goes over, its index there, and the packet
/// itself.
///
/// The index counts the earlier packets of the same sort on that link. The type keeps two facts: a
/// message of the algorithm fits its link at its index, and an announcement names the ring's
/// winner.
#[derive(Drop)]
pub struct Envelope<E: RingElection> {
    charter: Arc<Charter<E>>,
    from: usize,
    side: Side,
    index: usize,
    packet: Packet<E::Msg>,
}

impl<E: RingElection> Model for Envelope<E> {
    ghost use Rattle.ring_node.specs.Envelopes.{IsSendable, Sent};

    ghost Value = { Sent E E.Msg };

    ghost view = { λ a. record {
      charter = a.charter.value;
      from = a.from;
      side = a.side;
      index = a.index;
      packet = a.packet;
    } };

    ghost invariant = { λ a. IsSendable (E.fits a.charter.value.algorithm)
        (E.winner a.charter.value.algorithm) a.charter.value.roster a.from a.side a.index
        a.packet };
}

impl<E: RingElection> Envelope<E> {
    /// Returns the envelope of a packet that the node at position `from` sent to a side.
    pub(crate) fn new(
        charter: Arc<Charter<E>>,
        from: usize,
        side: Side,
        index: usize,
        packet: Packet<E::Msg>,
    ) -> Envelope<E>
        requires { IsSendable (E.fits charter.value.algorithm) (E.winner charter.value.algorithm)
            charter.value.roster from side index packet }
        ensures { result
            ≡ record {
              charter = charter.value;
              from = from;
              side = side;
              index = index;
              packet = packet;
            } }
    {
        Envelope {
            charter,
            from,
            side,
            index,
            packet,
        }
    }

    /// The charter of the term. Does not allocate, like the other readers.
    pub fn charter(&self) -> &Arc<Charter<E>>
        ensures { result.now.value ≡ self.now.charter }
    {
        &self.charter
    }

    /// The position of the sender.
    pub fn from(&self) -> usize
        ensures { result ≡ self.now.from }
    {
        self.from
    }

    /// The side to which the sender sent.
    pub fn side(&self) -> Side
        ensures { result ≡ self.now.side }
    {
        self.side
    }

    /// The number of earlier packets of this sort on the link.
    pub fn index(&self) -> usize
        ensures { result ≡ self.now.index }
    {
        self.index
    }

    /// The packet, which is proper on its link at its index.
    pub fn packet(&self) -> Packet<E::Msg>
        ensures value { result ≡ self.now.packet }
        ensures sendable { IsSendable (E.fits self.now.charter.algorithm)
            (E.winner self.now.charter.algorithm) self.now.charter.roster self.now.from
            self.now.side self.now.index self.now.packet }
    {
        self.packet
    }

    /// The charter, taken out of the envelope.
    pub(crate) fn into_charter(self) -> Arc<Charter<E>>
        ensures { result.value ≡ self.charter }
    {
        self.charter
    }
}
