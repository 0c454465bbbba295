ghost use Rattle.std.specs.Prelude.{◌≡◌};
ghost use Rattle.ring_world.specs.PacketKinds.{is_of};

use ring_node::Packet;

/// The two kinds of packet. A link keeps the order of each kind by itself.
#[derive(Clone, Copy)]
pub enum PacketKind {
    /// Messages of the algorithm.
    Message,
    /// Announcements of the leader.
    Announcement,
}

impl PacketKind {
    /// Whether a packet is of this kind.
    pub fn has<M: Copy>(self, packet: Packet<M>) -> bool
        ensures { result ≡ is_of self packet }
    {
        match packet {
            Packet::Algo(_) => self == PacketKind::Message,
            Packet::Leader(_) => self == PacketKind::Announcement,
        }
    }
}
