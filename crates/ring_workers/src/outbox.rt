ghost use Rattle.std.specs.Prelude.{◌≡◌, ℕ, vec_len};
ghost use Rattle.ring_workers.specs.Owners.{receiver_of};
ghost use Rattle.ring_workers.specs.private.Sends.{PutsOne, Sends};

use crate::item::Item;
use crate::owner::Owner;
use ring_election::RingElection;
use ring_id::NodeId;
use ring_inbox::{Put, SenderPass};
use ring_node::Envelope;
use std::collections::VecDeque;
use std::sync::Wait;

/// The member to which an envelope's link leads.
pub(crate) fn receiver<E: RingElection>(envelope: &Envelope<E>) -> NodeId
    ensures { result ≡ receiver_of envelope.now }
{
    let _packet = envelope.packet();
    let ring = envelope.charter().roster();
    let position = ring.neighbour(envelope.from(), envelope.side());
    ring.at(position).unwrap()
}

/// Puts an envelope into an inbox. Returns the envelope if the inbox does not store it.
fn put_one<E: RingElection, R: Wait>(
    rt: &R,
    pass: &mut SenderPass<Item<E>>,
    envelope: Envelope<E>,
) -> Option<Envelope<E>>
    ensures { PutsOne pass.old envelope result pass.new }
{
    match pass.put(rt, Item::Packet(envelope)) {
        Put::Stored => None,
        Put::Full(Item::Packet(back)) | Put::Gone(Item::Packet(back)) => Some(back),
        _ => unreachable!(),
    }
}

/// Puts the packets of the outbox into the inboxes of their receivers' owners, from the front on.
/// It ends at the first packet that is not stored, which stays at the front.
pub(crate) fn send<E: RingElection, R: Wait>(
    rt: &R,
    owner: &Owner,
    outbox: &mut VecDeque<Envelope<E>>,
    senders: &mut Vec<SenderPass<Item<E>>>,
)
    requires { vec_len senders.old ≡ owner.now.workers }
    ensures sends { Sends owner.now.workers
        outbox.old.items outbox.new.items senders.old.items senders.new.items }
    ensures count { vec_len senders.new ≡ vec_len senders.old }
{
    for _ in 0..outbox.len() {
        let Some(envelope) = outbox.pop_front() else {
            return;
        };
        let to = owner.of(receiver(&envelope));
        if let Some(back) = put_one(rt, &mut senders[to], envelope) {
            outbox.push_front_reserved(back);
            return;
        }
    }
}
