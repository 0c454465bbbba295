//! What no clause of inboxes says: calls succeed if they can, in one thread and across threads, for
//! items that own memory.
ghost use Rattle.std.specs.Prelude.{◌≡◌, []};
ghost use Rattle.ring_inbox.specs.Values.{fresh_sender};

mod hearing;
mod one_thread;
mod threads;

use ring_inbox::{ReceiverPass, SenderPass, inbox};
use std::alloc::Global;
use std::process::Abort;

// An inbox of two, which has one sender.
fn alone(rt: &impl Abort, alloc: Global) -> (ReceiverPass<u64>, SenderPass<u64>)
    ensures receiver { (result.0.taken ≡ []) × (result.0.inbox.capacity ≡ 2)
        × (result.0.inbox.senders ≡ 1) }
    ensures sender { result.1 ≡ fresh_sender result.0.inbox 0 }
{
    let (receiver, mut senders) = inbox::<u64>(alloc, 2, 1).expect(rt, "no memory");
    assert_eq!(rt; senders.len(), 1);
    let sender = senders.remove(0);
    drop(senders);
    (receiver, sender)
}
