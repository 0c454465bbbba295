ghost use Rattle.std.specs.Prelude.{◌≡◌, ◌+◌, ◌<◌, ◌^◌, All, IfOk, OnOk, vec_len};
ghost use Rattle.ring_service.specs.private.Meshes.{IsFresh, LastsOf, SendersOf};

use ring_any::Any;
use ring_id::NoMemory;
use ring_inbox::{ReceiverPass, SenderPass, inbox};
use ring_workers::Item;
use std::alloc::Global;

/// An inbox for each worker: its receiver, and its senders that are not handed out yet.
#[derive(Drop)]
pub(crate) struct Mesh {
    pub(crate) receivers: Vec<ReceiverPass<Item<Any>>>,
    pub(crate) senders: Vec<Vec<SenderPass<Item<Any>>>>,
}

/// Returns `workers` inboxes of this capacity. Each has a sender for each worker, and one for the
/// service.
pub(crate) fn open(alloc: Global, workers: usize, capacity: usize) -> Result<Mesh, NoMemory>
    requires capacity { 0 < capacity }
    requires workers { workers < 2 ^ 32 }
    ensures receivers { IfOk result (λ mesh. vec_len mesh.receivers ≡ workers) }
    ensures senders { IfOk result (λ mesh. vec_len mesh.senders ≡ workers) }
    ensures left { IfOk result (λ mesh.
        SendersOf (workers + 1) mesh.receivers.items mesh.senders.items) }
    ensures fresh { IfOk result (λ mesh. All IsFresh mesh.receivers.items) }
    ensures capacity { IfOk result (λ mesh.
        All (λ receiver. receiver.inbox.capacity ≡ capacity) mesh.receivers.items) }
{
    let Ok(mut receivers) = Vec::with_capacity(alloc, workers) else {
        return Err(NoMemory);
    };
    let Ok(mut senders) = Vec::with_capacity(alloc, workers) else {
        return Err(NoMemory);
    };
    for _ in 0..workers {
        let Ok((receiver, all)) = inbox(alloc, capacity, workers + 1) else {
            return Err(NoMemory);
        };
        receivers.push_reserved(receiver);
        senders.push_reserved(all);
    }
    Ok(Mesh { receivers, senders })
}

/// Takes the last sender that is left of each inbox, in the order of the inboxes.
pub(crate) fn take_last<T: Drop>(
    alloc: Global,
    inboxes: &mut Vec<Vec<T>>,
    left: usize,
) -> Result<Vec<T>, NoMemory>
    requires { All (λ senders. vec_len senders ≡ left + 1) inboxes.old.items }
    ensures one { IfOk result (λ taken. vec_len taken ≡ vec_len inboxes.old) }
    ensures count { vec_len inboxes.new ≡ vec_len inboxes.old }
    ensures lasts { IfOk result (λ taken. LastsOf inboxes.old.items inboxes.new.items taken.items) }
{
    let Ok(mut taken) = Vec::with_capacity(alloc, inboxes.len()) else {
        return Err(NoMemory);
    };
    for senders in inboxes.iter_mut() {
        taken.push_reserved(senders.pop().unwrap());
    }
    Ok(taken)
}
