//! Making an inbox: its channel, its capacity, and its senders.
ghost use Rattle.std.specs.Prelude.{◌≡◌, ◌<◌, [], map, IfOk};
ghost use Rattle.std.specs.List.{range_with_len};
ghost use Rattle.crossbeam_channel.specs.Claims.{view, IsSeatAt};
ghost use Rattle.crossbeam_channel.specs.Ends.{sends_on};
ghost use Rattle.ring_inbox.specs.Rule.{receiver};
ghost use Rattle.ring_inbox.specs.Values.{fresh_sender};

use crate::passes::{ReceiverPass, SenderPass};
use crate::rule::{InOrder, Known, Makes, Room, Sizes};
use crossbeam_channel::{Pass, RuledSender, bounded_with};
use std::alloc::{AllocError, Global};
use std::marker::Brand;

/// Returns the receiver and the `senders` senders, numbered from 0, of an empty inbox for at most
/// `capacity` items. Both numbers are at least 1. From each sender to the receiver it is a reliable
/// FIFO channel (Lynch, Distributed Algorithms, 14.1.2), but all senders share one queue. Fails
/// only if an allocation fails.
pub fn inbox<T: Drop>(
    alloc: Global,
    capacity: usize,
    senders: usize,
) -> Result<(ReceiverPass<T>, Vec<SenderPass<T>>), AllocError>
    requires capacity { 0 < capacity }
    requires senders { 0 < senders }
    ensures capacity { IfOk result (λ r. r.0.inbox.capacity ≡ capacity) }
    ensures receiver { IfOk result (λ r. (r.0.senders ≡ senders) × (r.0.taken ≡ [])) }
    ensures senders { IfOk result
        (λ r. r.1.items ≡ map (fresh_sender r.0.inbox) (range_with_len 0 senders)) }
    ensures places { IfOk result (λ r. r.0.inbox.senders ≡ senders) }
    ensures heard { IfOk result (λ r. r.0.heard ≡ []) }
{
    let (to, from, mut pass) = bounded_with::<(usize, T), Known<T>, InOrder, Global>(
        alloc, capacity,
    )?;
    size::<Brand, T>(&to, &mut pass, senders);
    let mut all = Vec::new(alloc);
    for number in 0..senders {
        let one = SenderPass {
            to: to.try_clone()?,
            pass: to.another::<Makes>(&mut pass),
            number,
        };
        all.push(one)?;
    }
    Ok((ReceiverPass { from, pass }, all))
}

// Writes the capacity, and the number of senders there will be, into the knowledge of the
// receiver's pass.
fn size<K: Room, T: Drop>(
    to: &RuledSender<(usize, T), Known<T>, InOrder>,
    pass: &mut Pass<(usize, T), Known<T>>,
    senders: usize,
)
    requires places { K.senders ≡ senders }
    requires seat { IsSeatAt (sends_on to.now) pass.old }
    requires first { view pass.old ≡ receiver 0 0 0 [] [] }
    ensures seat { IsSeatAt (sends_on to.now) pass.new }
    ensures sized { view pass.new ≡ receiver K.capacity K.senders 0 [] [] }
{
    let _spent = to.another::<Sizes<K>>(pass);
}
