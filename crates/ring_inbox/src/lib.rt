//! Inboxes: a bounded queue with one receiver and numbered senders, for items of any type.
//!
//! In every schedule, the items that a sender stored are those taken of it, followed by those that
//! the queue has of it, in order. The queue never has more items than its capacity. A call that
//! stores or takes an item says which step of such an inbox it made. A call that returns `Full`,
//! `Empty` or `Closed` says that there was a moment at which the queue was full or empty.
//!
//! Another thread may change the queue before a call returns, so a clause claims of the queue only
//! such a moment. A pass that has heard another one knows more. `Empty` and `Closed` come only
//! after the receiver has taken all items that it heard to be stored. The only sender of an inbox
//! gets `Full` only if it has stored at least `capacity` items more than it heard to be taken.
//!
//! No clause claims an order between two senders, when `Gone` comes, that an item arrives, or that
//! a call returns.
#![tactic(auto)]

mod opening;
mod passes;
mod rule;

pub use opening::inbox;
pub use passes::{Put, ReceiverPass, SenderPass, Take, TryTake};
