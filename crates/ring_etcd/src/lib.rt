//! The journal in etcd: a medium whose text is a log of entries, which outlives a machine.
//!
//! # What the engine promises
//!
//! etcd carries out each request at one instant, in one order for all members, or not at all. A
//! reply says what happened at that instant, and what was put stays until a request deletes it. No
//! proof can give this.
//!
//! It follows that an entry which was put "if absent" at a number is there as long as its text
//! counts, and that nothing else ever is. A text that takes the place of another follows all of its
//! entries. These laws are proved of each history of requests (`stay_for_good`, `asked_once`,
//! `nothing_is_lost`). The ghost member `held` of `Engine` has the entries of which a reply said
//! that they are there (`engine_holds`).
//!
//! # What is in etcd
//!
//! ```text
//! ring/NAME/base           the text that counts: `ringd 1 TEXT PIECES`
//! ring/NAME/t/TEXT/p/K     piece K of a text, K < PIECES
//! ring/NAME/t/TEXT/e/N     entry N after a text: 1, 2, 3 ..
//! ring/NAME/ids            each put has a revision of its own, which is an identity
//! ring/NAME/lease          each put of it shows that the active process runs
//! ```
//!
//! The bytes of the journal are the pieces of the text that counts, then the entries after it. An
//! entry `b..` adds its bytes. An entry `tID` adds none: by it process ID takes the journal over.
//!
//! A process puts entries only after a text that it put itself, under an identity that no other
//! process has. Each put has two conditions: the base is still the one of that text, and nothing is
//! at the number. So a request that is sent again, or arrives late, changes nothing. If the
//! conditions do not hold, the reply has the entry at that number. If it has the bytes of this
//! process, an earlier request has put it. Otherwise the journal was taken over.
//!
//! # A moment of this medium
//!
//! `text` is what `held` has, then the bytes that `append` gathered. `kept` counts the bytes of
//! `held`. `sync` puts what was gathered as one entry. A restart finds whole entries: those that
//! are kept, or these and the one whose put had no answer.
//!
//! `replace` puts the pieces of another text, which nobody reads yet. Then one request makes that
//! text count and deletes the old one with its entries. It has the two conditions of a put. If it
//! has no answer, `other` is that text: a restart finds the old text or the new one.
//!
//! # Taking over
//!
//! A process reads the base, the pieces and the entries, by pages in the order of their keys. etcd is
//! not asked to sort, for which it would read all keys for each page. Each pair has to have the key
//! that is next.
//!
//! Then the process puts `tID` under the next number. If another entry is there, it reads on from
//! that number, by pages, and tries the number after them. So it keeps up with a process that goes on
//! to put entries. Once `tID` is there, the process before it can put nothing: its next number is
//! taken. That `tID` was put shows that the base still counted, so all that was read is the whole
//! journal. If the base does not count any more, the process reads again.
//!
//! Then the process recovers, and puts its own text in the place of the old one, by the conditions
//! of the number after its entry `tID`. So a third process that took over meanwhile is noticed.
//! These conditions alone would do for safety: the text is refused if an entry came that it lacks.
//! With `tID` no entry comes, however busy the process before was.
//!
//! If there is no base, the journal is begun by an empty text. That request has the condition that
//! neither a piece nor an entry is there. So a journal whose base alone was lost is refused, as is
//! tested.
//!
//! # Standing by
//!
//! `Lease` is for a second process that waits while the first one is active. The active process
//! renews the lease some three times a second: it puts a key, which gets another revision. A
//! standby process looks at the key as often. If five looks in a row find the same revision, it
//! claims the lease: it puts the key on the condition that the revision is still that one. So of
//! two standby processes only one claims it. It then takes the journal over.
//!
//! The journal does not rest on the lease, only these waits do. If the active process still runs,
//! it finds another value at the key when it next renews the lease. It also finds its number taken
//! when it next puts an entry. A look that gets no answer does not count, so an outage of etcd is
//! not taken for the end of a process.
//!
//! # When it ends
//!
//! A request is sent to the members in turn until one of them answers. If none does for a while,
//! the medium has failed: nothing is asked any more, as with a disk. `Standing` says whether it
//! failed because the journal was taken over.
//!
//! | A crash or a failure | What a restart finds |
//! |---|---|
//! | before a put is sent | the entries that are kept |
//! | after it was sent, or its reply was lost | these, or these and that one |
//! | the reply was lost, and the put is sent again | that one once: its bytes take its number |
//! | a put arrives after another process took over | the number is taken, so it changes nothing |
//! | a put arrives after another text counts | the base is another, so it changes nothing |
//! | before the request of `replace` | the old text; a later `replace` deletes the new pieces |
//! | after it was sent, or its reply was lost | the old text or the new one, each whole |
//! | between `tID` and the text of a takeover | the old text: `tID` adds no bytes |
//! | two processes take over at once | one number each; the first one's text is refused |
//! | a member of etcd is lost | as before: a majority has all that was answered |
#![tactic(auto)]

mod base;
mod bodies;
mod cluster;
mod engine;
mod etcd;
mod gateway;
mod keys;
mod lasting;
mod lease;
mod looking;
mod medium;
mod place;
mod reading;
mod replies;
mod requests;
mod store;

pub use engine::{Engine, EngineFault};
pub use etcd::Etcd;
pub use lasting::{asked_once, engine_holds, nothing_is_lost, stay_for_good};
pub use lease::{LOOKS, Lease};
pub use medium::{EtcdMedium, Standing};
pub use place::{EtcdFault, EtcdPlace};
