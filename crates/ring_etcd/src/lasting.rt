//! What stays in etcd, if it keeps its promise. Each call does nothing. The law is its contract.
//!
//! The promise is that each request happens at one instant, in one order, or not at all. A reply
//! says what was so at that instant. A history has all requests of all processes in that order.
//!
//! Two premises say what the processes do. Each text has an identity of its own. Each number that
//! is asked for is the one after a number at which something is, as a reply said.
ghost use Rattle.ring_etcd.specs.Lasting.{EntriesAreHeld, MarksFollowAll, NumbersHaveOneValue, RepeatsChangeNothing, TakenNumbersRefuse, TextsAreHeld, TextsFollowAll, TextsNeverReturn, ValuesStay};

/// An entry that was put at a number is there as long as its text counts, and nothing else is ever
/// at that number. A text that does not count any more never counts again.
pub fn stay_for_good()
    ensures stay { ValuesStay }
    ensures one { NumbersHaveOneValue }
    ensures gone { TextsNeverReturn }
{}

/// If anything was ever at its number, a request changes nothing. So a request that was carried out
/// changes nothing when it comes again, however late.
pub fn asked_once()
    ensures taken { TakenNumbersRefuse }
    ensures again { RepeatsChangeNothing }
{}

/// If a process read a text with its entries, and its own entry is put at the next number, nothing
/// else is there. Once its text counts, it has read all that any process holds of the text before.
pub fn nothing_is_lost()
    ensures mark { MarksFollowAll }
    ensures text { TextsFollowAll }
{}

/// The text that an engine began, and each entry that it put or found at the next number, was at
/// its number. That is what `Engine` says of `held`. By the other laws it is there for good.
pub fn engine_holds()
    ensures entry { EntriesAreHeld }
    ensures text { TextsAreHeld }
{}
