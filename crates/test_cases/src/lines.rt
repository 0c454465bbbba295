//! Worked test cases of lines: the answers of a reader, batches of lines, lists of events, and
//! replays whose reader or writer fails. Each case has the values that it must come to. Lines and
//! their replies are in `tests/rows`, and command lines and configurations in `tests/servers`.

mod batches;
mod events;
mod reader;
mod replaying;
mod texts;
