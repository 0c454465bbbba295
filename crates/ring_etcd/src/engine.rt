//! What the journal asks of an engine, and what the engine promises.
ghost use Rattle.std.specs.Prelude.{◌≡◌, ◌++◌, ◌∷◌, [], OnErr, OnOk};

use ring_journal::Batch;

/// Why an engine did not do what it was asked.
#[derive(Clone, Copy, Debug, PartialEq, Eq)]
pub enum EngineFault {
    /// An allocation failed, and the engine has and will have nothing of the call.
    NoMemory,
    /// Another process has taken over. The engine has nothing of the call.
    TakenOver,
    /// No answer came, however often the engine was asked. It may have what it was given, now or
    /// later, or not.
    NoAnswer,
}

/// An engine that keeps texts and numbered entries after them, such as etcd.
///
/// One text counts at a time. This handle is that of a process that put a text and then puts
/// entries after it, under the numbers 1, 2, 3 and so on.
///
/// The ghost member `held` has the text that this process put and the entries that it put after it,
/// in the order of their numbers, as far as the engine answered that they are there.
///
/// Each value in `held` is at its number as long as the text counts, and nothing else ever is. Once
/// another text counts, its process has read all of `held`. No proof can give this of etcd alone.
/// It is assumed that each request happens at one instant, in one order, or not at all, and that a
/// reply says what was so then. The rest follows by the laws `engine_holds`, `stay_for_good`,
/// `asked_once` and `nothing_is_lost`, whose premises say what processes ask for.
pub trait Engine {
    ghost use Rattle.std.specs.Prelude.{List, ℕ};

    ghost held: { Self → List (List ℕ) };

    /// Puts an entry under the next number after the text, if the text still counts and nothing is
    /// at that number. To ask again is no different from asking once.
    ///
    /// Returns `TakenOver` if another text counts, or if another process has put an entry at that
    /// number.
    fn put(&mut self, entry: &Vec<u8>) -> Result<(), EngineFault>
        ensures ok { OnOk result (held self.new ≡ held self.old ++ entry.now.items ∷ []) }
        ensures err { OnErr result (held self.new ≡ held self.old) };

    /// Makes another text count, if the one before still does and nothing is at the next number
    /// after it. So at each moment either text counts as a whole. To ask again is no different from
    /// asking once.
    ///
    /// Returns `TakenOver` as `put` does.
    fn begin(&mut self, text: &Batch) -> Result<(), EngineFault>
        ensures ok { OnOk result (held self.new ≡ text.now.bytes ∷ []) }
        ensures err { OnErr result (held self.new ≡ held self.old) };
}
