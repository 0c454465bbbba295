ghost use Rattle.std.specs.Prelude.{OnErr, OnOk};

/// The bytes were not all put.
#[derive(Clone, Copy, Debug, PartialEq, Eq)]
pub struct SinkFailed;

/// A place into which bytes are put, one piece after another.
///
/// An implementer defines which bytes lead from which state to which. So a list of bytes can be a
/// sink, and so can a buffer before a writer that is known only by its calls.
pub trait Sink {
    ghost use Rattle.std.specs.Prelude.{List, ℕ};
    ghost use Rattle.ring_grammar.specs.Sinks.{IsSequence};

    // all of these bytes were put between the one state and the other
    ghost takes: { Self → List ℕ → Self → Type 0 };

    // a prefix of these bytes was put, and then putting failed
    ghost takes_front: { Self → List ℕ → Self → Type 0 };

    /// Puts all of these bytes, or fails after a prefix of them.
    fn put(&mut self, bytes: &[u8]) -> Result<(), SinkFailed>
        ensures ok { OnOk result (takes self.old bytes.now self.new) }
        ensures err { OnErr result (takes_front self.old bytes.now self.new) };

    // one piece after another is the same as both together
    ghost laws: { IsSequence takes takes_front };
}

/// Appends bytes. It fails if an allocation fails.
impl Sink for Vec<u8> {
    ghost use Rattle.ring_grammar.specs.Appending.{Appends, AppendsFront};
    ghost use Rattle.ring_grammar.specs.laws.Appending.{appends_in_sequence};

    ghost takes = { λ a bytes b. Appends a.items bytes b.items };

    ghost takes_front = { λ a bytes b. AppendsFront a.items bytes b.items };

    ghost laws = { appends_in_sequence (λ v. v.items) };

    fn put(&mut self, bytes: &[u8]) -> Result<(), SinkFailed> {
        self.extend_from_slice(bytes).map_err(|_| SinkFailed)
    }
}
