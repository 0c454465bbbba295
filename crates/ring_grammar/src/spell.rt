ghost use Rattle.std.specs.Prelude.{OnErr, OnOk};

use crate::print::print_reply;
use crate::sink::{Sink, SinkFailed};
use ring_events::Reply;

/// A value that bytes spell, such as the answer to a line.
///
/// The ghost members are its spelling, with the LF that ends it, and whether it is a legal value.
/// By `one_spelling` no two legal replies share a spelling. The trait does not ask that of other
/// values.
pub trait Spell {
    ghost use Rattle.std.specs.Prelude.{List, ℕ};

    ghost spelling: { Self → List ℕ };

    ghost is_legal: { Self → Type 0 };

    /// Puts the spelling into a sink, or fails after a prefix of it. A value that is put whole is
    /// legal. Does not allocate.
    fn spell<S: Sink>(&self, out: &mut S) -> Result<(), SinkFailed>
        ensures ok { OnOk result (S.takes out.old (spelling self.now) out.new) }
        ensures err { OnErr result (S.takes_front out.old (spelling self.now) out.new) }
        ensures legal { OnOk result (is_legal self.now) };
}

/// A reply is spelled by its line.
impl Spell for Reply {
    ghost use Rattle.ring_grammar.specs.Spelling.{IsReply, reply_line};

    ghost spelling = { reply_line };

    ghost is_legal = { IsReply };

    fn spell<S: Sink>(&self, out: &mut S) -> Result<(), SinkFailed> {
        print_reply(self, out)
    }
}
