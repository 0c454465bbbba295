ghost use Rattle.ring_grammar.specs.OneSpelling.{HaveOneSpelling, RepliesAreLines};
ghost use Rattle.ring_grammar.specs.Spelling.{IsEvent, IsReply, Spells, SpellsReply};

/// Each event and each reply has one spelling, and no bytes spell two of them.
///
/// The law is the contract; the call does nothing.
pub fn one_spelling()
    ensures events { HaveOneSpelling IsEvent Spells }
    ensures replies { HaveOneSpelling IsReply SpellsReply }
    ensures lines { RepliesAreLines }
{}
