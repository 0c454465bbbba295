ghost use Rattle.ring_grammar.specs.OneSpelling.{HaveOneSpelling};
ghost use Rattle.ring_change.specs.Lines.{ChangesAreLines};
ghost use Rattle.ring_change.specs.Spelling.{IsChange, SpellsChange};

use ring_grammar::one_spelling;

/// Each change has one spelling, and no bytes spell two of them. Its line in a journal has at most
/// 70 bytes, none of them an LF or a zero.
///
/// The law is the contract; the call does nothing.
pub fn one_change()
    ensures changes { HaveOneSpelling IsChange SpellsChange }
    ensures lines { ChangesAreLines }
{
    one_spelling();
}
