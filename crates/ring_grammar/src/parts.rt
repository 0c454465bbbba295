ghost use Rattle.std.specs.Prelude.{◌≡◌, ◌==◌, ◌∷◌, [], position, IfSome, IfNone};
ghost use Rattle.ring_grammar.specs.private.Reading.{parts_at};

/// Returns the text before the first of these separators, and the text after it; `None` if there is
/// none.
pub(crate) fn cut(text: &[u8], separator: u8) -> Option<(&[u8], &[u8])>
    ensures some { IfSome result
        (λ cut. parts_at separator text.now ≡ cut.0.now ∷ parts_at separator cut.1.now) }
    ensures none { IfNone result (parts_at separator text.now ≡ text.now ∷ []) }
{
    match first_at(text, separator) {
        Some(at) => Some((&text[..at], &text[at + 1..])),
        None => None,
    }
}

fn first_at(text: &[u8], separator: u8) -> Option<usize>
    ensures { result ≡ position (λ b. b == separator) text.now }
{
    text.iter().position(|b| *b == separator)
}
