//! Replies of the service.
ghost use Rattle.std.specs.Prelude.{◌≡◌, ◌≢◌, ◌++◌, ◌↔◌, ℕ, List, IfSome, IsSomeAnd, IsTrue, MatchOption, codes};
ghost use Rattle.ringctl.specs.Replies.{IsNumber, IsPlace, IsRefusal, IsWithoutPlace, line_of};

/// A reply of the service.
#[derive(Clone, Copy)]
pub enum Reply<'a> {
    /// The command was done; the whole line, without its place and its LF.
    Done(&'a str),
    /// The command was refused, with this word.
    Refused(&'a str),
}

/// Returns the reply in a line, given without its LF, or `None` if a service never sends such a
/// line. Leaves out the place, if the line begins with one.
pub fn reply_in(line: &str) -> Option<Reply<'_>>
    ensures whole { IfSome result (λ reply. IsWithoutPlace line.now (line_of reply)) }
    ensures refused { (word : List ℕ) → IsWithoutPlace line.now (codes "no " ++ word)
        → IsSomeAnd result IsRefusal }
{
    read_reply(without_place(line))
}

// Returns a line without its place, or the whole line if it begins with none. With `--places` a
// service writes a place and a space before each reply.
fn without_place(line: &str) -> &str
    ensures { IsWithoutPlace line.now result.now }
{
    let Some((place, rest)) = line.split_once(' ') else {
        return line;
    };
    if is_place(place) { rest } else { line }
}

// Returns whether this is a place: digits, or the `-` of a reply without a number.
fn is_place(text: &str) -> bool
    ensures { IsTrue result ↔ IsPlace text.now }
{
    text == "-" || is_number(text)
}

// Returns whether these are digits, one or more.
fn is_number(text: &str) -> bool
    ensures { IsTrue result ↔ IsNumber text.now }
{
    !text.is_empty() && text.as_bytes().iter().all(|byte| byte.is_ascii_digit())
}

// Returns the reply in a line without its place, or `None` if a service never sends such a line. A
// line that begins with `no` and a space is a refusal, and the rest is its word.
fn read_reply(line: &str) -> Option<Reply<'_>>
    ensures whole { IfSome result (λ reply. line_of reply ≡ line.now) }
    ensures refused { (word : List ℕ) → line.now ≡ codes "no " ++ word
        → IsSomeAnd result IsRefusal }
{
    if let Some(word) = refusal_in(line) {
        return Some(Reply::Refused(word));
    }
    if is_done(line) {
        Some(Reply::Done(line))
    } else {
        None
    }
}

// Returns the rest of a line after `no` and a space, or `None` if it does not begin with these.
fn refusal_in(line: &str) -> Option<&str>
    ensures { MatchOption result
        ((word : List ℕ) → line.now ≢ codes "no " ++ word)
        (λ word. line.now ≡ codes "no " ++ word.now) }
{
    line.strip_prefix("no ")
}

// Returns whether the first word is one with which the service answers a command that was done.
fn is_done(line: &str) -> bool {
    let (first, _) = line.split_once(' ').unwrap_or((line, ""));
    matches!(
        first,
        "ok" | "term" | "leader" | "undecided" | "members" | "terms" | "groups"
    )
}
