//! Where a journal is kept.
ghost use Rattle.std.specs.Prelude.{◌≡◌, ◌==◌, ◌↔◌, IsTrue, MatchOption};
ghost use Rattle.std.specs.List.{list_all, list_any, slice_split};
ghost use Rattle.ring_words.specs.Journals.{IsAt, IsJournalName, NamesNoJournal, has_colon, is_journal_byte};

// The greatest number of bytes of a journal's name in etcd.
const LONGEST: usize = 64;

/// The place at which a journal is kept.
#[derive(Clone, Copy)]
pub enum JournalAt<'a> {
    /// The file at a path.
    File(&'a str),
    /// The members of etcd, as HOST:PORT,HOST:PORT and so on, and the name of the journal there.
    Etcd { members: &'a str, name: &'a str },
}

/// Returns the place of the journal that a text names. The text `etcd://MEMBERS/NAME` names the
/// journal NAME in etcd. A text that does not begin with `etcd://` is the path of a file.
///
/// MEMBERS is HOST:PORT,HOST:PORT and so on: each part at its commas has a `:`, and none has a `/`.
/// NAME has 1 to 64 bytes, each a letter, a digit, `-` or `_`. Returns `None` if a text begins with
/// `etcd://` and goes on in another way.
pub fn journal_at(text: &str) -> Option<JournalAt<'_>>
    ensures { MatchOption result (NamesNoJournal text.now) (IsAt text.now) }
{
    let Some(rest) = text.strip_prefix("etcd://") else {
        return Some(JournalAt::File(text));
    };
    let (members, name) = rest.split_once('/')?;
    if !are_members(members) || !is_journal_name(name) {
        return None;
    }
    Some(JournalAt::Etcd { members, name })
}

// Returns whether each part of a text, at its commas, has a colon.
fn are_members(members: &str) -> bool
    ensures { result ≡ list_all has_colon (slice_split (λ b. b == 44) members.now) }
{
    members.split(',').all(|member| has_colon(member))
}

// Returns whether a text has a colon.
fn has_colon(member: &str) -> bool
    ensures { result ≡ has_colon member.now }
{
    member.as_bytes().iter().any(|b| *b == b':')
}

// Returns whether a text is the name of a journal in etcd.
fn is_journal_name(name: &str) -> bool
    ensures { IsTrue result ↔ IsJournalName name.now }
{
    !name.is_empty() && name.len() <= LONGEST && all_in_names(name.as_bytes())
}

// Returns whether each byte may be in the name of a journal in etcd.
fn all_in_names(bytes: &[u8]) -> bool
    ensures { result ≡ list_all is_journal_byte bytes.now }
{
    bytes.iter().all(|b| matches!(*b, b'a'..=b'z' | b'A'..=b'Z' | b'0'..=b'9' | b'-' | b'_'))
}
