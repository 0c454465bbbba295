//! The terms that a watch has printed, and the news in a reply.
ghost use Rattle.std.specs.Prelude.{◌≡◌, ◌<◌, ◌↔◌, IsTrue, max};

use ring_id::NodeId;

/// A term in a reply to `terms`: its number, and its leader if it is known.
#[derive(Clone, Copy)]
pub struct Term {
    pub number: u16,
    pub leader: Option<NodeId>,
}

/// Returns the number in the word of a member: the part before its weight, if it has one.
pub fn number_in(word: &str) -> &str {
    match word.split_once('/') {
        Some((number, _)) => number,
        None => word,
    }
}

/// Returns the term in `T:N`, `T:N/V` or `T:-`, or `None` if the text is none of these.
pub fn read_term(text: &str) -> Option<Term> {
    let (number, leader) = text.split_once(':')?;
    let number = number.parse().ok()?;
    let leader = if leader == "-" {
        None
    } else {
        Some(read_identity(leader)?)
    };
    Some(Term { number, leader })
}

// Returns the member in a number, or in a number and a weight.
fn read_identity(word: &str) -> Option<NodeId> {
    let (number, weight) = word.split_once('/').unwrap_or((word, "0"));
    NodeId::weighted(number.parse().ok()?, weight.parse().ok()?)
}

/// The news of a term.
#[derive(Clone, Copy)]
pub struct News {
    /// Whether it has started.
    pub started: bool,
    /// Its leader, if that has become known.
    pub leader: Option<NodeId>,
}

/// The last term that was printed, and whether its leader was.
#[derive(Clone, Copy)]
pub struct Told {
    term: u16,
    is_decided: bool,
}

impl Told {
    /// Returns the state before anything was printed.
    pub fn nothing() -> Told {
        Told {
            term: 0,
            is_decided: false,
        }
    }

    /// Returns the news of this term, which counts as printed from now on. An earlier term has no
    /// news.
    pub fn take(&mut self, term: Term) -> News
        ensures started { IsTrue result.started ↔ self.old.term < term.number }
        ensures last { self.new.term ≡ max self.old.term term.number }
    {
        let started = self.term < term.number;
        if started {
            self.term = term.number;
            self.is_decided = false;
        }
        let is_news = self.term == term.number && !self.is_decided;
        let leader = if is_news { term.leader } else { None };
        if leader.is_some() {
            self.is_decided = true;
        }
        News { started, leader }
    }
}
