//! How a session writes an answer: as its reply alone, or with the place of the call before it.
ghost use Rattle.std.specs.Prelude.{◌≡◌, ◌≤◌, ◌+◌, ◌^◌, ℕ};
ghost use Rattle.ring_table.specs.Places.{HasPlaceBelow};

use ring_events::Reply;
use ring_lines::Spell;
use ring_table::Answer;

/// What a session writes for an answer of its access.
pub(crate) trait Format {
    ghost use Rattle.std.specs.Prelude.{◌≡◌, List, ℕ};
    ghost use Rattle.ring_any.specs.Any.{any_greatest, any_two_way, any_winner};
    ghost use Rattle.ring_any.specs.declared.any.Any.{Any};
    ghost use Rattle.ring_events.specs.declared.event.Command.{Command};
    ghost use Rattle.ring_events.specs.declared.event.Event.TheVariants as event;
    ghost use Rattle.ring_grammar.specs.Spelling.{Spells};
    ghost use Rattle.ring_id.specs.declared.refusal.Refusal.TheVariants as refusal;
    ghost use Rattle.ring_table.specs.Accesses.{AnswersAtSeat};
    ghost use Rattle.ring_table.specs.Places.{HasPlaceBelow};
    ghost use Rattle.ring_table.specs.declared.access.Answer.TheVariants as outcome;
    ghost use Rattle.ring_table.specs.declared.entry.Entry.{Entry};

    /// What is written.
    type Written: Spell + Drop;

    // it can be written for each place below this number
    ghost counts: { Self → ℕ → Type 0 };

    // what may be written for a line of a session, given the seat's own entries before the line and
    // after it; the second number bounds the places
    ghost answers: { Self → ℕ → ℕ → List ℕ → List (Entry Any) → Self.Written
        → List (Entry Any) → Type 0 };

    /// Returns what is written for an answer. Does not allocate.
    fn write(&self, answer: Answer) -> Self::Written
        requires { (most : ℕ) × HasPlaceBelow most answer × counts self.now most }
        ensures command { (most session : ℕ) (line : List ℕ) (command : Command Any)
            (mine now : List (Entry Any)) → HasPlaceBelow most answer
            → Spells line (event.Client command)
            → AnswersAtSeat any_winner any_two_way any_greatest session command mine answer now
            → answers self.now most session line mine result now }
        ensures unread { answer ≡ outcome.Unplaced refusal.BadLine → (most session : ℕ)
            (line : List ℕ) (mine : List (Entry Any))
            → ((command : Command Any) → ¬ (Spells line (event.Client command)))
            → answers self.now most session line mine result mine };
}

/// The reply alone is written.
#[derive(Clone, Copy)]
pub(crate) struct ReplyAlone;

impl Format for ReplyAlone {
    ghost use Rattle.ring_service.specs.Sessions.{AnswersIn};

    type Written = Reply;

    ghost counts = { λ _ _. Unit {0} };

    ghost answers = { λ _ _ session line mine reply now. AnswersIn session line mine reply now };

    #[inline(always)]
    fn write(&self, answer: Answer) -> Reply {
        answer.into_reply()
    }
}

/// The place of the answer is written before the reply. Places are counted from a base.
#[derive(Clone, Copy)]
pub(crate) struct WithPlace {
    pub(crate) base: usize,
}

impl Format for WithPlace {
    ghost use Rattle.std.specs.Prelude.{◌≤◌, ◌+◌, ◌^◌};
    ghost use Rattle.ring_service.specs.Places.{PlacesIn};

    type Written = Answer;

    ghost counts = { λ format most. format.base + most ≤ 2 ^ 64 };

    ghost answers = { λ format most session line mine answer now.
        PlacesIn format.base most session line mine answer now };

    #[inline(always)]
    fn write(&self, answer: Answer) -> Answer {
        match answer {
            Answer::Placed { reply, place } => Answer::Placed {
                reply,
                place: self.base + place,
            },
            Answer::Unplaced(refusal) => Answer::Unplaced(refusal),
        }
    }
}
