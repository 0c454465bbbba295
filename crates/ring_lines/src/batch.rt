//! Lines that are answered together: all of them are read before the first is answered.
ghost use Rattle.std.specs.Prelude.{◌≡◌, ◌<◌, ◌≤◌, ◌∷◌, [], length};
ghost use Rattle.ring_lines.specs.Batches.{AnswersAll};
ghost use Rattle.ring_lines.specs.private.Batches.{JoinsHeld};

use crate::answering::Answerer;
use crate::buffer::LineBuffer;
use std::alloc::{AllocError, Global};
use std::marker::Model;

/// At most this many lines are answered together.
const MOST: usize = 64;

/// The questions of the lines of a batch, and the answers to those of the last batch.
#[derive(Drop)]
pub(crate) struct Batch<A: Answerer> {
    asked: Vec<A::Asked>,
    given: Vec<A::Answer>,
}

impl<A: Answerer> Model for Batch<A> {
    ghost use Rattle.std.specs.Prelude.{vec_capacity, vec_len};
    ghost use Rattle.ring_lines.specs.private.Batches.{BatchView, HasRoom};

    ghost Value = { BatchView A.Asked A.Answer };

    ghost view = { λ a. record { asked = a.asked.items; given = a.given.items } };

    ghost invariant = { λ a.
        HasRoom (vec_capacity a.asked) (vec_capacity a.given) (vec_len a.asked) };
}

impl<A: Answerer> Batch<A> {
    /// Returns a batch of no line, with room for 64 of them. Fails only if an allocation fails.
    pub(crate) fn new(alloc: Global) -> Result<Batch<A>, AllocError> {
        Ok(Batch {
            asked: Vec::with_capacity(alloc, MOST)?,
            given: Vec::with_capacity(alloc, MOST)?,
        })
    }

    /// Begins a new batch with the question of its first line. Does not allocate.
    pub(crate) fn begin(&mut self, asked: A::Asked)
        ensures { self.new.asked ≡ asked ∷ [] }
    {
        self.asked.clear();
        self.asked.push_reserved(asked);
    }

    /// Reads complete lines of the buffer, as many as the batch has room for. Does not allocate.
    pub(crate) fn read_held(&mut self, answerer: &A, lines: &mut LineBuffer)
        ensures joins { JoinsHeld A.asks lines.old self.old.asked lines.new self.new.asked }
        ensures more { length self.old.asked ≤ length self.new.asked }
    {
        while self.asked.len() < MOST {
            let Some(line) = lines.held_line() else {
                return;
            };
            let (len, asked) = (line.len(), answerer.read(line));
            lines.drop_line(len);
            self.asked.push_reserved(asked);
        }
    }

    /// Answers all questions, in order. Afterwards the answers may be sent.
    pub(crate) fn answer(&mut self, answerer: &A, state: &mut A::State, alloc: Global)
        requires holds { A.holds answerer.now state.old }
        requires some { 0 < length self.old.asked }
        ensures kept { A.holds answerer.now state.new }
        ensures told { A.may_tell answerer.now state.new }
        ensures answered { AnswersAll A.asks (A.answers answerer.now)
            self.old.asked state.old self.new.given state.new }
    {
        self.given.clear();
        answerer.answer_all(state, alloc, &self.asked, &mut self.given);
    }

    /// Returns the answers of the last batch, in a state in which they may be sent. No answer
    /// leaves the batch in another way.
    pub(crate) fn given(&self, answerer: &A, state: &A::State) -> &[A::Answer]
        requires told { A.may_tell answerer.now state.now }
        ensures { result.now ≡ self.now.given }
    {
        &self.given
    }
}
