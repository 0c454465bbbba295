//! One turn of a seat: it draws a ticket, waits and takes the table, and ends the turn with the
//! entries that were added to it.
ghost use Rattle.std.specs.Prelude.{◌≡◌, ◌<◌, ℕ, true, []};
ghost use Rattle.ring_turn.specs.Seats.{seat_of, with_hand};
ghost use Rattle.ring_turn.specs.declared.view.Stage.TheVariants as stage;
ghost use Rattle.ring_turn.specs.private.Seats.{IsHanded, IsIdle, IsOpen, Parts, Reaches};
ghost use Rattle.ring_turn.specs.private.Steps.{Entered, HasTurn, gave_back};

use crate::held::HeldTable;
use crate::lock::TurnLock;
use crate::rule::{Board, DRAWN, Draws, Looks, SERVED, SeatToken, Serves, TABLE_SLOT};
use ring_election::RingElection;
use ring_table::Tabled;
use std::sync::Wait;
use std::{hint, thread};

/// This often a thread looks whether its time has come before it lets other threads run.
pub(crate) const LOOKS: u32 = 100;

impl<E: RingElection, T: Tabled<E> + Drop> TurnLock<E, T> {
    // Begins a turn: the table is in hand, with all the turns so far.
    pub(crate) fn enter<R: Wait>(&self, rt: &R, token: &mut SeatToken<E, T>) -> HeldTable<E, T>
        requires here { token.old.table_id ≡ self.now.id }
        requires idle { (token.old.me.0.stage ≡ stage.Idle) × (token.old.me.1 ≡ []) }
        requires turn { (token.old.me.0.lives ≡ true) × (0 < token.old.me.0.budget) }
        ensures here { token.new.table_id ≡ token.old.table_id }
        ensures entered { Entered token.old.me result token.new.me }
    {
        let ticket = self.board.shared.fetch_add::<Draws>(token, DRAWN, 1);
        self.wait_turn(rt, token, ticket);
        let Some(table) = self.board.shared.exchange(token, TABLE_SLOT, None) else {
            unreachable!()
        };
        table
    }

    // Waits until a ticket is served, and takes the slot.
    fn wait_turn<R: Wait>(&self, rt: &R, token: &mut SeatToken<E, T>, ticket: u64)
        requires here { token.old.table_id ≡ self.now.id }
        requires waits { token.old.me.0.stage ≡ stage.Waits ticket }
        ensures here { token.new.table_id ≡ token.old.table_id }
        ensures turn { HasTurn token.old.me token.new.me }
    {
        let mut looks = 0;
        for _ in rt.forever() {
            if self.board.shared.load::<Looks>(token, SERVED) == ticket {
                return;
            }
            if looks < LOOKS {
                looks += 1;
                hint::spin_loop();
            } else {
                thread::yield_now();
            }
        }
        unreachable!()
    }

    // Returns the table: the one in the seat's hand, or by a turn that begins here.
    #[inline(always)]
    pub(crate) fn reach<R: Wait>(
        &self,
        rt: &R,
        token: &mut SeatToken<E, T>,
        hand: Option<HeldTable<E, T>>,
    ) -> HeldTable<E, T>
        requires here { token.old.table_id ≡ self.now.id }
        requires seat { IsHanded hand token.old.me }
        requires turn { 0 < token.old.me.0.budget }
        ensures here { token.new.table_id ≡ token.old.table_id }
        ensures reached { Reaches hand token.old.me result token.new.me }
    {
        match hand {
            Some(table) => table,
            None => self.enter(rt, token),
        }
    }

    // Returns the hand of the seat after a call: the table if the seat holds it; otherwise the turn
    // ends here, and the hand is empty.
    pub(crate) fn part(
        &self,
        token: &mut SeatToken<E, T>,
        table: HeldTable<E, T>,
        holds: bool,
    ) -> Option<HeldTable<E, T>>
        requires here { token.old.table_id ≡ self.now.id }
        requires ready { IsOpen table token.old.me }
        ensures here { token.new.table_id ≡ token.old.table_id }
        ensures parted { Parts table token.old.me result token.new.me }
    {
        let hand = Some(table);
        if holds {
            return hand;
        }
        put_back(&self.board, token, hand);
        None
    }
}

// If a seat has the table in its hand, ends its turn.
pub(crate) fn put_back<E: RingElection, T: Tabled<E> + Drop>(
    board: &Board<E, T>,
    token: &mut SeatToken<E, T>,
    hand: Option<HeldTable<E, T>>,
)
    requires words { board.now.shared.table_id.words ≡ 3 }
    requires here { token.old.table_id ≡ board.now.shared.table_id }
    requires seat { IsHanded hand token.old.me }
    ensures here { token.new.table_id ≡ token.old.table_id }
    ensures idle { IsIdle token.new.me }
    ensures budget { token.new.me.0.budget ≡ token.old.me.0.budget }
    ensures same { (left : ℕ) → seat_of token.new.table_id left token.new.me.0
        ≡ seat_of token.old.table_id left (with_hand hand token.old.me.0) }
{
    if let Some(table) = hand {
        leave(board, token, table);
    }
}

// Puts the table back, with the entries that the seat added, and serves the next ticket.
fn leave<E: RingElection, T: Tabled<E> + Drop>(
    board: &Board<E, T>,
    token: &mut SeatToken<E, T>,
    table: HeldTable<E, T>,
)
    requires words { board.now.shared.table_id.words ≡ 3 }
    requires here { token.old.table_id ≡ board.now.shared.table_id }
    requires ready { IsOpen table token.old.me }
    ensures here { token.new.table_id ≡ token.old.table_id }
    ensures left { token.new.me ≡ (gave_back table token.old.me.0, []) }
{
    let None = board.shared.exchange(token, TABLE_SLOT, Some(table)) else {
        unreachable!()
    };
    board.shared.fetch_add::<Serves>(token, SERVED, 1);
}
