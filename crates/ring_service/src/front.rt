ghost use Rattle.std.specs.Prelude.{◌≡◌, ◌⊎◌, ◌≤◌, ◌+◌, ◌^◌, vec_len};
ghost use Rattle.ring_any.specs.Any.{any_greatest, any_two_way, any_winner};
ghost use Rattle.ring_events.specs.declared.event.Command.TheVariants as command;
ghost use Rattle.ring_table.specs.Accesses.{AnswersAtSeat};
ghost use Rattle.ring_table.specs.Places.{HasPlaceBelow};
ghost use Rattle.ring_service.specs.Places.{ServesPlaced};
ghost use Rattle.ring_service.specs.Sessions.{Serves};
ghost use Rattle.ring_service.specs.private.Telling.{Begins};

use crate::format::{ReplyAlone, WithPlace};
use crate::pending::PendingBegins;
use crate::session::Session;
use ring_any::Any;
use ring_events::Command;
use ring_id::{GroupName, NoMemory, Refusal};
use ring_lines::{Intake, LineFault, Outlet, answer_lines};
use ring_node::Charter;
use ring_table::{Access, Answer};
use std::alloc::Global;
use std::marker::Model;
use std::sync::atomic::{AtomicBool, AtomicU64, Ordering};
use std::sync::{Arc, Mutex, Wait};

/// The state that the sessions of a service share: the access to its table, and its passes to the
/// workers. It counts the lines that it did not read as a client command.
#[derive(Drop)]
pub struct Front<A: Drop> {
    alloc: Global,
    pub(crate) access: Arc<A>,
    pending: Mutex<PendingBegins>,
    // whether a begin may wait
    waits: AtomicBool,
    // how many lines of sessions spelled no client command
    unread: AtomicU64,
}

impl<A: Drop> Model for Front<A> {
    ghost Value = { A };

    ghost view = { λ front. front.access.value };
}

impl<A: Access<Any> + Drop> Front<A> {
    /// Returns the front of this access, with these passes. Does not allocate.
    pub(crate) fn new(alloc: Global, access: Arc<A>, pending: PendingBegins) -> Front<A>
        ensures { result ≡ access.value }
    {
        Front {
            alloc,
            access,
            pending: Mutex::new(pending),
            waits: AtomicBool::new(false),
            unread: AtomicU64::new(0),
        }
    }

    /// Returns the access and the passes. Does not allocate.
    pub(crate) fn into_parts(self) -> (Arc<A>, PendingBegins)
        ensures { result.0.value ≡ self }
    {
        let Front {
            alloc: _,
            access,
            pending,
            waits: _,
            unread: _,
        } = self;
        (access, pending.into_inner())
    }

    /// Returns how many lines of all sessions were answered `no bad-line`, modulo 2^64. Does not
    /// allocate. The count is tested, not proved.
    pub fn unread(&self) -> u64 {
        self.unread.load(Ordering::SeqCst)
    }

    /// Counts a line that spells no client command.
    pub(crate) fn count_unread(&self) {
        self.unread.fetch_add(1, Ordering::SeqCst);
    }

    /// Serves one session by this seat: the writer gets one line for each line of the reader.
    ///
    /// The reply to a line that spells a client command is that of the access. The reply to any
    /// other line is `no bad-line`, also to a line of a schedule. The seat gains the session's
    /// commands with their replies, in the order of the lines. It gains no entry if an allocation
    /// failed or the seat was spent. Before each read call, exactly the replies to all whole lines
    /// that were read are written.
    ///
    /// `Ok` has the number of lines, and is returned only at the end of the input. At `Read` and
    /// `Endless`, every line that ends with an LF has its reply. At `Write`, a prefix of the
    /// replies was written. At `NoMemory`, nothing was read. Makes at most `reads` read calls.
    /// Waits for the access, the reader and the writer.
    ///
    /// A start that begins a term is put to each worker. If a worker's inbox cannot store it, it
    /// waits, and is tried again before each later command of any session.
    ///
    /// Before replies are written, all entries that they were given from are kept for good. However
    /// the session ends, its seat is then settled or unchanged.
    pub fn serve<R: Wait, I: Intake, O: Outlet>(
        &self,
        rt: &R,
        seat: &mut A::Seat,
        session: u32,
        reader: &mut I,
        writer: &mut O,
        reads: u32,
    ) -> Result<u64, LineFault>
        requires { A.has_seat self.now seat.old }
        ensures seat { A.has_seat self.now seat.new }
        ensures served { Serves
            (record { gives = I.read_gives; from = reader.old; to = reader.new })
            (record { gives = O.write_gives; from = writer.old; to = writer.new })
            A.mine session reads result seat.old seat.new }
        ensures told { (seat.new ≡ seat.old) ⊎ A.is_settled seat.new }
    {
        let session = Session {
            front: self,
            rt,
            number: session,
            format: ReplyAlone,
        };
        answer_lines(self.alloc, &session, seat, reader, writer, reads)
    }

    /// Serves a session as `serve` does, and writes the place of each reply before it. The place is
    /// that of the call, counted from `base`, and a space follows it. If the seat gained no entry
    /// by the line, `-` and a space are written instead.
    pub fn serve_placed<R: Wait, I: Intake, O: Outlet>(
        &self,
        rt: &R,
        seat: &mut A::Seat,
        base: usize,
        session: u32,
        reader: &mut I,
        writer: &mut O,
        reads: u32,
    ) -> Result<u64, LineFault>
        requires seat { A.has_seat self.now seat.old }
        requires base { base + A.most ≤ 2 ^ 64 }
        ensures seat { A.has_seat self.now seat.new }
        ensures served { ServesPlaced
            (record { gives = I.read_gives; from = reader.old; to = reader.new })
            (record { gives = O.write_gives; from = writer.old; to = writer.new })
            A.mine base A.most session reads result seat.old seat.new }
        ensures told { (seat.new ≡ seat.old) ⊎ A.is_settled seat.new }
    {
        let session = Session {
            front: self,
            rt,
            number: session,
            format: WithPlace { base },
        };
        answer_lines(self.alloc, &session, seat, reader, writer, reads)
    }

    /// Returns the access's answer to a command of a session. The begins that wait for the workers
    /// are tried first.
    #[inline(always)]
    pub(crate) fn answer<R: Wait>(
        &self,
        rt: &R,
        seat: &mut A::Seat,
        session: u32,
        command: Command<Any>,
    ) -> Answer
        requires { A.has_seat self.now seat.old }
        ensures seat { A.has_seat self.now seat.new }
        ensures entry { AnswersAtSeat any_winner any_two_way any_greatest session command
            (A.mine seat.old) result (A.mine seat.new) }
        ensures place { HasPlaceBelow A.most result }
    {
        match command {
            Command::Start(group) => self.begin(rt, seat, session, group),
            command => {
                self.try_waiting(rt);
                self.access.call(rt, seat, session, command)
            }
        }
    }

    // Starts a term, and puts its begins to the workers. The lock on the pending is held until they
    // are put: no other session puts begins meanwhile.
    #[tactic(auto, using(crate::proofs::Replying::told_answers))]
    fn begin<R: Wait>(&self, rt: &R, seat: &mut A::Seat, session: u32, group: GroupName) -> Answer
        requires { A.has_seat self.now seat.old }
        ensures seat { A.has_seat self.now seat.new }
        ensures entry { AnswersAtSeat any_winner any_two_way any_greatest session
            (command.Start group) (A.mine seat.old) result (A.mine seat.new) }
        ensures place { HasPlaceBelow A.most result }
    {
        let mut pending = self.pending.lock(rt);
        let answer = self.begin_by(rt, &mut pending, seat, session, group);
        self.waits.store(!pending.is_idle(), Ordering::SeqCst);
        answer
    }

    // Starts a term, by the passes that the lock guards. If it begins, a begin for each worker is
    // stored by the pass to that worker, or waits.
    fn begin_by<R: Wait>(
        &self,
        rt: &R,
        pending: &mut PendingBegins,
        seat: &mut A::Seat,
        session: u32,
        group: GroupName,
    ) -> Answer
        requires { A.has_seat self.now seat.old }
        ensures seat { A.has_seat self.now seat.new }
        ensures place { HasPlaceBelow A.most result }
        ensures begins { Begins any_winner any_two_way any_greatest session group
            (vec_len pending.old.passes) (A.mine seat.old) result (A.mine seat.new)
            pending.old.waiting.items pending.new.waiting.items pending.old.passes.items
            pending.new.passes.items }
    {
        pending.try_waiting(rt);
        let Ok(()) = pending.find_room() else {
            return Answer::Unplaced(Refusal::NoMemory);
        };
        let (answer, charters) = self
            .access
            .begin(rt, seat, session, group, pending.workers());
        pending.add(charters);
        pending.try_waiting(rt);
        answer
    }

    /// Puts a begin for each of these terms to each worker, as a start of the term does. If an
    /// allocation fails, none is put.
    pub(crate) fn resume<R: Wait>(
        &self,
        rt: &R,
        charters: &[Arc<Charter<Any>>],
    ) -> Result<(), NoMemory> {
        let mut pending = self.pending.lock(rt);
        let added = pending.add_terms(self.alloc, charters);
        pending.try_waiting(rt);
        self.waits.store(!pending.is_idle(), Ordering::SeqCst);
        added
    }

    // Tries the begins that wait, if there may be any.
    fn try_waiting<R: Wait>(&self, rt: &R) {
        if self.waits.load(Ordering::SeqCst) {
            let mut pending = self.pending.lock(rt);
            pending.try_waiting(rt);
            self.waits.store(!pending.is_idle(), Ordering::SeqCst);
        }
    }
}
