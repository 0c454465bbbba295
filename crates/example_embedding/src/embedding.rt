//! A table under a lock, its one caller, and the worlds of the terms that were started.
use ring_any::Any;
use ring_election::RingElection;
use ring_events::Command;
use ring_id::GroupName;
use ring_lines::{Intake, LineReader, Next, Spell, parse_command};
use ring_table::{Access, Entry, Filed, LockedSeat, LockedTable, Table};
use ring_world::{Delivery, Settlement, World, settle};
use std::alloc::Global;
use std::io::Write;
use std::sync::Wait;

// The number of the session that makes all calls.
const SESSION: u32 = 1;

/// Why the program failed.
#[derive(Clone, Copy, Debug)]
pub enum Fault {
    /// An allocation failed.
    NoMemory,
    /// The input could not be read to its end.
    Read,
    /// The output could not be written.
    Write,
    /// A term has not come to rest.
    Unsettled,
}

/// A table under a lock with a seat of it, and the worlds of its terms, in the order of their
/// starts.
#[derive(Drop)]
pub struct Host<E: RingElection> {
    alloc: Global,
    table: LockedTable<E>,
    seat: LockedSeat<E>,
    worlds: Vec<World<E>>,
}

impl Host<Any> {
    /// Answers each line of the input by one line, to the end of the input.
    pub fn answer_all<R: Wait, I: Intake>(
        &mut self,
        rt: &R,
        lines: &mut LineReader<I>,
        out: &mut Vec<u8>,
    ) -> Result<(), Fault> {
        for _ in 0..u64::MAX {
            let answered = match lines.next() {
                Next::Line(line) => self.answer(rt, line.bytes(), out),
                Next::Long => refuse(out),
                Next::End => return Ok(()),
                Next::Fault(_) => return Err(Fault::Read),
            };
            let Ok(()) = answered else {
                return answered;
            };
        }
        Err(Fault::Read)
    }

    // Answers a line.
    fn answer<R: Wait>(&mut self, rt: &R, line: &[u8], out: &mut Vec<u8>) -> Result<(), Fault> {
        match parse_command(line) {
            None => refuse(out),
            Some(command) => self.obey(rt, command, out),
        }
    }
}

// Answers a line that is no command.
fn refuse(out: &mut Vec<u8>) -> Result<(), Fault> {
    let Ok(()) = out.extend_from_slice(b"no bad-line\n") else {
        return Err(Fault::NoMemory);
    };
    Ok(())
}

impl<E: RingElection> Host<E> {
    /// Returns a table without groups. Fails only if an allocation fails.
    pub fn open(alloc: Global) -> Result<Host<E>, Fault> {
        let Ok((table, mut seats)) = LockedTable::new(alloc, Table::new(alloc), 1) else {
            return Err(Fault::NoMemory);
        };
        let Some(seat) = seats.pop() else {
            unreachable!()
        };
        drop(seats);
        Ok(Host {
            alloc,
            table,
            seat,
            worlds: Vec::new(alloc),
        })
    }

    // Carries out a command, and writes the reply.
    fn obey<R: Wait>(
        &mut self,
        rt: &R,
        command: Command<E>,
        out: &mut Vec<u8>,
    ) -> Result<(), Fault> {
        if let Command::Start(group) = command {
            return self.start(rt, group, out);
        }
        let answer = self.table.call(rt, &mut self.seat, SESSION, command);
        write_reply(answer.into_reply(), out)
    }

    // Starts a term, and delivers its packets until nothing is in flight.
    fn start<R: Wait>(&mut self, rt: &R, group: GroupName, out: &mut Vec<u8>) -> Result<(), Fault> {
        let Ok(()) = self.worlds.reserve(1) else {
            return Err(Fault::NoMemory);
        };
        let (answer, mut charters) = self.table.begin(rt, &mut self.seat, SESSION, group, 1);
        let charter = charters.pop();
        drop(charters);
        let written = write_reply(answer.into_reply(), out);
        let Some(charter) = charter else {
            return written;
        };
        let Ok(mut world) = World::begin(self.alloc, charter) else {
            return Err(Fault::NoMemory);
        };
        let decided = decide(rt, &self.table, &mut self.seat, &mut world);
        self.worlds.push_reserved(world);
        written.and(decided)
    }

    /// Takes the table out of its lock, and files once more what the nodes of each term know. Then
    /// it writes the history of the table. Fails if a term is not settled, or if an allocation
    /// fails.
    pub fn finish(self, out: &mut Vec<u8>) -> Result<(), Fault> {
        let Host {
            alloc: _,
            table,
            seat,
            worlds,
        } = self;
        drop(seat);
        let mut table = table.into_table();
        let mut finished = Ok(());
        for world in &worlds {
            finished = finished.and(finish_term(&mut table, world));
        }
        drop(worlds);
        let written = write_history(&table, out);
        drop(table);
        finished.and(written)
    }
}

// Delivers the packets of a world until nothing is in flight, and files what its nodes report.
fn decide<E: RingElection, R: Wait>(
    rt: &R,
    table: &LockedTable<E>,
    seat: &mut LockedSeat<E>,
    world: &mut World<E>,
) -> Result<(), Fault> {
    for _ in 0..u64::MAX {
        let Some((position, side)) = world.ready() else {
            return Ok(());
        };
        match world.deliver(position, side) {
            Delivery::Moved(Some(report)) => {
                let filed = table.report(rt, seat, &report);
                drop(report);
                if matches!(filed, Filed::Refused(_)) {
                    return Err(Fault::NoMemory);
                }
            }
            Delivery::Refused(_) => return Err(Fault::NoMemory),
            Delivery::Moved(None) | Delivery::Idle => (),
        }
    }
    Err(Fault::Unsettled)
}

// Files what the nodes of a term know, which has to be settled.
fn finish_term<E: RingElection>(table: &mut Table<E>, world: &World<E>) -> Result<(), Fault> {
    if settle(world.charter(), world.nodes()) != Settlement::Settled {
        return Err(Fault::Unsettled);
    }
    match table.finish(world.nodes()) {
        Ok(()) => Ok(()),
        Err(_) => Err(Fault::NoMemory),
    }
}

// Writes the line of a reply.
fn write_reply<S: Spell + Drop>(reply: S, out: &mut Vec<u8>) -> Result<(), Fault> {
    let written = reply.spell(out);
    drop(reply);
    match written {
        Ok(()) => Ok(()),
        Err(_) => Err(Fault::NoMemory),
    }
}

// Writes the history of a table: of a call its reply, and of a report who knows which leader.
fn write_history<E: RingElection>(table: &Table<E>, out: &mut Vec<u8>) -> Result<(), Fault> {
    for entry in table.history() {
        let is_written = match entry {
            Entry::Call { reply, .. } => reply.spell(out).is_ok(),
            Entry::Filing {
                term,
                member,
                leader,
                noting,
                ..
            } => {
                let (term, member, leader) = (term.get(), member.get(), leader.get());
                writeln!(
                    out,
                    "term {term}: {member} knows leader {leader}: {noting:?}"
                )
                .is_ok()
            }
        };
        if !is_written {
            return Err(Fault::NoMemory);
        }
    }
    Ok(())
}
