//! The program `example_embedding`: a table and its elections in one thread, without a socket and
//! without workers.
//!
//! Each line of standard input is a client's command, which is answered by one line. A `LineReader`
//! cuts the lines, and a seat of a `LockedTable` answers them. When a line starts a term, the
//! program delivers each packet of the term's `World` itself, and files what the nodes report.
//!
//! At the end of the input it takes the table out of its lock. Each term has to be settled, and
//! `Table::finish` files once more what its nodes know. Then the history follows the answers, one
//! entry a line.
#![tactic(auto)]

mod embedding;

use embedding::{Fault, Host};
use ring_lines::{FromRead, LineReader, ToWrite, put};
use std::io;

fn main(rt: HostRuntime) -> Result<(), Fault> {
    let alloc = rt.alloc();
    let Ok(mut lines) = LineReader::new(alloc, FromRead(rt.reader()), u32::MAX) else {
        return Err(Fault::NoMemory);
    };
    let mut host = Host::open(alloc)?;
    let mut out = Vec::new(alloc);
    let answered = host.answer_all(&rt, &mut lines, &mut out);
    drop(lines);
    let finished = host.finish(&mut out);
    let written = put(&mut ToWrite(io::writer(&rt)), &out);
    drop(out);
    answered.and(finished).and(written.or(Err(Fault::Write)))
}
