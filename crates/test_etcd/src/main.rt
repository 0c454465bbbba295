//! A program that appends to a journal in etcd, for tests by hand and by `tests/check-etcd`.
//!
//! ```text
//! test_etcd append MEMBERS NAME WORD COUNT   takes over, then settles COUNT lines `WORD K`
//! test_etcd rewrite MEMBERS NAME WORD COUNT  the same, and rewrites the text after each 16 lines
//! test_etcd read MEMBERS NAME                takes over, and prints what was found
//! ```
#![tactic(auto)]

mod appending;
mod asked;

use crate::appending::{Lines, append, take};
use crate::asked::{Asked, Order, read_words};
use anyhow::Result;
use ring_etcd::{asked_once, engine_holds, nothing_is_lost, stay_for_good};
use std::io;
use std::io::Write;
use std::net::{Net, TcpStream};
use std::rt::Env;
use std::time::Clock;

// Takes over the journal with this name, and prints what was found.
fn print_found<R>(rt: &R, members: &str, name: &str) -> Result<()>
where
    R: AllocGlobal + Print + Clock + Net<Stream = TcpStream> + Copy + Drop,
{
    let mut place = take(rt, members, name)?;
    let found = place.read();
    drop(place);
    print_bytes(rt, &found)
}

// Prints these bytes.
fn print_bytes<R: Print>(rt: &R, bytes: &[u8]) -> Result<()> {
    io::writer(rt).write_all(bytes)?;
    Ok(())
}

// Does what is asked for.
fn carry_out<R>(rt: &R, asked: Asked<'_>) -> Result<()>
where
    R: AllocGlobal + Print + Clock + Net<Stream = TcpStream> + Copy + Drop,
{
    let Asked {
        members,
        name,
        order,
    } = asked;
    let (word, count, rewrites) = match order {
        Order::Append { word, count } => (word, count, false),
        Order::Rewrite { word, count } => (word, count, true),
        Order::Read => return print_found(rt, members, name),
    };
    let lines = Lines {
        word,
        count,
        rewrites,
    };
    append(rt, members, name, lines)
}

fn run<R>(rt: &R) -> Result<()>
where
    R: AllocGlobal + Print + Env + Clock + Net<Stream = TcpStream> + Copy + Drop,
{
    let words: Vec<String> = std::env::args(rt)?.collect(rt.alloc())?;
    match read_words(&words) {
        Ok(asked) => carry_out(rt, asked),
        Err(error) => Err(error),
    }
}

fn main(rt: HostRuntime) -> Result<()> {
    // the laws that the journal rests on, which do nothing
    stay_for_good();
    asked_once();
    nothing_is_lost();
    engine_holds();
    run(&rt)
}
