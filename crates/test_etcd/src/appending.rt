//! Settles lines in a journal that this process takes over.
//!
//! A function with several exits borrows what it uses, so that one caller with one exit drops it.

use anyhow::{Result, bail};
use ring_etcd::{EtcdPlace, Standing};
use ring_journal::{Batch, Medium};
use std::alloc::Global;
use std::net::{Net, TcpStream};
use std::sync::Arc;
use std::time::Clock;

/// Lines to settle: `word 0`, `word 1` and so on, `count` lines.
#[derive(Clone, Copy)]
pub(crate) struct Lines<'a> {
    pub(crate) word: &'a str,
    pub(crate) count: u32,
    /// Whether the text is rewritten after each 16 lines.
    pub(crate) rewrites: bool,
}

/// Takes over the journal with this name.
pub(crate) fn take<R>(rt: &R, members: &str, name: &str) -> Result<EtcdPlace<R>>
where
    R: AllocGlobal + Clock + Net<Stream = TcpStream> + Copy + Drop,
{
    match EtcdPlace::take(rt, members, name) {
        Ok(place) => Ok(place),
        Err(fault) => bail!("taking: {fault:?}"),
    }
}

/// Takes over the journal with this name, and settles lines in it. Prints each line once it is
/// settled, and at the end `done`, `journal taken over` or `journal failed`.
pub(crate) fn append<R>(rt: &R, members: &str, name: &str, lines: Lines<'_>) -> Result<()>
where
    R: AllocGlobal + Print + Clock + Net<Stream = TcpStream> + Copy + Drop,
{
    let standing = Arc::new(rt.alloc(), Standing::new())?;
    append_under(rt, members, name, lines, &standing)
}

// The same, with the place in which the journal notes whether it was taken over.
fn append_under<R>(
    rt: &R,
    members: &str,
    name: &str,
    lines: Lines<'_>,
    standing: &Arc<Standing>,
) -> Result<()>
where
    R: AllocGlobal + Print + Clock + Net<Stream = TcpStream> + Copy + Drop,
{
    let theirs = Arc::try_clone(standing)?;
    let mut place = take(rt, members, name)?;
    let mut text = Batch::from(place.read());
    match place.begin(&text, theirs) {
        Ok(mut medium) => append_and_tell(rt, &mut medium, &mut text, lines, standing),
        Err(fault) => bail!("beginning: {fault:?}"),
    }
}

// Settles lines in a journal that was begun, whose text is `text`. Prints how that ended.
fn append_and_tell<R, M>(
    rt: &R,
    medium: &mut M,
    text: &mut Batch,
    lines: Lines<'_>,
    standing: &Standing,
) -> Result<()>
where
    R: Print + AllocGlobal,
    M: Medium,
{
    let is_done = append_lines(rt, medium, text, lines)?;
    let ended = if is_done {
        "done"
    } else if standing.is_taken_over() {
        "journal taken over"
    } else {
        "journal failed"
    };
    println!(rt; "{ended}")?;
    Ok(())
}

// Settles lines, and prints each once it is settled. Returns whether the journal is still this
// process's.
fn append_lines<R, M>(rt: &R, medium: &mut M, text: &mut Batch, lines: Lines<'_>) -> Result<bool>
where
    R: Print + AllocGlobal,
    M: Medium,
{
    for k in 0..lines.count {
        if !append_line(rt, medium, text, lines.word, k)? {
            return Ok(false);
        }
        if lines.rewrites && k % 16 == 15 && medium.replace(text).is_err() {
            return Ok(false);
        }
    }
    Ok(true)
}

// Settles the line with this number, prints it, and adds it to the text. Returns whether the
// journal is still this process's.
fn append_line<R, M>(rt: &R, medium: &mut M, text: &mut Batch, word: &str, k: u32) -> Result<bool>
where
    R: Print + AllocGlobal,
    M: Medium,
{
    let line = format!(in rt.alloc(); "{word} {k}")?;
    settle_and_tell(rt, medium, text, line.as_str())
}

// Settles a line, prints it, and adds it to the text. Returns whether the journal is still this
// process's.
fn settle_and_tell<R, M>(rt: &R, medium: &mut M, text: &mut Batch, line: &str) -> Result<bool>
where
    R: Print + AllocGlobal,
    M: Medium,
{
    if !settle(rt.alloc(), medium, line)? {
        return Ok(false);
    }
    println!(rt; "told {line}")?;
    text.add(line.as_bytes())?;
    Ok(true)
}

// Settles a line. Returns whether the journal is still this process's.
fn settle<M: Medium>(alloc: Global, medium: &mut M, line: &str) -> Result<bool> {
    let mut batch = Batch::new(alloc);
    batch.add(line.as_bytes())?;
    Ok(settle_batch(medium, &batch))
}

// Settles a batch. Returns whether the journal is still this process's.
fn settle_batch<M: Medium>(medium: &mut M, batch: &Batch) -> bool {
    medium.append(batch).is_ok() && medium.sync().is_ok()
}
