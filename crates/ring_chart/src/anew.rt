//! The election of a term, begun anew in a world of its own.
use crate::page::Page;
use crate::recorder::Recorder;
use crate::svg::draw_svg;
use crate::tale::Tale;
use ring_any::Any;
use ring_node::Charter;
use std::alloc::{AllocError, Global};
use std::sync::Arc;

/// The most deliveries in a picture. An election in a ring of 256 members may have 65,792.
const MOST_STEPS: u32 = 500;

/// The most members that have columns. A column is at least 84 pixels wide.
const MOST_COLUMNS: usize = 64;

// The line that says what the picture shows.
const ANEW: &str =
    "The term's election in the order of a drain: not what this run of the service delivered.";

/// Returns the picture of a term's election as one SVG document.
///
/// The term begins anew. Each delivery is at the first link with a packet in flight, as in a drain.
/// A line in the picture says so, since threads deliver in another order. There are at most 500
/// deliveries. In a ring of more than 64 members only the first 64 have columns, and the deliveries
/// end before the first one to another member. If packets are left in flight, a line says after how
/// many deliveries the election was cut off. Fails only if an allocation fails. Tested: what the
/// picture says.
pub fn election(alloc: Global, charter: &Arc<Charter<Any>>) -> Result<String, AllocError> {
    let mut recorder = Recorder::begin(alloc, Arc::try_clone(charter)?)?;
    let tale = drained(alloc, &mut recorder);
    drop(recorder);
    draw_svg(alloc, &tale?)
}

// Runs the election, and returns what happened in it, with the lines that say how it was run.
fn drained(alloc: Global, recorder: &mut Recorder) -> Result<Tale, AllocError> {
    recorder.show_first(MOST_COLUMNS);
    recorder.drain(alloc, MOST_STEPS)?;
    let is_quiet = recorder.is_quiet();
    let mut tale = recorder.tale(alloc)?;
    let remarks = remarks_on(alloc, &tale, is_quiet)?;
    tale.remarks = remarks;
    Ok(tale)
}

// Returns the lines that say how the election was run.
fn remarks_on(alloc: Global, tale: &Tale, is_quiet: bool) -> Result<Vec<String>, AllocError> {
    let mut remarks = Vec::new(alloc);
    remarks.push(String::from_str(alloc, ANEW)?)?;
    if !is_quiet {
        remarks.push(cut_off(alloc, tale.steps.len())?)?;
    }
    if !tale.is_whole() {
        remarks.push(first_of(alloc, tale)?)?;
    }
    Ok(remarks)
}

// Returns the line that says after how many deliveries the election was cut off.
fn cut_off(alloc: Global, steps: usize) -> Result<String, AllocError> {
    let mut page = Page::new(alloc);
    page.add_number("Cut off after ", steps as u64);
    page.add(if steps < MOST_STEPS as usize {
        " deliveries: the next one is to a member without a column."
    } else {
        " deliveries: a picture has no more."
    });
    page.text()
}

// Returns the line that says how many members have columns.
fn first_of(alloc: Global, tale: &Tale) -> Result<String, AllocError> {
    let mut page = Page::new(alloc);
    page.add_number("The first ", tale.columns() as u64);
    page.add_number(" of ", tale.ring.len() as u64);
    page.add(" members have columns. Packets from and to others are not drawn.");
    page.text()
}
