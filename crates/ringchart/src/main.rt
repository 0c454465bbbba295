//! The program `ringchart`: reads a schedule, and draws a picture of each of its terms.
//!
//! It runs the schedule as `ringd replay` does, and draws what each delivery did. A picture has a
//! line for each member in ring order, and an arrow for each delivery. It shows when each member
//! knew the leader, and the packets that were in flight at the end.
//!
//! Its exit status is 0 if all was drawn. It is 1, with one line on standard error, if a line is
//! not valid or gets another reply than it asks for. It is also 1 if the schedule starts no term,
//! or if reading, writing or an allocation failed. It is 2 if the command line is refused or asks
//! for help, with clap's text on standard error.
#![tactic(auto)]

mod fault;
mod lines;
mod pictures;
mod stage;
mod words;

use command_line::{WordsFault, ended, given_words, refused};
use fault::Fault;
use ring_chart::Tale;
use std::process::ExitCode;
use std::rt::Files;
use words::{Order, not_text, read_words};

// Runs the schedule, and draws its terms.
fn obey(rt: &(impl Input + Files + Print + AllocGlobal), order: &Order) -> Result<(), Fault> {
    let schedule = lines::read_schedule(rt, order.path.as_ref().map(|path| path.as_str()))?;
    let tales = stage::play(rt.alloc(), schedule.as_str())?;
    draw(rt, order, &tales)
}

// Draws the terms in the way and to the place that the order names.
fn draw(
    rt: &(impl Files + Print + AllocGlobal),
    order: &Order,
    tales: &[Tale],
) -> Result<(), Fault> {
    match &order.folder {
        _ if order.text => pictures::print_texts(rt, tales),
        Some(folder) => pictures::write_files(rt, folder.as_str(), tales),
        None => pictures::print_svg(rt, tales),
    }
}

fn main(rt: HostRuntime) -> ExitCode {
    let order = given_words(&rt, not_text).and_then(|words| read_words(rt.alloc(), &words));
    let done = match order {
        Ok(order) => obey(&rt, &order),
        Err(WordsFault::NoMemory) => Err(Fault::NoMemory),
        Err(WordsFault::Usage(error)) => return refused(&rt, &error),
    };
    ended(&rt, done)
}
