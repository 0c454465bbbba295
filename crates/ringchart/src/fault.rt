//! Why the program ends before its work is done.
use ring_id::NoMemory;
use std::alloc::{AllocError, AllocFailed};
use std::io;
use thiserror::Error;

/// A fault that ends the program with status 1. Its text is the line on standard error.
#[derive(Debug, Drop, Error)]
pub enum Fault {
    /// The schedule could not be read, or is not UTF-8.
    #[error("ringchart: cannot read the schedule")]
    Unreadable,
    /// A line is not a line of a schedule.
    #[error("ringchart: line {0} is not a valid line")]
    BadLine(u64),
    /// A line got this reply, and asks for another one.
    #[error("ringchart: line {0} got another reply: {1}")]
    Otherwise(u64, String),
    /// There is no term to draw.
    #[error("ringchart: the schedule starts no term")]
    NoTerm,
    /// The deliveries that would be drawn are not those that were made.
    #[error("ringchart: cannot draw what line {0} did; this is a mistake in ringchart")]
    Lost(u64),
    /// A picture could not be written.
    #[error("ringchart: cannot write the picture")]
    Write,
    /// An allocation failed.
    #[error("ringchart: no memory")]
    NoMemory,
}

impl From<AllocError> for Fault {
    fn from(_error: AllocError) -> Fault {
        Fault::NoMemory
    }
}

impl<T: Drop> From<AllocFailed<T>> for Fault {
    fn from(_error: AllocFailed<T>) -> Fault {
        Fault::NoMemory
    }
}

impl From<NoMemory> for Fault {
    fn from(_error: NoMemory) -> Fault {
        Fault::NoMemory
    }
}

/// Returns the fault of a write that failed.
pub fn written(done: io::Result<()>) -> Result<(), Fault> {
    match done {
        Ok(()) => Ok(()),
        Err(error) if error.kind() == io::ErrorKind::OutOfMemory => Err(Fault::NoMemory),
        Err(_) => Err(Fault::Write),
    }
}
