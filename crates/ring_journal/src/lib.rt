//! A journal of lines on a medium that grows, until another text takes its place.
//!
//! A crash may come at any moment of any call. A restart then finds the first of the lines, and at
//! least as many as were settled before that call. It finds them by `read_lines`, which refuses no
//! file that a crash leaves. While another text takes the place of the lines, a restart finds these
//! or all lines of the other text.
//!
//! The definition `MayFind` says which files a crash may leave. Each byte is the one that was
//! written there or a zero, and the synced bytes are as they were written. Nothing is claimed of a
//! medium that leaves other files.
#![tactic(auto)]

mod batch;
mod journal;
mod medium;
mod memory;
mod reading;

pub use batch::Batch;
pub use journal::{Journal, RoomFault};
pub use medium::{Fault, LONGEST_BATCH, Medium};
pub use memory::MemoryMedium;
pub use reading::{BadByte, Lines, is_line, read_lines, whole_len};
