//! Pictures of elections: each delivery of a term, as an SVG or with characters.
//!
//! A `Recorder` runs the world of a charter, one delivery after another, and records what each did.
//! A `Tale` is what it recorded, and is drawn. `election` does both for the term of a charter: it
//! begins the term anew and delivers in the order of a drain.
//!
//! Nothing here reads or writes. Every call fails only if an allocation fails. The drawing is
//! tested. `tests/check-charts` compares pictures of characters with ones that were made by hand. Of
//! an SVG it compares the size and the ends.
#![tactic(auto)]

mod anew;
mod drawing;
mod frame;
mod label;
mod looks;
mod page;
mod recorder;
mod svg;
mod tale;
mod text;
mod view;

pub use anew::election;
pub use page::Page;
pub use recorder::Recorder;
pub use svg::{draw_all, draw_svg};
pub use tale::{Arrow, Kind, Step, Tale};
pub use text::draw_text;
