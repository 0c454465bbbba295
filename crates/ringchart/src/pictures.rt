//! Prints pictures, or writes them to files.
use crate::fault::{Fault, written};
use ring_chart::{Page, Tale, draw_all, draw_svg, draw_text};
use std::alloc::{AllocError, Global};
use std::fs;
use std::rt::Files;

/// Prints the pictures of all terms, drawn with characters, with an empty line between two of them.
pub fn print_texts(rt: &(impl Print + AllocGlobal), tales: &[Tale]) -> Result<(), Fault> {
    let mut between = "";
    for tale in tales {
        let picture = draw_text(rt.alloc(), tale, between)?;
        written(rt.print(picture))?;
        between = "\n";
    }
    Ok(())
}

/// Prints one SVG with the pictures of all terms, one below the other.
pub fn print_svg(rt: &(impl Print + AllocGlobal), tales: &[Tale]) -> Result<(), Fault> {
    let picture = draw_all(rt.alloc(), tales)?;
    written(rt.print(picture))
}

/// Writes the picture of each term to a file in a folder, and prints the names of the files.
pub fn write_files(
    rt: &(impl Files + Print + AllocGlobal),
    folder: &str,
    tales: &[Tale],
) -> Result<(), Fault> {
    for tale in tales {
        write_file(rt, folder, tale)?;
    }
    Ok(())
}

// Writes the picture of a term, and prints the name of the file.
fn write_file(
    rt: &(impl Files + Print + AllocGlobal),
    folder: &str,
    tale: &Tale,
) -> Result<(), Fault> {
    let name = file_name(rt.alloc(), folder, tale)?;
    let picture = draw_svg(rt.alloc(), tale)?;
    written(fs::write(rt, name.as_str(), picture.as_str()))?;
    written(rt.println(name))
}

// Returns the name of the file for the picture of a term.
fn file_name(alloc: Global, folder: &str, tale: &Tale) -> Result<String, AllocError> {
    let mut page = Page::new(alloc);
    page.add(folder);
    page.add("/");
    page.add(tale.group_text());
    page.add_number("-", tale.term as u64);
    page.add(".svg");
    page.text()
}
