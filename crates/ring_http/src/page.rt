//! The files of the page, as texts.

mod document;
mod others;
mod ring;
mod run;
mod service;
mod style;
mod views;
mod words;

use crate::route::Resource;
use crate::text::put;
use http_server::Rope;
use std::alloc::AllocError;

/// Appends the page, its script or its style; nothing for the other resources. The script is one
/// text of several files. Fails only if an allocation fails.
pub(crate) fn put_page(resource: &Resource, out: &mut Rope) -> Result<(), AllocError> {
    match resource {
        Resource::Page => put_each(&[document::TEXT], out),
        Resource::Script => put_each(
            &[
                service::TEXT,
                words::TEXT,
                ring::TEXT,
                others::TEXT,
                views::TEXT,
                run::TEXT,
            ],
            out,
        ),
        Resource::Style => put_each(&[style::TEXT], out),
        _ => Ok(()),
    }
}

// Appends texts, one after another.
fn put_each(texts: &[&str], out: &mut Rope) -> Result<(), AllocError> {
    for text in texts {
        put(text.as_bytes(), out)?;
    }
    Ok(())
}
