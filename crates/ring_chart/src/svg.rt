//! Terms as SVG documents.
use crate::drawing::{Picture, add_size, draw};
use crate::page::Page;
use crate::tale::Tale;
use std::alloc::{AllocError, Global};

/// Returns the picture of a term as one SVG document. Fails only if an allocation fails.
pub fn draw_svg(alloc: Global, tale: &Tale) -> Result<String, AllocError> {
    let Picture { svg, .. } = draw(alloc, tale, 0)?;
    Ok(svg)
}

/// Returns one SVG document with the pictures of all terms, one below the other. Fails only if an
/// allocation fails.
pub fn draw_all(alloc: Global, tales: &[Tale]) -> Result<String, AllocError> {
    let Picture { svg, width, height } = below_one_another(alloc, tales)?;
    let mut page = Page::new(alloc);
    page.add("<svg xmlns=\"http://www.w3.org/2000/svg\"");
    add_size(&mut page, width, height);
    page.add(svg.as_str());
    page.add("</svg>\n");
    page.text()
}

// Returns the pictures of all terms, one below the other, with their size.
fn below_one_another(alloc: Global, tales: &[Tale]) -> Result<Picture, AllocError> {
    let mut all = Picture {
        svg: String::new(alloc),
        width: 0,
        height: 0,
    };
    for tale in tales {
        let picture = draw(alloc, tale, all.height)?;
        all.svg.push_str(picture.svg.as_str())?;
        all.width = all.width.max(picture.width);
        all.height = all.height.saturating_add(picture.height);
    }
    Ok(all)
}
