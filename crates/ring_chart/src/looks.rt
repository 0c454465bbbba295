//! The looks of the parts of an SVG picture: a class that names the part, and its attributes.
//!
//! They are attributes and no styles. A service whose pages allow no inline styles shows the
//! pictures too, and a browser ignores styles there.
use crate::tale::{Arrow, Kind};

/// The look of the title.
pub const TITLE: &str = "class=\"title\" font-size=\"17\" font-weight=\"bold\"";

/// The look of a name of a member.
pub const NAME: &str =
    "class=\"name\" font-size=\"13\" font-weight=\"bold\" text-anchor=\"middle\"";

/// The look of the number of a delivery.
pub const TICK: &str = "class=\"tick\" font-size=\"11\" fill=\"#888\" text-anchor=\"end\"";

/// The look of a note: a member knows the leader.
pub const NOTE: &str = "class=\"note\" fill=\"#1c6b34\"";

/// The look of small words.
pub const SMALL: &str = "class=\"small\" font-size=\"11\" fill=\"#555\"";

/// The look of a label that ends at its position.
pub const EAST: &str = "class=\"label east\" text-anchor=\"end\"";

/// The look of a label that begins at its position.
pub const WEST: &str = "class=\"label west\" text-anchor=\"start\"";

/// The look of the line of a member.
pub const COLUMN: &str = "class=\"column\" stroke=\"#aaa\" stroke-width=\"1.5\"";

/// The look of the second line of the first member.
pub const AGAIN: &str =
    "class=\"column again\" stroke=\"#aaa\" stroke-width=\"1.5\" stroke-dasharray=\"2 4\"";

/// The look of the line of a member that knows the leader.
pub const KNOWS: &str = "class=\"knows\" stroke=\"#2e8b4a\" stroke-width=\"4\"";

/// The look of the line above the packets in flight at the end.
pub const END: &str = "class=\"end\" stroke=\"#888\" stroke-dasharray=\"1 3\"";

/// The looks that all words have.
pub const WORDS: &str =
    "<g font-family=\"'DejaVu Sans', Verdana, sans-serif\" font-size=\"12\" fill=\"#222\">\n";

/// The looks that all arrows have.
pub const ARROWS: &str = "<g fill=\"none\" stroke-width=\"1.6\">\n";

/// The looks that all labels have: a white edge, so that a line behind one does not run into it.
pub const LABELS: &str =
    "<g paint-order=\"stroke\" stroke=\"white\" stroke-width=\"5\" stroke-linejoin=\"round\">\n";

/// The end of a group.
pub const END_OF_GROUP: &str = "</g>\n";

/// The head of an arrow.
pub const HEAD: &str =
    "<defs><marker id=\"head\" viewBox=\"0 0 10 10\" refX=\"10\" refY=\"5\" markerWidth=\"7\" \
markerHeight=\"7\" orient=\"auto\"><path d=\"M0 1 L10 5 L0 9 z\" fill=\"#444\"/></marker></defs>
";

/// Returns the class and the colour of an arrow.
pub fn look_of(arrow: &Arrow) -> (&'static str, &'static str) {
    match arrow.kind {
        Kind::Announcement => ("told", "#2e8b4a"),
        Kind::Message if arrow.from < arrow.to => ("right", "#1f5fa8"),
        Kind::Message => ("left", "#a0449c"),
    }
}
