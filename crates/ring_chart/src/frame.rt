//! The positions in a picture, in pixels.
ghost use Rattle.std.specs.Prelude.{◌≡◌, ◌+◌, ◌*◌, ◌^◌, ◌<◌, ◌≤◌};

use crate::tale::{Arrow, Tale};

/// The least distance between two columns.
const NARROW: u64 = 84;

/// The distance between two rows.
const ROW: u64 = 26;

/// The position of the first column, and of the members' names.
const LEFT: u64 = 92;

/// The position of the members' names in a picture without remarks.
const HEAD: u64 = 108;

/// The distance between two remarks.
pub const REMARK: u64 = 16;

/// The least width of the notes, to the right of the last column.
const MARGIN: u64 = 190;

/// The positions in the picture of a term.
#[derive(Clone, Copy)]
pub struct Frame {
    gap: u64,
    margin: u64,
    head: u64,
    last: u64,
    steps: u64,
    flying: u64,
    title: u64,
}

impl Frame {
    /// Returns the positions in the picture of a term, which has a title of `title` characters.
    pub fn of(tale: &Tale, title: usize) -> Frame {
        let label = (tale.widest() as u64).saturating_mul(7).saturating_add(44);
        // "M knows N": two names, and seven characters between them
        let note = (tale.widest_name() as u64)
            .saturating_mul(14)
            .saturating_add(50);
        Frame {
            gap: label.max(NARROW),
            margin: note.max(MARGIN),
            head: REMARK
                .saturating_mul(tale.remarks.len() as u64)
                .saturating_add(HEAD),
            last: tale.last as u64,
            steps: tale.steps.len() as u64,
            flying: tale.flying.len() as u64,
            title: title as u64,
        }
    }

    /// Returns the position of a column.
    pub fn x(self, column: usize) -> u64
        ensures { LEFT + self.gap * column < 2 ^ 64 → result ≡ LEFT + self.gap * column }
    {
        LEFT.saturating_add(self.gap.saturating_mul(column as u64))
    }

    /// Returns the end of an arrow in flight: near the column that it goes to.
    pub fn x_flying(self, arrow: &Arrow) -> u64 {
        let part = self.gap / 5;
        if arrow.from < arrow.to {
            self.x(arrow.to).saturating_sub(part)
        } else {
            self.x(arrow.to).saturating_add(part)
        }
    }

    /// Returns the position of a delivery; number 0 is the start.
    pub fn y(self, step: u64) -> u64
        ensures { self.head + ROW + ROW * step < 2 ^ 64
            → result ≡ self.head + ROW + ROW * step }
    {
        self.head
            .saturating_add(ROW)
            .saturating_add(ROW.saturating_mul(step))
    }

    /// Returns the position of the members' names.
    pub fn y_names(self) -> u64
        ensures { result ≡ self.head }
    {
        self.head
    }

    /// Returns the position of the line above the packets in flight at the end.
    pub fn y_end(self) -> u64 {
        self.y(self.steps).saturating_add(ROW / 2)
    }

    /// Returns the position of packet number `nth` in flight at the end, counted from 0.
    pub fn y_flying(self, nth: u64) -> u64 {
        self.y(self.steps.saturating_add(nth).saturating_add(1))
    }

    /// Returns the end of the columns.
    pub fn y_bottom(self) -> u64 {
        let rows = self.steps.saturating_add(self.flying);
        self.y(rows).saturating_add(ROW / 2)
    }

    /// Returns the beginning of the notes, to the right of the last column.
    pub fn x_margin(self) -> u64 {
        let last = LEFT.saturating_add(self.gap.saturating_mul(self.last));
        last.saturating_add(36)
    }

    /// Returns the width of the picture: at least 620, which the legend has.
    pub fn width(self) -> u64
        ensures { 620 ≤ result }
    {
        let columns = self.x_margin().saturating_add(self.margin);
        let title = self.title.saturating_mul(10).saturating_add(60);
        columns.max(title).max(620)
    }

    /// Returns the height of the picture.
    pub fn height(self) -> u64 {
        self.y_bottom().saturating_add(86)
    }
}
