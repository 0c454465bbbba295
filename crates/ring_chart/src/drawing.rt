//! The drawing of a term as an SVG picture.
use crate::frame::{Frame, REMARK};
use crate::label;
use crate::looks::{
    AGAIN, ARROWS, COLUMN, EAST, END, END_OF_GROUP, HEAD, KNOWS, LABELS, NAME, NOTE, SMALL, TICK,
    TITLE, WEST, WORDS, look_of,
};
use crate::page::Page;
use crate::tale::{Arrow, Step, Tale, width_of};
use ring_id::NodeId;
use std::alloc::{AllocError, Global};

// The first line of the legend, if all members have columns and if not.
const WHOLE: &str =
    "Time runs down, one row for each delivery. The last line is the first member again.";

const PART: &str = "Time runs down, one row for each delivery.";

// The other lines of the legend.
const LEGEND: [&str; 2] = [
    "Blue goes to the right, purple to the left; green is the announcement of the leader,",
    "and the line of a member from when it knows the leader. Dashed: in flight at the end.",
];

/// A picture, and its size.
#[derive(Drop)]
pub struct Picture {
    pub svg: String,
    pub width: u64,
    pub height: u64,
}

// A drawing while it is made.
#[derive(Drop)]
struct Drawing {
    page: Page,
    frame: Frame,
}

/// Returns the picture of a term, to be put `top` pixels below the top of a larger one.
pub fn draw(alloc: Global, tale: &Tale, top: u64) -> Result<Picture, AllocError> {
    let title = tale.title(alloc)?;
    let frame = Frame::of(tale, title.len());
    let mut drawing = Drawing {
        page: Page::new(alloc),
        frame,
    };
    drawing.ground(top);
    drawing.head(tale, title.as_str());
    drawing.lines(tale);
    drawing.captions(tale);
    Ok(Picture {
        svg: drawing.page.text()?,
        width: frame.width(),
        height: frame.height(),
    })
}

/// Adds the size of a picture, and the end of its opening tag.
pub fn add_size(page: &mut Page, width: u64, height: u64) {
    page.add_number(" width=\"", width);
    page.add_number("\" height=\"", height);
    page.add_number("\" viewBox=\"0 0 ", width);
    page.add_number(" ", height);
    page.add("\">\n");
}

impl Drawing {
    // Adds the opening tag, a white background, and the beginning of the group of all parts.
    fn ground(&mut self, top: u64) {
        let (width, height) = (self.frame.width(), self.frame.height());
        self.page
            .add_number("<svg xmlns=\"http://www.w3.org/2000/svg\" y=\"", top);
        self.page.add("\"");
        add_size(&mut self.page, width, height);
        self.page.add(HEAD);
        self.page.add_number("<rect width=\"", width);
        self.page.add_number("\" height=\"", height);
        self.page.add("\" fill=\"white\"/>\n");
        self.page.add(WORDS);
    }

    // Adds the title, the outcome of the term, and the remarks.
    fn head(&mut self, tale: &Tale, title: &str) {
        self.words(24, 34, TITLE, title);
        let mut y = 58u64;
        self.begin_words(24, y, SMALL);
        tale.add_outcome(&mut self.page);
        self.end_words();
        for remark in &tale.remarks {
            y = y.saturating_add(REMARK);
            self.words(24, y, SMALL, remark.as_str());
        }
    }

    // Adds all lines and arrows.
    fn lines(&mut self, tale: &Tale) {
        self.columns(tale);
        self.knowing(tale);
        self.page.add(ARROWS);
        self.delivered(tale);
        self.flying(tale);
        self.page.add(END_OF_GROUP);
    }

    // Adds their labels and notes, and the end of the picture.
    fn captions(&mut self, tale: &Tale) {
        self.page.add(LABELS);
        self.delivered_labels(tale);
        self.flying_labels(tale);
        self.page.add(END_OF_GROUP);
        self.notes(tale);
        self.legend(tale);
        self.page.add(END_OF_GROUP);
        self.page.add("</svg>\n");
    }

    // Adds words at a position, with their look.
    fn words(&mut self, x: u64, y: u64, look: &str, words: &str) {
        self.begin_words(x, y, look);
        self.page.add(words);
        self.end_words();
    }

    fn begin_words(&mut self, x: u64, y: u64, look: &str) {
        self.page.add("<text ");
        self.page.add(look);
        self.page.add_number(" x=\"", x);
        self.page.add_number("\" y=\"", y);
        self.page.add("\">");
    }

    fn end_words(&mut self) {
        self.page.add("</text>\n");
    }

    // Adds a line with a look.
    fn line(&mut self, look: &str, from: (u64, u64), to: (u64, u64)) {
        self.page.add("<line ");
        self.page.add(look);
        self.page.add_number(" x1=\"", from.0);
        self.page.add_number("\" y1=\"", from.1);
        self.page.add_number("\" x2=\"", to.0);
        self.page.add_number("\" y2=\"", to.1);
        self.page.add("\"/>\n");
    }

    // Adds the members' lines and names. The leader's name is marked.
    fn columns(&mut self, tale: &Tale) {
        let leader = tale.leader();
        for column in 0..=tale.last {
            let (x, again) = (self.frame.x(column), column == tale.ring.len());
            self.column(x, again);
            if let Some(member) = tale.member(column) {
                self.name(x, member, leader == Some(member), again);
            }
        }
    }

    // Adds the line of a member, dashed if the member is drawn once more.
    fn column(&mut self, x: u64, again: bool) {
        let look = if again { AGAIN } else { COLUMN };
        let (top, bottom) = (self.frame.y_names(), self.frame.y_bottom());
        self.line(look, (x, top), (x, bottom));
    }

    // Adds the name of a member in a box, with `leader` above it, unless it is drawn once more.
    fn name(&mut self, x: u64, member: NodeId, leads: bool, again: bool) {
        let y = self.frame.y_names();
        self.name_box(x, member, leads, again);
        self.begin_words(x, y.saturating_sub(7), NAME);
        label::add_member(&mut self.page, "", member);
        self.end_words();
        if leads && !again {
            self.words(x.saturating_sub(19), y.saturating_sub(30), SMALL, "leader");
        }
    }

    // Adds the box of a name: coloured for the leader, dashed if the member is drawn once more.
    fn name_box(&mut self, x: u64, member: NodeId, leads: bool, again: bool) {
        let width = (width_of(member) as u64)
            .saturating_mul(9)
            .saturating_add(18);
        self.page
            .add_number("<rect x=\"", x.saturating_sub(width / 2));
        self.page
            .add_number("\" y=\"", self.frame.y_names().saturating_sub(24));
        self.page.add_number("\" width=\"", width);
        self.page.add("\" height=\"24\" rx=\"6\" fill=\"");
        self.page.add(if leads { "#ffd75e" } else { "white" });
        self.page.add("\" stroke=\"#666\"");
        self.page.add(if again {
            " stroke-dasharray=\"2 3\"/>\n"
        } else {
            "/>\n"
        });
    }

    // Adds the lines of the members from the deliveries on at which they know the leader.
    fn knowing(&mut self, tale: &Tale) {
        let mut now = 0u64;
        for step in &tale.steps {
            now = now.saturating_add(1);
            if step.learned.is_some() {
                self.learned(tale, step.position, now);
            }
        }
    }

    // Adds the line of a position from a delivery on, and the second line of the first position.
    fn learned(&mut self, tale: &Tale, position: usize, now: u64) {
        let y = self.frame.y(now);
        self.knows(self.frame.x(position), y);
        if position == 0 && tale.is_whole() {
            self.knows(self.frame.x(tale.last), y);
        }
    }

    // Adds the line of a member from a delivery on.
    fn knows(&mut self, x: u64, y: u64) {
        self.line(KNOWS, (x, y), (x, self.frame.y_bottom()));
        self.page.add_number("<circle cx=\"", x);
        self.page.add_number("\" cy=\"", y);
        self.page.add("\" r=\"5\" fill=\"#2e8b4a\"/>\n");
    }

    // Adds the arrows of deliveries.
    fn delivered(&mut self, tale: &Tale) {
        let mut now = 0u64;
        for step in &tale.steps {
            now = now.saturating_add(1);
            if tale.shows(&step.arrow) {
                let (x, y) = (self.frame.x(step.arrow.to), self.frame.y(now));
                self.arrow(&step.arrow, false, x, y);
            }
        }
    }

    // Adds the arrows of packets in flight at the end.
    fn flying(&mut self, tale: &Tale) {
        let mut nth = 0u64;
        for arrow in &tale.flying {
            let (x, y) = (self.frame.x_flying(arrow), self.frame.y_flying(nth));
            self.arrow(arrow, true, x, y);
            nth = nth.saturating_add(1);
        }
    }

    // Adds an arrow that ends at this position, dashed if its packet is in flight.
    fn arrow(&mut self, arrow: &Arrow, flies: bool, x: u64, y: u64) {
        let (class, colour) = look_of(arrow);
        self.page.add("<path class=\"arrow ");
        self.page.add(class);
        self.page.add(if flies { " flying" } else { "" });
        self.page.add_number("\" d=\"M", self.frame.x(arrow.from));
        self.page.add_number(" ", self.frame.y(arrow.sent));
        self.page.add_number(" L", x);
        self.page.add_number(" ", y);
        self.page.add("\" stroke=\"");
        self.page.add(colour);
        self.page.add(if flies {
            "\" stroke-dasharray=\"5 4"
        } else {
            ""
        });
        self.page.add("\" marker-end=\"url(#head)\"/>\n");
    }

    // Adds the labels of deliveries. Labels come after all lines, so no line runs over a label.
    fn delivered_labels(&mut self, tale: &Tale) {
        let mut now = 0u64;
        for step in &tale.steps {
            now = now.saturating_add(1);
            if tale.shows(&step.arrow) {
                let (x, y) = (self.frame.x(step.arrow.to), self.frame.y(now));
                self.label(&step.arrow, x, y);
            }
        }
    }

    // Adds the labels of packets in flight at the end.
    fn flying_labels(&mut self, tale: &Tale) {
        let mut nth = 0u64;
        for arrow in &tale.flying {
            let (x, y) = (self.frame.x_flying(arrow), self.frame.y_flying(nth));
            self.label(arrow, x, y);
            nth = nth.saturating_add(1);
        }
    }

    // Adds the label of an arrow that ends at this position, on the side from which it comes.
    fn label(&mut self, arrow: &Arrow, x: u64, y: u64) {
        let (x, look) = if arrow.from < arrow.to {
            (x.saturating_sub(14), EAST)
        } else {
            (x.saturating_add(14), WEST)
        };
        self.words(x, y.saturating_add(4), look, arrow.label.as_str());
    }

    // Adds the numbers of the deliveries, and the members that knew the leader at them.
    fn notes(&mut self, tale: &Tale) {
        let y = self.frame.y(0).saturating_add(4);
        self.words(58, y, TICK, "start");
        let mut now = 0u64;
        for step in &tale.steps {
            now = now.saturating_add(1);
            self.note(tale, step, now);
        }
        self.end(tale);
    }

    // Adds the number of a delivery, and the member that knew the leader at it.
    fn note(&mut self, tale: &Tale, step: &Step, now: u64) {
        let y = self.frame.y(now).saturating_add(4);
        self.begin_words(58, y, TICK);
        self.page.add_number("", now);
        self.end_words();
        if let (Some(member), Some(leader)) = (tale.member(step.position), step.learned) {
            self.begin_words(self.frame.x_margin(), y, NOTE);
            label::add_knows(&mut self.page, "", member, leader);
            self.end_words();
        }
    }

    // Adds the line above the packets in flight at the end.
    fn end(&mut self, tale: &Tale) {
        if !tale.flying.is_empty() {
            let frame = self.frame;
            let y = frame.y_end();
            self.line(END, (24, y), (frame.x_margin(), y));
            self.words(58, frame.y_flying(0).saturating_add(4), TICK, "in flight");
        }
    }

    // Adds the legend below the picture.
    fn legend(&mut self, tale: &Tale) {
        let mut y = self.frame.y_bottom().saturating_add(32);
        self.words(24, y, SMALL, if tale.is_whole() { WHOLE } else { PART });
        for words in LEGEND {
            y = y.saturating_add(16);
            self.words(24, y, SMALL, words);
        }
    }
}
