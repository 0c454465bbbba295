//! Draws a term with characters.
use crate::label;
use crate::page::Page;
use crate::tale::{Arrow, Step, Tale, width_of};
use ring_id::NodeId;
use std::alloc::{AllocError, Global};

// The number of characters before the first column: eight for the name of a step, and two spaces.
const LEFT: usize = 10;

// The content of a gap between two columns.
#[derive(Clone, Copy)]
enum Gap<'a> {
    Empty,
    // An arrow that ends at the column it goes to.
    Taken(&'a Arrow),
    // One that is in flight at the end.
    Flying(&'a Arrow),
}

/// Returns these words, and then the picture of a term.
pub fn draw_text(alloc: Global, tale: &Tale, words: &str) -> Result<String, AllocError> {
    let mut knows = Vec::new(alloc);
    knows.resize(tale.ring.len(), false)?;
    let mut drawing = Drawing {
        page: Page::new(alloc),
        gap: tale.widest().saturating_add(6).max(8),
        last: tale.last,
        last_position: if tale.is_whole() { 0 } else { tale.last },
        knows,
    };
    drawing.page.add(words);
    drawing.all(tale);
    drawing.page.text()
}

#[derive(Drop)]
struct Drawing {
    page: Page,
    gap: usize,
    last: usize,
    // The position of the last column: the first one once more if all members have columns.
    last_position: usize,
    // Which positions know the leader by now.
    knows: Vec<bool>,
}

impl Drawing {
    // Adds the title, the outcome, the names and all steps.
    fn all(&mut self, tale: &Tale) {
        tale.add_title(&mut self.page);
        self.page.add("\n");
        tale.add_outcome(&mut self.page);
        self.page.add("\n");
        self.remarks(tale);
        self.page.add("\n");
        self.names(tale);
        self.steps(tale);
        self.flying(tale);
    }

    // Adds the lines that say more of how the term was run.
    fn remarks(&mut self, tale: &Tale) {
        for remark in &tale.remarks {
            self.page.add(remark.as_str());
            self.page.add("\n");
        }
    }

    // Adds the members above their columns, the leader in brackets.
    fn names(&mut self, tale: &Tale) {
        let leader = tale.leader();
        let mut before = LEFT;
        for column in 0..=self.last {
            if let Some(member) = tale.member(column) {
                self.page.fill(before, ' ');
                let width = self.name(member, leader == Some(member));
                before = self.gap.saturating_add(1).saturating_sub(width);
            }
        }
        self.page.add("\n");
    }

    // Adds the name of a member, and returns how many characters it has.
    fn name(&mut self, member: NodeId, leads: bool) -> usize {
        let (before, behind) = if leads { ("[", "]") } else { ("", "") };
        label::add_member(&mut self.page, before, member);
        self.page.add(behind);
        width_of(member).saturating_add(before.len() + behind.len())
    }

    // Adds a line for the start, and one for each delivery.
    fn steps(&mut self, tale: &Tale) {
        self.page.add("   start  ");
        self.columns(Gap::Empty);
        self.page.add("\n");
        let mut now = 0u64;
        for step in &tale.steps {
            now = now.saturating_add(1);
            self.step(tale, step, now);
        }
    }

    // Adds the line of a delivery.
    fn step(&mut self, tale: &Tale, step: &Step, now: u64) {
        if step.learned.is_some()
            && let Some(knows) = self.knows.get_mut(step.position)
        {
            *knows = true;
        }
        self.page.add_right(now);
        self.page.add("  ");
        self.columns(Gap::Taken(&step.arrow));
        self.note(tale, step, now);
    }

    // Adds the notes of a delivery. The first is the delivery at which its packet was sent, unless
    // that is the one before. The second is the member that knew the leader at it.
    fn note(&mut self, tale: &Tale, step: &Step, now: u64) {
        let waited = step.arrow.sent.saturating_add(1) < now;
        if waited {
            self.sent_at(step.arrow.sent);
        }
        if let (Some(member), Some(leader)) = (tale.member(step.position), step.learned) {
            let words = if waited { ", " } else { "   " };
            label::add_knows(&mut self.page, words, member, leader);
        }
        self.page.add("\n");
    }

    // Adds a line for each packet in flight at the end.
    fn flying(&mut self, tale: &Tale) {
        for arrow in &tale.flying {
            self.page.add("  flying  ");
            self.columns(Gap::Flying(arrow));
            self.sent_at(arrow.sent);
            self.page.add("\n");
        }
    }

    // Adds the delivery at which a packet was sent.
    fn sent_at(&mut self, sent: u64) {
        match sent {
            0 => self.page.add("   sent at the start"),
            sent => self.page.add_number("   sent at ", sent),
        }
    }

    // Adds the columns of a line, with the content of one gap.
    fn columns(&mut self, gap: Gap<'_>) {
        for column in 0..self.last {
            self.column(column);
            self.gap(column, gap);
        }
        self.column(self.last_position);
    }

    // Adds the sign of a column: whether its member knows the leader.
    fn column(&mut self, position: usize) {
        match self.knows.get(position) {
            Some(true) => self.page.add("#"),
            _ => self.page.add("|"),
        }
    }

    // Adds the content of the gap after a column.
    fn gap(&mut self, column: usize, gap: Gap<'_>) {
        match gap {
            Gap::Taken(arrow) if arrow.from.min(arrow.to) == column => {
                self.arrow(arrow, '-', head_of(arrow));
            }
            Gap::Flying(arrow) if arrow.from.min(arrow.to) == column => {
                self.arrow(arrow, '.', ' ');
            }
            _ => self.page.fill(self.gap, ' '),
        }
    }

    // Adds an arrow with its label, as wide as a gap.
    fn arrow(&mut self, arrow: &Arrow, shaft: char, head: char) {
        let shafts = self.gap.saturating_sub(arrow.label.len()).saturating_sub(1);
        let before = shafts / 2;
        let (first, last) = if arrow.from < arrow.to {
            (shaft, head)
        } else {
            (head, shaft)
        };
        self.page.fill(1, first);
        self.page.fill(before.saturating_sub(1), shaft);
        self.page.add(arrow.label.as_str());
        self.page.fill(shafts.saturating_sub(before), shaft);
        self.page.fill(1, last);
    }
}

// Returns the head of an arrow that was delivered.
fn head_of(arrow: &Arrow) -> char {
    if arrow.from < arrow.to { '>' } else { '<' }
}
