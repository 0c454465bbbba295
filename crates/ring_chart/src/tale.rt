//! The deliveries of one term, as a picture shows them.
ghost use Rattle.std.specs.Prelude.{◌≡◌, ◌+◌, ◌<◌, ◌≤◌, ◌↔◌, IsTrue, vec_len};

use crate::label;
use crate::page::Page;
use ring_any::Any;
use ring_id::{GroupName, NodeId};
use std::alloc::{AllocError, Global};
use std::str;

/// The kind of packet that an arrow shows.
#[derive(Clone, Copy)]
pub enum Kind {
    /// A message of the algorithm.
    Message,
    /// The announcement of the leader.
    Announcement,
}

/// A packet between two columns. Columns are the positions of the ring from 0 on, and then the
/// first member once more. So each packet goes to a neighbouring column.
#[derive(Drop)]
pub struct Arrow {
    pub from: usize,
    pub to: usize,
    pub label: String,
    pub kind: Kind,
    /// The delivery at which it was sent; 0 is the start.
    pub sent: u64,
}

/// A delivery: its arrow, the position of its receiver, and the leader if the receiver learned it.
#[derive(Drop)]
pub struct Step {
    pub arrow: Arrow,
    pub position: usize,
    pub learned: Option<NodeId>,
}

/// A term with all its deliveries.
#[derive(Drop)]
pub struct Tale {
    pub group: GroupName,
    pub term: u16,
    pub algorithm: Any,
    pub ring: Vec<NodeId>,
    /// The last column. It is the length of the ring if all members have columns, and less if only
    /// the members up to it have.
    pub last: usize,
    /// The deliveries, in order.
    pub steps: Vec<Step>,
    /// How many packets were in flight or stuck at the end.
    pub pending: u64,
    /// Those of them that go from a column to a column.
    pub flying: Vec<Arrow>,
    /// The lines below the outcome, which say more of how the term was run.
    pub remarks: Vec<String>,
}

impl Tale {
    /// Returns the member of a column. After the last member comes the first one once more.
    pub fn member(&self, column: usize) -> Option<NodeId> {
        let position = if column == self.ring.len() { 0 } else { column };
        self.ring.get(position).copied()
    }

    /// Returns whether all members have columns.
    pub fn is_whole(&self) -> bool
        ensures { IsTrue result ↔ (vec_len self.now.ring ≤ self.now.last) }
    {
        self.last >= self.ring.len()
    }

    /// Returns how many members have columns.
    pub fn columns(&self) -> usize
        ensures whole { vec_len self.now.ring ≤ self.now.last → result ≡ vec_len self.now.ring }
        ensures part { self.now.last < vec_len self.now.ring → result ≡ self.now.last + 1 }
    {
        self.last.saturating_add(1).min(self.ring.len())
    }

    /// Returns whether an arrow goes from a column to a column.
    pub fn shows(&self, arrow: &Arrow) -> bool
        ensures { IsTrue result
            ↔ (arrow.now.from ≤ self.now.last) × (arrow.now.to ≤ self.now.last) }
    {
        arrow.from <= self.last && arrow.to <= self.last
    }

    /// Returns the leader, if a member knew it.
    pub fn leader(&self) -> Option<NodeId> {
        let mut leader = None;
        for step in &self.steps {
            leader = leader.or(step.learned);
        }
        leader
    }

    /// Returns how many members knew the leader.
    pub fn informed(&self) -> u64 {
        let mut informed = 0u64;
        for step in &self.steps {
            if step.learned.is_some() {
                informed = informed.saturating_add(1);
            }
        }
        informed
    }

    /// Returns the name of the group.
    pub fn group_text(&self) -> &str {
        str::from_utf8(self.group.bytes()).unwrap_or("")
    }

    /// Returns the title of a picture.
    pub fn title(&self, alloc: Global) -> Result<String, AllocError> {
        let mut page = Page::new(alloc);
        self.add_title(&mut page);
        page.text()
    }

    /// Adds the title of a picture.
    pub fn add_title(&self, page: &mut Page) {
        page.add(label::of_algorithm(self.algorithm));
        self.add_ring(page);
        page.add_number(", term ", self.term as u64);
        page.add(" of group ");
        page.add(self.group_text());
    }

    // Adds the members of the ring, or how many they are if only some have columns.
    fn add_ring(&self, page: &mut Page) {
        if self.is_whole() {
            page.add(", ring");
            for member in &self.ring {
                label::add_member(page, " ", *member);
            }
        } else {
            page.add_number(", ring of ", self.ring.len() as u64);
            page.add(" members");
        }
    }

    /// Adds the outcome of the term, which is the line below the title.
    pub fn add_outcome(&self, page: &mut Page) {
        self.add_known(page);
        page.add_number(" after ", self.steps.len() as u64);
        match self.pending {
            0 => page.add(" deliveries; nothing in flight"),
            pending => {
                page.add_number(" deliveries; ", pending);
                page.add(" in flight at the end");
            }
        }
    }

    // Adds the leader, and how many members knew it.
    fn add_known(&self, page: &mut Page) {
        match self.leader() {
            Some(leader) => {
                label::add_member(page, "leader ", leader);
                page.add_number(", known to ", self.informed());
                page.add_number(" of ", self.ring.len() as u64);
            }
            None => page.add("undecided"),
        }
    }

    /// Returns how many characters the longest name of a member has.
    pub fn widest_name(&self) -> usize {
        let mut widest = 0;
        for member in &self.ring {
            widest = width_of(*member).max(widest);
        }
        widest
    }

    /// Returns how many characters the longest label or name of a member has.
    pub fn widest(&self) -> usize {
        let mut widest = self.widest_flying().max(self.widest_name());
        for step in &self.steps {
            widest = step.arrow.label.len().max(widest);
        }
        widest
    }

    // Returns how many characters the longest label of a packet in flight at the end has.
    fn widest_flying(&self) -> usize {
        let mut widest = 0;
        for arrow in &self.flying {
            widest = arrow.label.len().max(widest);
        }
        widest
    }
}

/// Returns how many characters the name of a member has.
pub fn width_of(member: NodeId) -> usize {
    match member.weight() {
        0 => digits(member.get()),
        weight => digits(member.get())
            .saturating_add(digits(u32::from(weight)))
            .saturating_add(1),
    }
}

// Returns how many digits a number has.
fn digits(number: u32) -> usize {
    match number.checked_ilog10() {
        Some(log) => log as usize + 1,
        None => 1,
    }
}
