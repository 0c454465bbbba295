//! The labels of arrows, the names of members, and the names of algorithms.
use crate::page::Page;
use ring_any::{Any, AnyMsg};
use ring_id::NodeId;
use ring_node::Packet;
use std::alloc::{AllocError, Global};

/// Returns the label of a packet.
pub fn of_packet(alloc: Global, packet: Packet<AnyMsg>) -> Result<String, AllocError> {
    let mut page = Page::new(alloc);
    match packet {
        Packet::Leader(leader) => add_member(&mut page, "leader ", leader),
        Packet::Algo(message) => add_message(&mut page, message),
    }
    page.text()
}

// Adds the label of a message.
fn add_message(page: &mut Page, message: AnyMsg) {
    match message {
        AnyMsg::LeLann(id) | AnyMsg::Chang(id) | AnyMsg::Peterson(id) => add_member(page, "", id),
        AnyMsg::Out { id, hops } => {
            add_member(page, "", id);
            page.add_number(" out ", hops as u64);
        }
        AnyMsg::Back { id } => {
            add_member(page, "", id);
            page.add(" back");
        }
    }
}

/// Adds these words, and that a member knows the leader.
pub fn add_knows(page: &mut Page, words: &str, member: NodeId, leader: NodeId) {
    add_member(page, words, member);
    add_member(page, " knows ", leader);
}

/// Adds these words, and a member as a line spells it: its number, and its weight if that is not 0.
pub fn add_member(page: &mut Page, words: &str, member: NodeId) {
    page.add_number(words, member.get() as u64);
    if member.weight() > 0 {
        page.add_number("/", member.weight() as u64);
    }
}

/// Returns the name of an algorithm.
pub fn of_algorithm(algorithm: Any) -> &'static str {
    match algorithm {
        Any::LeLann => "LeLann",
        Any::Chang => "Chang-Roberts",
        Any::Hirschberg => "Hirschberg-Sinclair",
        Any::Peterson => "Peterson",
    }
}
