//! Watches a group: prints a line when a term starts, and when its leader becomes known.
//!
//! The watch asks one member `who` once a second. It asks for the terms only if that reply has
//! changed, because a reply to `terms` grows with the terms.
use crate::client::Client;
use crate::fault::Fault;
use crate::reply::Reply;
use crate::told::{Term, Told, number_in, read_term};
use ring_id::NodeId;
use std::alloc::{AllocError, Global};
use std::io::{Read, Write};
use std::thread;
use std::time::{Clock, Duration};

// The number of seconds between two looks.
const PACE: u64 = 1;

/// Watches a group for `seconds` seconds, or without end if there is no number.
///
/// Prints the last existing term first. If the group has no members or no terms, the watch waits
/// for them. If the group does not exist, it fails with the refusal.
pub fn watch<R, S>(
    rt: &R,
    client: &mut Client<S>,
    group: &str,
    seconds: Option<u32>,
) -> Result<(), Fault>
where
    R: Print + Clock + AllocGlobal,
    S: Read + Write + Drop,
{
    let looks = match seconds {
        Some(seconds) => u64::from(seconds),
        None => u64::MAX,
    };
    let mut watcher = Watcher::of(rt.alloc(), group)?;
    watcher.watch(rt, client, looks)
}

// The state of a watch.
#[derive(Drop)]
struct Watcher {
    alloc: Global,
    group: String,
    // The group and the member that is asked, as a line names them; empty before one is chosen.
    member: String,
    // The number of members that were chosen so far.
    turn: usize,
    // The last reply to `who`.
    seen: String,
    told: Told,
    has_told: bool,
}

impl Watcher {
    fn of(alloc: Global, group: &str) -> Result<Watcher, Fault> {
        Ok(Watcher {
            alloc,
            group: String::from_str(alloc, group)?,
            member: String::new(alloc),
            turn: 0,
            seen: String::new(alloc),
            told: Told::nothing(),
            has_told: false,
        })
    }

    // Looks, and then `looks` times again, each time after a rest.
    fn watch<R, S>(&mut self, rt: &R, client: &mut Client<S>, looks: u64) -> Result<(), Fault>
    where
        R: Print + Clock,
        S: Read + Write + Drop,
    {
        self.look(rt, client)?;
        for _ in 0..looks {
            thread::sleep(rt, Duration::from_secs(PACE));
            self.look(rt, client)?;
        }
        Ok(())
    }

    // Asks whether something has changed, and prints it.
    fn look<R, S>(&mut self, rt: &R, client: &mut Client<S>) -> Result<(), Fault>
    where
        R: Print,
        S: Read + Write + Drop,
    {
        if self.member.is_empty() {
            self.choose(client)?;
        }
        if self.has_changed(client)? {
            self.tell(rt, client)?;
        }
        Ok(())
    }

    // Chooses the member that is asked, if the group has one: a different member each time.
    fn choose<S: Read + Write + Drop>(&mut self, client: &mut Client<S>) -> Result<(), Fault> {
        let reply = client.demand("members ", self.group.as_str())?;
        let count = count_in(reply);
        if count > 0 {
            let place = (self.turn % count).saturating_add(1);
            self.turn = self.turn.wrapping_add(1);
            if let Some(member) = reply.split(' ').nth(place) {
                self.name(number_in(member))?;
            }
        }
        Ok(())
    }

    // Keeps the group and the number of the member that is asked, as a line names them.
    fn name(&mut self, number: &str) -> Result<(), AllocError> {
        self.member.push_str(self.group.as_str())?;
        self.member.push(' ')?;
        self.member.push_str(number)
    }

    // Returns whether the member's reply differs from that of the last look.
    fn has_changed<S: Read + Write + Drop>(
        &mut self,
        client: &mut Client<S>,
    ) -> Result<bool, Fault> {
        if self.member.is_empty() {
            return Ok(false);
        }
        match client.ask("who ", self.member.as_str())? {
            Reply::Done(reply) => self.see(reply),
            Reply::Refused("no-term") => Ok(false),
            Reply::Refused("not-in-term") => {
                self.member.clear();
                Ok(false)
            }
            Reply::Refused(word) => Err(Fault::refused(self.alloc, word)),
        }
    }

    // Keeps a reply to `who`, and returns whether it differs from the last one.
    fn see(&mut self, reply: &str) -> Result<bool, Fault> {
        if reply == self.seen.as_str() {
            return Ok(false);
        }
        self.seen.clear();
        self.seen.push_str(reply)?;
        Ok(true)
    }

    // Asks for the terms, and prints their news.
    fn tell<R, S>(&mut self, rt: &R, client: &mut Client<S>) -> Result<(), Fault>
    where
        R: Print,
        S: Read + Write + Drop,
    {
        let reply = client.demand("terms ", self.group.as_str())?;
        let earlier = if self.has_told {
            0
        } else {
            count_in(reply).saturating_sub(1)
        };
        self.has_told = true;
        tell_terms(rt, &mut self.told, reply, earlier)
    }
}

// Prints the news of the terms of a reply, except of the first `earlier` terms.
fn tell_terms(rt: &impl Print, told: &mut Told, reply: &str, earlier: usize) -> Result<(), Fault> {
    let mut left = earlier;
    for word in reply.split(' ') {
        if let Some(term) = read_term(word) {
            if left == 0 {
                tell_term(rt, told, term)?;
            }
            left = left.saturating_sub(1);
        }
    }
    Ok(())
}

// Returns how many members or terms a reply lists after its first word.
fn count_in(reply: &str) -> usize {
    reply.split(' ').count().saturating_sub(1)
}

// Prints the news of a term.
fn tell_term(rt: &impl Print, told: &mut Told, term: Term) -> Result<(), Fault> {
    let number = term.number;
    let news = told.take(term);
    if news.started && println!(rt; "term {number} started").is_err() {
        return Err(Fault::Write);
    }
    match news.leader {
        Some(leader) => print_leader(rt, number, leader),
        None => Ok(()),
    }
}

// Prints the leader of a term, with its weight if that is not 0.
fn print_leader(rt: &impl Print, term: u16, leader: NodeId) -> Result<(), Fault> {
    let printed = match leader.weight() {
        0 => println!(rt; "term {term} leader {}", leader.get()),
        weight => println!(rt; "term {term} leader {}/{weight}", leader.get()),
    };
    match printed {
        Ok(()) => Ok(()),
        Err(_) => Err(Fault::Write),
    }
}
