//! Runs a schedule.
//!
//! A mux answers the lines. Each term also has a world of its own, in which each delivery is made
//! by itself, since a picture shows each. The same proved code runs both. After each line, the
//! numbers of packets in flight in both are compared.
use crate::fault::Fault;
use crate::lines::Line;
use ring_any::Any;
use ring_chart::{Recorder, Tale};
use ring_grammar::print_reply;
use ring_id::{GroupName, Refusal};
use ring_mux::{Command, Event, Mux, Reply};
use std::alloc::{AllocError, Global};
use std::str;

/// Runs a schedule, and returns what happened in each term, in the order in which the terms
/// started.
pub fn play(alloc: Global, schedule: &str) -> Result<Vec<Tale>, Fault> {
    let mut stage = Stage {
        alloc,
        mux: Mux::new(alloc)?,
        terms: Vec::new(alloc),
        place: 0,
    };
    let tales = stage.tales(schedule);
    drop(stage);
    tales
}

// The mux, a recorder for each term, and the number of the line that is run.
#[derive(Drop)]
struct Stage {
    alloc: Global,
    mux: Mux<Any>,
    terms: Vec<Recorder>,
    place: u64,
}

impl Stage {
    // Runs all lines of a schedule, and returns what happened in each term.
    fn tales(&mut self, schedule: &str) -> Result<Vec<Tale>, Fault> {
        self.run(schedule)?;
        if self.terms.is_empty() {
            return Err(Fault::NoTerm);
        }
        Ok(tales_of(self.alloc, &mut self.terms)?)
    }

    // Runs all lines of a schedule.
    fn run(&mut self, schedule: &str) -> Result<(), Fault> {
        for text in schedule.lines() {
            self.place = self.place.saturating_add(1);
            if let Some(line) = Line::read(self.place, text) {
                self.take(&line)?;
            }
        }
        Ok(())
    }

    // Runs a line, and compares its reply with the one that it must get.
    fn take(&mut self, line: &Line<'_>) -> Result<(), Fault> {
        let Some(event) = line.event()? else {
            return Ok(());
        };
        let reply = self.mux.step(self.alloc, event);
        let done = self.check(line, &event, &reply);
        drop(reply);
        done
    }

    // Compares the reply to a line with the one that it must get, and repeats the event in the
    // worlds.
    fn check(&mut self, line: &Line<'_>, event: &Event<Any>, reply: &Reply) -> Result<(), Fault> {
        if let Some(wanted) = line.reply {
            compare(self.alloc, line.place, reply, wanted)?;
        }
        self.follow(event, reply)
    }

    // Repeats an event in the worlds.
    fn follow(&mut self, event: &Event<Any>, reply: &Reply) -> Result<(), Fault> {
        if was_starved(reply) {
            return Err(Fault::NoMemory);
        }
        match event {
            Event::Client(command) => self.obey(command, reply),
            Event::Deliver { group, .. } | Event::Drain { group, .. } | Event::Cut { group, .. } =>
                {
                    match reply {
                        Reply::Moved | Reply::Drained { .. } | Reply::Done => {
                            self.repeat(*group, event, reply)
                        }
                        _ => Ok(()),
                    }
                }
            Event::Pending { .. } => Ok(()),
        }
    }

    // Begins a recorder if the command has started a term.
    fn obey(&mut self, command: &Command<Any>, reply: &Reply) -> Result<(), Fault> {
        match command {
            Command::Start(group) => match reply {
                Reply::Term(_) => self.begin(*group),
                _ => Ok(()),
            },
            _ => Ok(()),
        }
    }

    // Repeats an event in the world of a group's last term. Afterwards the same number of packets
    // must be in flight or stuck as in the mux.
    fn repeat(&mut self, group: GroupName, event: &Event<Any>, reply: &Reply) -> Result<(), Fault> {
        let Some(recorder) = running(&mut self.terms, group) else {
            return Err(Fault::Lost(self.place));
        };
        repeat_in(self.alloc, recorder, event, reply)?;
        if agrees(&self.mux, group, recorder) {
            Ok(())
        } else {
            Err(Fault::Lost(self.place))
        }
    }

    // Begins a recorder for the term that has just started.
    fn begin(&mut self, group: GroupName) -> Result<(), Fault> {
        let Ok(charter) = self.mux.book().running(group) else {
            return Err(Fault::Lost(self.place));
        };
        let recorder = Recorder::begin(self.alloc, charter.clone()?)?;
        let agrees = agrees(&self.mux, group, &recorder);
        self.terms.push(recorder)?;
        if agrees {
            Ok(())
        } else {
            Err(Fault::Lost(self.place))
        }
    }
}

// Repeats the deliveries or the cut that an event made in a world, according to its reply.
fn repeat_in(
    alloc: Global,
    recorder: &mut Recorder,
    event: &Event<Any>,
    reply: &Reply,
) -> Result<(), AllocError> {
    match event {
        Event::Deliver { node, side, .. } => recorder.deliver_to(alloc, *node, *side),
        Event::Drain { .. } => match reply {
            Reply::Drained { done, .. } => recorder.drain(alloc, *done),
            _ => Ok(()),
        },
        Event::Cut { node, side, .. } => {
            recorder.cut(*node, *side);
            Ok(())
        }
        Event::Client(_) | Event::Pending { .. } => Ok(()),
    }
}

// Returns whether the same number of packets is in flight or stuck here as in the mux.
fn agrees(mux: &Mux<Any>, group: GroupName, recorder: &Recorder) -> bool {
    match mux.pending(group) {
        Ok(pending) => pending == recorder.pending(),
        Err(_) => false,
    }
}

// Returns what happened in each of these terms.
fn tales_of(alloc: Global, terms: &mut [Recorder]) -> Result<Vec<Tale>, AllocError> {
    let mut tales = Vec::new(alloc);
    for recorder in terms.iter_mut() {
        tales.push(recorder.tale(alloc)?)?;
    }
    Ok(tales)
}

// Returns the recorder of a group's last term.
fn running(terms: &mut [Recorder], group: GroupName) -> Option<&mut Recorder> {
    terms
        .iter_mut()
        .rev()
        .find(|recorder| recorder.group() == group)
}

// Returns whether an allocation failed in the mux.
fn was_starved(reply: &Reply) -> bool {
    match reply {
        Reply::Refused(refusal) => *refusal == Refusal::NoMemory,
        Reply::Drained { starved, .. } => *starved,
        _ => false,
    }
}

// Fails if a reply is another than the wanted one.
fn compare(alloc: Global, place: u64, reply: &Reply, wanted: &str) -> Result<(), Fault> {
    let mut bytes = Vec::new(alloc);
    if print_reply(reply, &mut bytes).is_err() {
        return Err(Fault::NoMemory);
    }
    let text = str::from_utf8(&bytes).unwrap_or("").trim_end();
    if text != wanted {
        return Err(Fault::Otherwise(place, String::from_str(alloc, text)?));
    }
    Ok(())
}
