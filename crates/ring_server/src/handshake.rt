//! The words between the thread that serves and the thread that waits for it, before clients come.

use ring_accept::ProgramFault;
use ring_service::StartFault;
use std::sync::{Condvar, Mutex, Wait};

// The state of the thread that serves.
#[derive(Clone, Copy, Debug, PartialEq, Eq)]
enum Stage {
    // It opens the service.
    Opening,
    // The service is open, and it is not decided yet whether to serve.
    Open,
    // The service cannot be opened.
    Refused(StartFault),
    // It serves clients.
    Serving,
    // It serves no clients.
    Leaving,
}

/// A message from one thread to another, and one back.
///
/// The thread that serves says that the service is open or cannot be opened. If it is open, the
/// other thread says whether to serve.
#[derive(Drop)]
pub(crate) struct Handshake {
    stage: Mutex<Stage>,
    moved: Condvar,
}

impl Handshake {
    /// Returns a handshake before the first message. Does not allocate.
    pub(crate) fn new() -> Handshake {
        Handshake {
            stage: Mutex::new(Stage::Opening),
            moved: Condvar::new(),
        }
    }

    /// Says that the service is open, and waits for the other message. Returns whether to serve.
    pub(crate) fn open<R: Wait>(&self, rt: &R) -> bool {
        self.set(rt, Stage::Open);
        self.wait_past(rt, Stage::Open) == Stage::Serving
    }

    /// Says that the service cannot be opened, unless it was said to be open.
    pub(crate) fn refuse<R: Wait>(&self, rt: &R, fault: ProgramFault) {
        let fault = match fault {
            ProgramFault::NoMemory => StartFault::NoMemory,
            _ => StartFault::Thread,
        };
        let mut stage = self.stage.lock(rt);
        if *stage == Stage::Opening {
            *stage = Stage::Refused(fault);
        }
        drop(stage);
        self.moved.notify_all();
    }

    /// Waits for the first message. Fails if the service cannot be opened.
    pub(crate) fn wait_open<R: Wait>(&self, rt: &R) -> Result<(), StartFault> {
        match self.wait_past(rt, Stage::Opening) {
            Stage::Refused(fault) => Err(fault),
            _ => Ok(()),
        }
    }

    /// Says whether to serve.
    pub(crate) fn answer<R: Wait>(&self, rt: &R, serves: bool) {
        self.set(
            rt,
            if serves {
                Stage::Serving
            } else {
                Stage::Leaving
            },
        );
    }

    // Goes on to this stage.
    fn set<R: Wait>(&self, rt: &R, next: Stage) {
        *self.stage.lock(rt) = next;
        self.moved.notify_all();
    }

    // Waits until the stage is another one, and returns it.
    fn wait_past<R: Wait>(&self, rt: &R, past: Stage) -> Stage {
        let mut stage = self.stage.lock(rt);
        for _ in rt.forever() {
            if *stage != past {
                return *stage;
            }
            stage = self.moved.wait(rt, stage);
        }
        unreachable!()
    }
}
