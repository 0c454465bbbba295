use std::sync::{Condvar, Mutex, Wait};

/// Why a service ends.
#[derive(Clone, Copy, Debug, PartialEq, Eq)]
pub enum Ending {
    /// The journal failed. Changes since it was last settled may be lost.
    Failed,
    /// The server stopped.
    Stopped,
}

/// An alarm that is rung once, and that a thread waits for.
#[derive(Drop)]
pub struct Alarm {
    rung: Mutex<Option<Ending>>,
    bell: Condvar,
}

impl Alarm {
    /// Returns an alarm that was not rung. Does not allocate.
    pub fn new() -> Alarm {
        Alarm {
            rung: Mutex::new(None),
            bell: Condvar::new(),
        }
    }

    /// Rings the alarm, and wakes the threads that wait for it. Only the first ring counts.
    pub fn ring<R: Wait>(&self, rt: &R, ending: Ending) {
        let mut rung = self.rung.lock(rt);
        if rung.is_none() {
            *rung = Some(ending);
        }
        drop(rung);
        self.bell.notify_all();
    }

    /// Waits until the alarm was rung. Returns the ending of the first ring.
    pub fn wait<R: Wait>(&self, rt: &R) -> Ending {
        let mut rung = self.rung.lock(rt);
        for _ in rt.forever() {
            if let Some(ending) = *rung {
                return ending;
            }
            rung = self.bell.wait(rt, rung);
        }
        unreachable!()
    }

    // Waits for a ring of the alarm, or not as long.
    pub(crate) fn doze<R: Wait>(&self, rt: &R) {
        let rung = self.rung.lock(rt);
        drop(self.bell.wait(rt, rung));
    }
}
