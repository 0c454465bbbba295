//! A journal that has grown long gets another text, which leads to the same groups.
ghost use Rattle.std.specs.Prelude.{◌≡◌, ◌≤◌};
ghost use Rattle.ring_recovery.specs.Written.{LeavesEither};
ghost use Rattle.ring_recovery.specs.private.Shortening.{IsReplacedBy, IsStandIn};

use crate::alarm::{Alarm, Ending};
use crate::short::Short;
use crate::written::Written;
use ring_journal::{Fault, Medium};
use ring_table::Recorder;
use std::sync::Wait;

/// The least number of bytes of a journal that is rewritten.
const LEAST: usize = 1 << 18;

// Rings the alarm, and waits forever.
fn fail<R: Wait>(rt: &R, alarm: &Alarm)
    ensures { ⊥ }
{
    alarm.ring(rt, Ending::Failed);
    for _ in rt.forever() {
        alarm.doze(rt);
    }
    unreachable!()
}

impl<D: Medium + Drop> Written<D> {
    /// Returns whether the journal has grown enough to be rewritten. No clause says when: a journal
    /// may be rewritten at any time.
    pub(crate) fn is_long(&self) -> bool {
        self.size >= LEAST && self.size / 2 >= self.mark
    }

    /// Puts a text in the place of the journal's. If the journal fails, it rings the alarm and does
    /// not return.
    pub(crate) fn rewrite<R: Wait>(&mut self, rt: &R, short: Short)
        requires { IsStandIn self.old.life self.old.items short.check short.text.bytes }
        ensures items { self.new.items ≡ self.old.items }
        ensures sure { self.old.sure ≤ self.new.sure }
        ensures life { self.new.life ≡ self.old.life }
        ensures lines { IsReplacedBy short.text.bytes self.old self.new }
        ensures any_moment { LeavesEither self.old self.new }
    {
        // `journal` for its law on crashes, before and after
        let _before = self.journal();
        match self.journal.replace(&short.text) {
            Ok(()) => {}
            Err(Fault::NoMemory) => {
                drop(short);
                let _same = self.journal();
                return;
            }
            Err(Fault::Failed) => {
                fail(rt, &self.alarm);
                unreachable!()
            }
        }
        self.check = short.check;
        self.sure = self.entries.count();
        self.size = short.text.len();
        self.mark = short.text.len();
        drop(short);
        let _after = self.journal();
    }
}
