//! Short texts by value, so that no test has to drop them.

use std::cell::Cell;

/// The most bytes of a text.
const ROOM: usize = 256;

/// A text of at most 256 bytes. It leaves out all that is put behind these.
#[derive(Clone, Copy)]
pub struct Text {
    bytes: [u8; ROOM],
    len: usize,
}

/// What happened so far in a test, in order.
pub type Log = Cell<Text>;

impl Text {
    /// A text that begins with these bytes.
    pub fn of(bytes: &[u8]) -> Text {
        let mut text = Text {
            bytes: [0; ROOM],
            len: 0,
        };
        text.put(bytes);
        text
    }

    /// The bytes of the text.
    pub fn bytes(&self) -> &[u8] {
        self.bytes.get(..self.len).unwrap_or(&self.bytes)
    }

    // Puts bytes at the end.
    fn put(&mut self, bytes: &[u8]) {
        for byte in bytes {
            if let Some(place) = self.bytes.get_mut(self.len) {
                *place = *byte;
                self.len = self.len.saturating_add(1);
            }
        }
    }
}

/// Notes bytes at the end of a log.
pub fn note(log: &Log, bytes: &[u8]) {
    let mut text = log.get();
    text.put(bytes);
    log.set(text);
}
