//! The base of a journal: the text that counts.
ghost use Rattle.std.specs.Prelude.{◌≡◌, IfOk, IfSome, string_bytes};
ghost use Rattle.ring_etcd.specs.Bases.{base_text};

use std::alloc::{AllocError, Global};

/// The text that counts, by its identity, and how many pieces it has.
#[derive(Clone, Copy, PartialEq, Eq)]
pub(crate) struct Base {
    pub(crate) text: u64,
    pub(crate) pieces: u64,
}

impl Base {
    /// Returns the value of the base.
    pub(crate) fn value(self, alloc: Global) -> Result<String, AllocError>
        ensures { IfOk result (λ value. string_bytes value ≡ base_text self.text self.pieces) }
    {
        let Base { text, pieces } = self;
        format!(in alloc; "ringd 1 {text} {pieces}")
    }

    /// Returns the base with this value, or `None` if none has it.
    pub(crate) fn of(alloc: Global, value: &[u8]) -> Result<Option<Base>, AllocError>
        ensures { IfOk result (λ found. IfSome found (λ base.
            value.now ≡ base_text base.text base.pieces)) }
    {
        let Some(base) = read(value) else {
            return Ok(None);
        };
        let spelled = base.value(alloc)?;
        if spelled.as_str().as_bytes() == value {
            return Ok(Some(base));
        }
        Ok(None)
    }
}

// The base that a value names in this or another spelling.
fn read(value: &[u8]) -> Option<Base> {
    let Ok(value) = str::from_utf8(value) else {
        return None;
    };
    let (text, pieces) = value.strip_prefix("ringd 1 ")?.split_once(' ')?;
    match (text.parse(), pieces.parse()) {
        (Ok(text), Ok(pieces)) => Some(Base { text, pieces }),
        _ => None,
    }
}
