ghost use Rattle.std.specs.Prelude.{◌≡◌};
ghost use Rattle.ring_recovery.specs.declared.fault.RecoverFault.TheVariants as fault;

use ring_journal::BadByte;

/// Why a table cannot be recovered from a file.
#[derive(Clone, Copy, Debug, PartialEq, Eq)]
pub enum RecoverFault {
    /// The file is damaged. `at` is the place of a byte, counted from 0.
    Bad { at: usize },
    /// The file is no journal of this version.
    Version,
    /// The journal has had its last life.
    Lives,
    /// An allocation failed.
    NoMemory,
}

impl From<BadByte> for RecoverFault {
    ghost from_gives = { λ byte made. made ≡ fault.Bad byte.at };

    fn from(byte: BadByte) -> RecoverFault {
        RecoverFault::Bad { at: byte.at }
    }
}
