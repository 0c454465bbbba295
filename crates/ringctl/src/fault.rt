//! Why the program ends before its work is done.
ghost use Rattle.std.specs.Prelude.{◌≡◌};
ghost use Rattle.ringctl.specs.Faults.{status_of};

use std::alloc::{AllocError, Global};
use thiserror::Error;

/// A fault that ends the program. Its text is the line that the program prints on standard error.
#[derive(Debug, Drop, Error)]
pub enum Fault {
    /// The service refused the command with this word.
    #[error("{0}")]
    Refused(String),
    /// No service answers at the address, or another kind of service does, or it stopped answering.
    #[error("ringctl: no service answers")]
    NoService,
    /// Standard input could not be read.
    #[error("ringctl: cannot read standard input")]
    Read,
    /// Standard output could not be written.
    #[error("ringctl: cannot write standard output")]
    Write,
    /// An allocation failed.
    #[error("ringctl: no memory")]
    NoMemory,
}

impl Fault {
    /// Returns the fault of a refusal with this word, or `NoMemory` if an allocation fails.
    pub fn refused(alloc: Global, word: &str) -> Fault {
        match String::from_str(alloc, word) {
            Ok(word) => Fault::Refused(word),
            Err(_) => Fault::NoMemory,
        }
    }

    /// Returns the exit status of the program: 3 if no service answers, else 1.
    pub fn status(&self) -> u8
        ensures { result ≡ status_of self.now }
    {
        match self {
            Fault::NoService => 3,
            Fault::Refused(_) | Fault::Read | Fault::Write | Fault::NoMemory => 1,
        }
    }
}

impl From<AllocError> for Fault {
    ghost use Rattle.ringctl.specs.declared.fault.Fault.TheVariants.{NoMemory};

    ghost from_gives = { λ _ fault. fault ≡ NoMemory };

    fn from(_error: AllocError) -> Fault {
        Fault::NoMemory
    }
}
