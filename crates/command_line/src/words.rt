//! The words of a command line.
use clap::error::ErrorKind;
use std::alloc::{AllocError, Global};
use std::io;
use std::rt::Env;
use thiserror::Error;

/// Why words give no order.
#[derive(Debug, Drop, Error)]
pub enum WordsFault {
    /// The command line was refused, or asks for help or for the version. The text is clap's.
    #[error(transparent)]
    Usage(clap::Error),
    /// An allocation failed.
    #[error("no memory")]
    NoMemory,
}

impl From<clap::Error> for WordsFault {
    ghost use Rattle.command_line.specs.Words.{IsFaultOf};

    ghost from_gives = { IsFaultOf };

    fn from(error: clap::Error) -> WordsFault {
        if error.kind() == ErrorKind::OutOfMemory {
            WordsFault::NoMemory
        } else {
            WordsFault::Usage(error)
        }
    }
}

impl From<AllocError> for WordsFault {
    ghost use Rattle.std.specs.Prelude.{◌≡◌};
    ghost use Rattle.command_line.specs.declared.words.WordsFault.TheVariants.{NoMemory};

    ghost from_gives = { λ _ fault. fault ≡ NoMemory };

    fn from(_error: AllocError) -> WordsFault {
        WordsFault::NoMemory
    }
}

/// Returns the words of the command line. The first one is the program's name.
///
/// If a word is not UTF-8, the fault is the refusal that `not_text` returns.
pub fn given_words<F>(rt: &(impl Env + AllocGlobal), not_text: F) -> Result<Vec<String>, WordsFault>
where
    F: FnOnce(Global) -> Result<clap::Error, AllocError> + Drop,
    requires { F.IsAlwaysCallable not_text }
{
    match std::env::args(rt) {
        Ok(words) => Ok(words.collect(rt.alloc())?),
        Err(error) if error.kind() == io::ErrorKind::OutOfMemory => Err(WordsFault::NoMemory),
        Err(_) => Err(WordsFault::Usage(not_text(rt.alloc())?)),
    }
}
