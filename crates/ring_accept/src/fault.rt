//! Why the program ends before its work is done.
use ring_config::ConfigFault;
use ring_lines::LineFault;
use std::alloc::AllocError;
use thiserror::Error;

/// A fault that ends the program with status 1. Its text is the one line on standard error.
#[derive(Clone, Copy, Debug, PartialEq, Eq, Error)]
pub enum ProgramFault {
    /// Standard input could not be read.
    #[error("ringd: read failed")]
    Read,
    /// Standard input had not ended when all read calls were made.
    #[error("ringd: endless input")]
    Endless,
    /// Standard output could not be written, or took no byte.
    #[error("ringd: write failed")]
    Write,
    /// An allocation failed.
    #[error("ringd: no memory")]
    NoMemory,
    /// The configuration's file could not be read, or is too long.
    #[error("ringd: config unreadable")]
    Unreadable,
    /// The text of the configuration is not valid.
    #[error("ringd: config bad")]
    Bad,
    /// A port, or the path of a socket, could not be listened on.
    #[error("ringd: listen failed")]
    Listen,
    /// A connection could not be accepted.
    #[error("ringd: accept failed")]
    Accept,
    /// A thread could not be started.
    #[error("ringd: thread failed")]
    Thread,
    /// The journal cannot be used.
    #[error(transparent)]
    Journal(JournalFault),
    /// The path of a socket is taken.
    #[error(transparent)]
    Socket(SocketFault),
}

/// Why the path of a socket is taken.
#[derive(Clone, Copy, Debug, PartialEq, Eq, Error)]
pub enum SocketFault {
    /// A process listens on it, or is about to.
    #[error("ringd: in use")]
    InUse,
    /// It is the name of a file, a folder, a link, a pipe or a device.
    #[error("ringd: not a socket")]
    NotASocket,
}

/// Why a journal cannot be used.
#[derive(Clone, Copy, Debug, PartialEq, Eq, Error)]
pub enum JournalFault {
    /// Another process has it.
    #[error("ringd: journal in use")]
    InUse,
    /// Its file could not be read, or its lock file could not be opened.
    #[error("ringd: journal unreadable")]
    Unreadable,
    /// Its name is the name of a folder, a link, a pipe or a device.
    #[error("ringd: journal not a file")]
    NotAFile,
    /// Its file is damaged. `at` is the place of a byte, counted from 0.
    #[error("ringd: journal bad at byte {at}")]
    Bad { at: usize },
    /// Its file does not begin with the heading of this version.
    #[error("ringd: journal of another version")]
    Version,
    /// A write, a sync or a rename failed.
    #[error("ringd: journal failed")]
    Failed,
    /// It has no life left: it was begun anew as often as it can be.
    #[error("ringd: journal has no life left")]
    Lives,
    /// Another process has taken it over.
    #[error("ringd: journal taken over")]
    TakenOver,
    /// No member of etcd answers.
    #[error("ringd: journal unanswered")]
    NoAnswer,
}

impl From<JournalFault> for ProgramFault {
    ghost use Rattle.std.specs.Prelude.{◌≡◌};
    ghost use Rattle.ring_accept.specs.declared.fault.ProgramFault.TheVariants.{Journal};

    ghost from_gives = { λ fault told. told ≡ Journal fault };

    fn from(fault: JournalFault) -> ProgramFault {
        ProgramFault::Journal(fault)
    }
}

impl From<LineFault> for ProgramFault {
    ghost use Rattle.std.specs.Prelude.{◌≡◌};
    ghost use Rattle.ring_accept.specs.Faults.{told_as};

    ghost from_gives = { λ fault told. told ≡ told_as fault };

    fn from(fault: LineFault) -> ProgramFault {
        match fault {
            LineFault::Read => ProgramFault::Read,
            LineFault::Endless => ProgramFault::Endless,
            LineFault::Write => ProgramFault::Write,
            LineFault::NoMemory => ProgramFault::NoMemory,
        }
    }
}

impl From<ConfigFault> for ProgramFault {
    ghost use Rattle.std.specs.Prelude.{◌≡◌};
    ghost use Rattle.ring_accept.specs.Faults.{config_told_as};

    ghost from_gives = { λ fault told. told ≡ config_told_as fault };

    fn from(fault: ConfigFault) -> ProgramFault {
        match fault {
            ConfigFault::Bad => ProgramFault::Bad,
            ConfigFault::NoMemory => ProgramFault::NoMemory,
        }
    }
}

impl From<AllocError> for ProgramFault {
    ghost use Rattle.std.specs.Prelude.{◌≡◌};
    ghost use Rattle.ring_accept.specs.declared.fault.ProgramFault.TheVariants.{NoMemory};

    ghost from_gives = { λ _ told. told ≡ NoMemory };

    fn from(_error: AllocError) -> ProgramFault {
        ProgramFault::NoMemory
    }
}
