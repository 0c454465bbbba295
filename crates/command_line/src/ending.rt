//! The exit status of a program.
ghost use Rattle.std.specs.Fn.{FnOnceReturnsAt};
ghost use Rattle.std.specs.Prelude.{◌≡◌, MatchResult};
ghost use Rattle.std.specs.Process.{exit_status};

use std::fmt::Display;
use std::process::ExitCode;

/// Returns status 0, or prints the fault on standard error and returns status 1.
pub fn ended<F: Display + Drop>(rt: &impl Eprint, done: Result<(), F>) -> ExitCode
    ensures { MatchResult done (λ _. exit_status result ≡ 0) (λ _. exit_status result ≡ 1) }
{
    ended_with(rt, done, |_| 1)
}

/// Returns status 0, or prints the fault on standard error and returns its status.
pub fn ended_with<F, S>(rt: &impl Eprint, done: Result<(), F>, status: S) -> ExitCode
where
    F: Display + Drop,
    S: FnOnce(&F) -> u8 + Drop,
    requires { S.IsAlwaysCallable status }
    ensures { MatchResult done
        (λ _. exit_status result ≡ 0)
        (λ fault. FnOnceReturnsAt S.FnOnce status fault (exit_status result)) }
{
    match done {
        Ok(()) => ExitCode::SUCCESS,
        Err(fault) => {
            let _ = eprintln!(rt; "{fault}");
            ExitCode::from(status(&fault))
        }
    }
}

/// Prints on standard error why a command line was refused, and returns status 2.
pub fn refused(rt: &impl Eprint, error: &clap::Error) -> ExitCode
    ensures { exit_status result ≡ 2 }
{
    let _ = eprint!(rt; "{error}");
    ExitCode::from(2)
}
