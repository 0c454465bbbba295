//! The program `ringd_replay`: `ringd replay` by itself, which `./ringd replay` proves and runs.
//!
//! It answers each line of standard input by one line on standard output, to the end of the input.
//! It takes no arguments, starts no thread and opens no socket. So it uses fewer crates than
//! `ringd`, and is proved sooner.
//!
//! Its exit status is 0 if all was done. It is 1 after a fault, with the same line on standard
//! error as `ringd`.
#![tactic(auto)]

ghost use Rattle.std.specs.Prelude.{◌≡◌, MatchResult};
ghost use Rattle.std.specs.Process.{exit_status};

use ring_lines::{FromRead, LineFault, ToWrite};
use ring_schedule::replay;
use std::process::ExitCode;

// the most read calls before the input counts as endless
const READS: u32 = 1_000_000_000;

// Returns status 0, or prints the fault and returns status 1.
fn ended(rt: &impl Eprint, done: Result<u64, LineFault>) -> ExitCode
    ensures { MatchResult done (λ _. exit_status result ≡ 0) (λ _. exit_status result ≡ 1) }
{
    match done {
        Ok(_) => ExitCode::SUCCESS,
        Err(fault) => {
            let _ = eprintln!(rt; "ringd: {fault}");
            ExitCode::FAILURE
        }
    }
}

fn main(rt: HostRuntime) -> ExitCode {
    let mut reader = FromRead(rt.reader());
    let mut writer = ToWrite(std::io::writer(&rt));
    let done = replay(rt.alloc(), &mut reader, &mut writer, READS);
    ended(&rt, done)
}
