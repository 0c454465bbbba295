//! The program `ringctl`: sends commands to a running `ringd`.
//!
//! `ringctl COMMAND WORD..` sends one line and prints its reply. `ringctl` alone sends each line of
//! standard input, with a prompt at a terminal. `ringctl watch G` prints a line when a term of the
//! group starts, and when its leader becomes known. `ringctl campaign G N` keeps a member in its
//! group for as long as it runs, and prints what the member knows.
//!
//! Its exit status is 0 if all was done. It is 1 if the command was refused, and standard error has
//! the word of the refusal. It is also 1 if its own input, output or memory failed. It is 2 if the
//! command line is refused or asks for help, with clap's text on standard error. It is 3 if no
//! service answers.
#![tactic(auto)]

ghost use Rattle.std.specs.Prelude.{◌≡◌, MatchResult};
ghost use Rattle.std.specs.Process.{exit_status};
ghost use Rattle.ringctl.specs.Faults.{status_of};

mod addresses;
mod campaign;
mod client;
mod fault;
mod reply;
mod session;
mod told;
mod watch;
mod words;

use addresses::addresses_of;
use client::Client;
use command_line::{WordsFault, ended_with, given_words, refused};
use fault::Fault;
use std::io::IsTerminal;
use std::net::{Net, TcpStream};
use std::process::ExitCode;
use std::time::Clock;
use words::{Asked, Order, not_text, read_words};

// Carries out the order. At a terminal a session has a prompt.
fn obey<R>(rt: &R, asked: &Asked, at_terminal: bool) -> Result<(), Fault>
where
    R: Input + Print + Clock + AllocGlobal + Net<Stream = TcpStream>,
{
    let addresses = addresses_of(rt.alloc(), asked.addresses.as_str())?;
    let mut client = Client::reach(rt, addresses.as_slice())?;
    let done = match &asked.order {
        Order::Session => session::hold(rt, &mut client, at_terminal),
        Order::Ask(line) => session::ask_once(rt, &mut client, line.as_str()),
        Order::Campaign(line) => campaign::run(rt, &mut client, line.as_str()),
        Order::Watch { group, seconds } => watch::watch(rt, &mut client, group.as_str(), *seconds),
    };
    drop(client);
    done
}

// Returns status 0, or prints the fault and returns its status.
fn ended(rt: &impl Eprint, done: Result<(), Fault>) -> ExitCode
    ensures { MatchResult done
        (λ _. exit_status result ≡ 0)
        (λ fault. exit_status result ≡ status_of fault) }
{
    ended_with(
        rt,
        done,
        |fault: &Fault| -> u8
            ensures { result ≡ status_of fault.now }
        { fault.status() },
    )
}

fn main(rt: HostRuntime) -> ExitCode {
    let asked = given_words(&rt, not_text).and_then(|words| read_words(rt.alloc(), &words));
    let done = match asked {
        Ok(asked) => obey(&rt, &asked, rt.stdin().is_terminal()),
        Err(WordsFault::NoMemory) => Err(Fault::NoMemory),
        Err(WordsFault::Usage(error)) => return refused(&rt, &error),
    };
    ended(&rt, done)
}
