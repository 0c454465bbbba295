//! The program's command line.
ghost use Rattle.std.specs.Prelude.{◌≡◌, IfOk, Some, false};
ghost use Rattle.clap.specs.Words.{App, Rule, app_of, new_rule, rule_of, with_rule, with_subcommand};
ghost use Rattle.ring_words.specs.Words.{campaign_rule, config_rule, connections_rule, file_rule, http_rule, idle_rule, journal_app, kept_rule, mode_rule, places_rule, ringd_app, run_app, serve_app, sessions_rule, socket_rule};
ghost use Rattle.ring_words.specs.private.Words.{IsLocal};

use clap::{Arg, ArgAction, Command};
use std::alloc::{AllocError, Global};

// The version that `--version` prints.
const VERSION: &str = "1.0.0";

// The end of the help.
const NOTES: &str = "`ringctl` sends commands to a running service; `ringctl --help` lists them.
The manual page ringd(1) lists all lines and replies.

An example without a service:

  printf 'create a chang\\njoin a 3\\njoin a 1\\nstart a\\ndrain a 9\\nwho a 1\\n' | ringd replay";

// The end of the help for `serve` and `run`.
const CONFIG: &str = "CONFIG is a TOML file with three integers:

  workers = 2    # the number of threads that work on elections, 1 to 8
  inbox = 1024   # the number of items that the inbox of each of them holds, 1 to 65536
  port = 7400    # the port on 127.0.0.1, 1 to 65535

Without a journal, the service keeps everything in memory, and loses it when it ends.";

// The program's command line. A subcommand must be given.
pub(crate) fn command<'a>(alloc: Global) -> Result<Command<'a>, AllocError>
    ensures { IfOk result (λ c. app_of c ≡ ringd_app) }
{
    let replay = Command::new(alloc, "replay").about(
        "Read lines from standard input, and print one reply for each",
    );
    let command = Command::new(alloc, "ringd")
        .version(VERSION)
        .about("Elects a leader for each of many groups")
        .after_help(NOTES)
        .subcommand_required(true)
        .subcommand(replay);
    let command = with_subcommand(command, serve_command(alloc));
    let command = with_subcommand(command, run_command(alloc));
    with_subcommand(command, journal_command(alloc))
}

// The subcommand `serve`.
fn serve_command<'a>(alloc: Global) -> Result<Command<'a>, AllocError>
    ensures app { IfOk result (λ c. app_of c ≡ serve_app) }
    ensures local { IfOk result IsLocal }
{
    let command = Command::new(alloc, "serve")
        .after_help(CONFIG)
        .about("Serve K clients on this machine, then exit")
        .arg(config_arg(alloc));
    let command = with_arg(command, connections_arg(alloc));
    let command = with_arg(command, socket_arg(alloc));
    with_arg(command, mode_arg(alloc))
}

// The subcommand `run`.
fn run_command<'a>(alloc: Global) -> Result<Command<'a>, AllocError>
    ensures app { IfOk result (λ c. app_of c ≡ run_app) }
    ensures local { IfOk result IsLocal }
{
    let command = Command::new(alloc, "run")
        .after_help(CONFIG)
        .about(
            "Serve clients on this machine until a signal ends the process; without passwords or encryption",
        )
        .arg(config_arg(alloc));
    let command = with_arg(command, sessions_arg(alloc));
    let command = with_arg(command, idle_arg(alloc));
    let command = with_arg(command, places_arg(alloc));
    let command = with_arg(command, kept_arg(alloc));
    let command = with_arg(command, campaign_arg(alloc));
    let command = with_arg(command, http_arg(alloc));
    let command = with_arg(command, socket_arg(alloc));
    with_arg(command, mode_arg(alloc))
}

// The subcommand `journal`.
fn journal_command<'a>(alloc: Global) -> Result<Command<'a>, AllocError>
    ensures app { IfOk result (λ c. app_of c ≡ journal_app) }
    ensures local { IfOk result IsLocal }
{
    Command::new(alloc, "journal")
        .about("Print what the journal of `run` holds; changes nothing")
        .arg(file_arg(alloc))
}

// Returns the command with one more argument, or the error that it is.
fn with_arg<'a>(
    command: Result<Command<'a>, AllocError>,
    arg: Arg<'a>,
) -> Result<Command<'a>, AllocError>
    requires own { arg.global ≡ false }
    ensures app { (app : App) (rule : Rule) → IfOk command.entry (λ c. app_of c ≡ app)
        → rule_of arg.entry ≡ rule → IfOk result (λ c. app_of c ≡ with_rule app rule) }
    ensures local { IfOk command.entry IsLocal → IfOk result IsLocal }
{
    match command {
        Ok(command) => command.arg(arg),
        Err(error) => {
            drop(arg);
            Err(error)
        }
    }
}

// Returns the command with one more subcommand, or the error that one of them is.
fn with_subcommand<'a>(
    command: Result<Command<'a>, AllocError>,
    below: Result<Command<'a>, AllocError>,
) -> Result<Command<'a>, AllocError>
    ensures { (app sub : App) → IfOk command.entry (λ c. app_of c ≡ app) → IfOk below.entry IsLocal
        → IfOk below.entry (λ c. app_of c ≡ sub)
        → IfOk result (λ c. app_of c ≡ with_subcommand app sub.top) }
{
    match command {
        Ok(command) => match below {
            Ok(below) => command.subcommand(below),
            Err(error) => {
                drop(command);
                Err(error)
            }
        },
        Err(error) => {
            drop(below);
            Err(error)
        }
    }
}

// The argument of `serve` and `run`: the file of the configuration.
fn config_arg<'a>(alloc: Global) -> Arg<'a>
    ensures rule { rule_of result ≡ config_rule }
    ensures own { result.global ≡ false }
{
    Arg::new(alloc, "config")
        .value_name("CONFIG")
        .required(true)
        .help("The configuration: a TOML file, as below")
}

// An option with a value.
fn option_arg<'a>(alloc: Global, name: &'a str, value: &'a str) -> Arg<'a>
    ensures rule { rule_of result
        ≡ record (new_rule name.now) { long = Some name.now; value_names = 1 } }
    ensures own { result.global ≡ false }
{
    Arg::new(alloc, name).long(name).value_name(value)
}

// The option of `serve`: how many clients it accepts.
fn connections_arg<'a>(alloc: Global) -> Arg<'a>
    ensures rule { rule_of result ≡ connections_rule }
    ensures own { result.global ≡ false }
{
    option_arg(alloc, "connections", "K")
        .required(true)
        .value_parser(clap::value_parser!(u32).range(1..=64))
        .help("Serve K clients, 1 to 64")
}

// An option of `run`: how many clients it serves at a time.
fn sessions_arg<'a>(alloc: Global) -> Arg<'a>
    ensures rule { rule_of result ≡ sessions_rule }
    ensures own { result.global ≡ false }
{
    option_arg(alloc, "sessions", "N")
        .value_parser(clap::value_parser!(u32).range(1..=128))
        .help("Serve N clients at a time, 1 to 128, and let others wait [default: 16]")
}

// An option of `run`: after how many seconds without a byte it ends a session.
fn idle_arg<'a>(alloc: Global) -> Arg<'a>
    ensures rule { rule_of result ≡ idle_rule }
    ensures own { result.global ≡ false }
{
    option_arg(alloc, "idle", "SECONDS")
        .value_parser(clap::value_parser!(u32).range(0..=86400))
        .help(
            "End a session if its client sends nothing, or takes no reply, for SECONDS seconds, 0 to 86400; 0 is never [default: 0]",
        )
}

// An option of `run`: whether it writes the place of each reply.
fn places_arg<'a>(alloc: Global) -> Arg<'a>
    ensures rule { rule_of result ≡ places_rule }
    ensures own { result.global ≡ false }
{
    Arg::new(alloc, "places")
        .long("places")
        .action(ArgAction::SetTrue)
        .help(
            "Begin each reply with its place in the history of all commands, or with - if it has none",
        )
}

// An option of `run`: the file that keeps the groups, or their place in etcd.
fn kept_arg<'a>(alloc: Global) -> Arg<'a>
    ensures rule { rule_of result ≡ kept_rule }
    ensures own { result.global ≡ false }
{
    option_arg(alloc, "journal", "FILE").help(
        "Keep the groups and terms in FILE, and take them up again at the next start; etcd://HOST:PORT,HOST:PORT/NAME keeps them in etcd",
    )
}

// An option of `run`: the place for campaigns.
fn campaign_arg<'a>(alloc: Global) -> Arg<'a>
    ensures rule { rule_of result ≡ campaign_rule }
    ensures own { result.global ≡ false }
{
    option_arg(alloc, "campaign", "PLACE").help(
        "Serve campaigns at PLACE, where a client is a member for as long as it is connected: a port of 127.0.0.1, 1 to 65535, or the path of a socket, with a /",
    )
}

// An option of `run`: the place for HTTP.
fn http_arg<'a>(alloc: Global) -> Arg<'a>
    ensures rule { rule_of result ≡ http_rule }
    ensures own { result.global ≡ false }
{
    option_arg(alloc, "http", "PLACE").help(
        "Answer HTTP at PLACE, which is given as for --campaign: health, metrics, groups as JSON, and a page",
    )
}

// An option of `serve` and `run`: the path of a socket.
fn socket_arg<'a>(alloc: Global) -> Arg<'a>
    ensures rule { rule_of result ≡ socket_rule }
    ensures own { result.global ≡ false }
{
    option_arg(alloc, "socket", "PATH").help(
        "Listen on a Unix socket at PATH in place of the port; PATH has at most 100 bytes",
    )
}

// An option of `serve` and `run`: the mode of each socket.
fn mode_arg<'a>(alloc: Global) -> Arg<'a>
    ensures rule { rule_of result ≡ mode_rule }
    ensures own { result.global ≡ false }
{
    option_arg(alloc, "socket-mode", "MODE").help(
        "Give each socket this mode, in octal, 0 to 777 [default: 600]",
    )
}

// The argument of `journal`: its file, or its place in etcd.
fn file_arg<'a>(alloc: Global) -> Arg<'a>
    ensures rule { rule_of result ≡ file_rule }
    ensures own { result.global ≡ false }
{
    Arg::new(alloc, "file")
        .value_name("FILE")
        .required(true)
        .help(
            "The journal: a file that `run --journal` has written, or etcd://HOST:PORT,HOST:PORT/NAME",
        )
}
