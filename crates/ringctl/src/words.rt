//! The words of the command line, and the orders that they give.
ghost use Rattle.std.specs.Prelude.{◌≡◌, IfNone, IfSome, string_bytes};
ghost use Rattle.ringctl.specs.private.Words.{IsAsk, IsCampaign, SpellsNoCommand, SpellsNoJoin, joins};

use crate::addresses::names_addresses;
use clap::error::ErrorKind;
use clap::{Arg, ArgMatches, Command};
use command_line::WordsFault;
use ring_any::Any;
use ring_events::Command as Asking;
use ring_grammar::{one_spelling, parse_command};
use ring_id::GroupName;
use std::alloc::{AllocError, Global};

// The address of the service without `--address`: of its sessions, and of its campaigns.
const SESSIONS: &str = "127.0.0.1:7400";

const CAMPAIGNS: &str = "127.0.0.1:7401";

// Why the addresses are refused.
const NO_ADDRESS: &str =
    "the address must be HOST:PORT, with a port of 1 to 65535, or unix:PATH; commas separate several";

// The end of the help.
const COMMANDS: &str = "Commands, for a group G and a member N:
  create G KIND   create G, electing by KIND: lelann, chang, hirschberg or peterson
  join G N        add a member with the number N, 1 to 4294967295, as the last
  join G N/V      add a member with the weight V, 1 to 65535; without V the weight is 0
  leave G N       remove the member
  start G         start a term, in which the present members elect a leader
  who G N         print what N knows: 'leader TERM MEMBER' or 'undecided TERM'
  members G       print the members, in the order in which they joined
  terms G         print each term with its leader, or with - if no leader is known
  groups          print the groups, in the order in which they were created
  watch G         print a line when a term starts, and when its leader becomes known
  campaign G N    join as 'join G N' or 'join G N/V' does, and print what N knows of the
                  leader, each time that it changes; the end of ringctl removes the member

The greatest member leads: the one with the greatest weight, and of these the greatest
number. Under peterson another may lead.

Without a command, ringctl sends each line of standard input and prints its reply.

'ringd run --places' writes a place before each reply, and ringctl leaves it out.

Of several addresses, ringctl asks the first that accepts a connection. If a part of the list
is no address, the whole is one address, so the path of a socket may have commas.

A watch asks a member once a second what it knows. When the answer has changed, it asks for
the terms. 'ringd run' keeps nothing of these questions; 'ringd serve' keeps each until it ends.

A campaign needs the place of 'ringd run --campaign PLACE'. It sends a sign of life twice a second.

Exit status:
  0   The command was done.
  1   The command was refused, and standard error has the word of the refusal.
      Or reading, writing or an allocation failed.
  2   The command line is wrong, or asks for help.
  3   No service answered at the addresses, within ten seconds each, or a campaign lost its
      service.";

/// The order that the words give, and the text of the addresses at which its service may be.
#[derive(Drop)]
pub struct Asked {
    pub addresses: String,
    pub order: Order,
}

/// The order that the words give.
#[derive(Drop)]
pub enum Order {
    /// Send each line of standard input.
    Session,
    /// Send one line, given without its LF.
    Ask(String),
    /// Send a line that spells a join, given without its LF, to the port of the campaigns.
    Campaign(String),
    /// Print the terms of a group for `seconds` seconds; if there is none, until the process is
    /// ended.
    Watch { group: String, seconds: Option<u32> },
}

// The program's command line.
fn command<'a>(alloc: Global) -> Result<Command<'a>, AllocError> {
    Command::new(alloc, "ringctl")
        .about("Sends commands to a running ringd, and prints the replies")
        .after_help(COMMANDS)
        .arg(address_arg(alloc))?
        .arg(for_arg(alloc))?
        .arg(words_arg(alloc))
}

// The option with the addresses of the service.
fn address_arg<'a>(alloc: Global) -> Arg<'a> {
    Arg::new(alloc, "address")
        .long("address")
        .value_name("ADDRESS[,ADDRESS ..]")
        .help(
            "The addresses of the service, tried in their order: each HOST:PORT, or unix:PATH for a socket [default: 127.0.0.1:7400; for campaign 127.0.0.1:7401]",
        )
}

// The option with the length of a watch.
fn for_arg<'a>(alloc: Global) -> Arg<'a> {
    Arg::new(alloc, "for")
        .long("for")
        .value_name("SECONDS")
        .value_parser(clap::value_parser!(u32).range(0..=86400))
        .help(
            "End a watch after SECONDS seconds, 0 to 86400; without this it goes on until it is interrupted",
        )
}

// The words of the command.
fn words_arg<'a>(alloc: Global) -> Arg<'a> {
    Arg::new(alloc, "words")
        .value_name("COMMAND")
        .num_args(0..)
        .help("A command, as below; put -- before a word that begins with a hyphen")
}

/// Returns the refusal of a command line with a word that is not UTF-8.
pub fn not_text(alloc: Global) -> Result<clap::Error, AllocError> {
    refusal(alloc, "a word is not UTF-8 text")
}

// Returns a refusal of the command line with this message.
fn refusal(alloc: Global, message: &str) -> Result<clap::Error, AllocError> {
    let mut command = command(alloc)?;
    let error = command.error(ErrorKind::ValueValidation, message);
    drop(command);
    error
}

/// Returns the order that the words of a command line give. The first word is the program's name.
pub fn read_words(alloc: Global, words: &[String]) -> Result<Asked, WordsFault> {
    let matches = command(alloc)?.try_get_matches_from(words)?;
    let asked = asked_of(alloc, &matches);
    drop(matches);
    match asked? {
        Ok(asked) => Ok(asked),
        Err(message) => Err(WordsFault::Usage(refusal(alloc, message)?)),
    }
}

// Returns the order of the words, or the message of their refusal.
fn asked_of(
    alloc: Global,
    matches: &ArgMatches<'_>,
) -> Result<Result<Asked, &'static str>, AllocError> {
    let given = matches.get_strs("words").unwrap_or(&[]);
    let addresses = matches.get_str("address").unwrap_or(usual_address(given));
    if !names_addresses(addresses) {
        return Ok(Err(NO_ADDRESS));
    }
    match order_of(alloc, given, matches.get_one::<u32>("for"))? {
        Some(order) => Ok(Ok(Asked {
            addresses: String::from_str(alloc, addresses)?,
            order,
        })),
        None => Ok(Err("this is no command; ringctl --help lists the commands")),
    }
}

// Returns the address of the service that these words are for, if none is given.
fn usual_address(words: &[&str]) -> &'static str {
    match words {
        ["campaign", ..] => CAMPAIGNS,
        _ => SESSIONS,
    }
}

// Returns the order that these words give, or `None` if they give none. Only a watch may have an
// end.
fn order_of(
    alloc: Global,
    words: &[&str],
    seconds: Option<u32>,
) -> Result<Option<Order>, AllocError> {
    if let ["watch", group] = words {
        return watch_order(alloc, group, seconds);
    }
    if seconds.is_some() {
        return Ok(None);
    }
    match words {
        [] => Ok(Some(Order::Session)),
        ["campaign", group, member] => {
            Ok(campaign_order(line_of(alloc, &["join", group, member])?))
        }
        _ => Ok(ask_order(line_of(alloc, words)?)),
    }
}

// Returns the order to watch this group, or `None` if this is not the name of a group.
fn watch_order(
    alloc: Global,
    group: &str,
    seconds: Option<u32>,
) -> Result<Option<Order>, AllocError> {
    if GroupName::from_bytes(group.as_bytes()).is_err() {
        return Ok(None);
    }
    Ok(Some(Order::Watch {
        group: String::from_str(alloc, group)?,
        seconds,
    }))
}

// Returns the order to send this line, or `None` exactly if it spells no command of a client.
fn ask_order(line: String) -> Option<Order>
    ensures some { IfSome result (IsAsk (string_bytes line)) }
    ensures none { IfNone result (SpellsNoCommand (string_bytes line)) }
{
    if parse_command(line.as_bytes()).is_none() {
        return None;
    }
    Some(Order::Ask(line))
}

// Returns the order to campaign by this line, or `None` exactly if it spells no join.
fn campaign_order(line: String) -> Option<Order>
    ensures some { IfSome result (IsCampaign (string_bytes line)) }
    ensures none { IfNone result (SpellsNoJoin (string_bytes line)) }
{
    one_spelling();
    let command = parse_command(line.as_bytes())?;
    if is_join(&command) {
        Some(Order::Campaign(line))
    } else {
        None
    }
}

// Returns whether a command is a join.
fn is_join(command: &Asking<Any>) -> bool
    ensures { result ≡ joins command.now }
{
    matches!(command, Asking::Join(_, _))
}

// Returns the words with one space between two of them.
fn line_of(alloc: Global, words: &[&str]) -> Result<String, AllocError> {
    let mut line = String::new(alloc);
    let mut gap = "";
    for word in words {
        line.push_str(gap)?;
        line.push_str(word)?;
        gap = " ";
    }
    Ok(line)
}
