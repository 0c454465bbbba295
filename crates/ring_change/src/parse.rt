ghost use Rattle.std.specs.Prelude.{◌≡◌, IfNone, IfSome};
ghost use Rattle.ring_any.specs.declared.any.Any.{Any};
ghost use Rattle.ring_change.specs.Changes.{asked_change};
ghost use Rattle.ring_change.specs.declared.change.Change.{Change};
ghost use Rattle.ring_change.specs.Spelling.{SpellsChange};

use crate::change::Change;
use crate::know::know;
use ring_any::Any;
use ring_events::Command;
use ring_grammar::parse_command;

/// Returns the change that a line spells, which is given without its LF and without its mark.
///
/// Returns `None` exactly if the line spells no change. Does not allocate.
pub fn parse_change(line: &[u8]) -> Option<Change<Any>>
    ensures some { IfSome result (SpellsChange line.now) }
    ensures none { IfNone result ((change : Change Any) → ¬ (SpellsChange line.now change)) }
{
    match parse_command(line) {
        Some(command) => asked(command),
        None => know(line),
    }
}

// The change that a command asks for. A question asks for none.
fn asked(command: Command<Any>) -> Option<Change<Any>>
    ensures { result ≡ asked_change command }
{
    match command {
        Command::Create(group, algorithm) => Some(Change::Create(group, algorithm)),
        Command::Join(group, node) => Some(Change::Join(group, node)),
        Command::Leave(group, number) => Some(Change::Leave(group, number)),
        Command::Start(group) => Some(Change::Start(group)),
        Command::Who(..) | Command::Members(_) | Command::Terms(_) | Command::Groups => None,
    }
}
