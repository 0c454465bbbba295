ghost use Rattle.std.specs.Prelude.{◌≡◌, ◌≤◌, ◌++◌, length, IfNone, IfSome, OnErr, OnOk};
ghost use Rattle.ring_any.specs.declared.any.Any.{Any};
ghost use Rattle.ring_change.specs.declared.change.Change.{Change};
ghost use Rattle.ring_change.specs.Checks.{check_mark};
ghost use Rattle.ring_change.specs.Lines.{IsMarked, IsOneLine, check_behind, marked_line};
ghost use Rattle.ring_change.specs.Spelling.{IsChange, change_line};

use crate::change::Change;
use crate::check::Check;
use crate::line::Line;
use crate::parse::parse_change;
use crate::print::print_change;
use ring_any::Any;
use ring_grammar::{Sink, SinkFailed};

/// The number of bytes of a mark.
const MARK: usize = 10;

/// Returns the line of a change in a journal: the change, ` #` and the eight digits of the check.
///
/// Leaves the check after this line in `check`. Cannot fail, and does not allocate.
pub fn spell_line(change: &Change<Any>, check: &mut Check) -> Line
    ensures line { result ≡ marked_line check.old change.now }
    ensures whole { IsOneLine result }
    ensures check { check.new ≡ check_behind check.old change.now }
    ensures legal { IsChange change.now }
{
    let line = spelled(change);
    *check = check.after(line.as_slice());
    marked(line, *check)
}

/// Puts the line that `spell_line` returns.
///
/// At `Err` a prefix of it was put. Leaves the check after this line in `check` in either case.
/// Does not allocate.
pub fn print_line<S: Sink>(
    change: &Change<Any>,
    check: &mut Check,
    out: &mut S,
) -> Result<(), SinkFailed>
    ensures ok { OnOk result (S.takes out.old (marked_line check.old change.now) out.new) }
    ensures err { OnErr result (S.takes_front out.old (marked_line check.old change.now) out.new) }
    ensures check { check.new ≡ check_behind check.old change.now }
    ensures legal { IsChange change.now }
{
    out.put(spell_line(change, check).as_slice())
}

/// Returns the change of a line in a journal, which is given without its LF.
///
/// Leaves the check after this line in `check`. Returns `None`, and leaves `check` as it was,
/// exactly if no change has this line after that check. Does not allocate.
pub fn read_line(line: &[u8], check: &mut Check) -> Option<Change<Any>>
    ensures some { IfSome result (λ change. IsMarked check.old line.now change check.new) }
    ensures none { IfNone result ((change : Change Any) → IsChange change
        → line.now ≡ marked_line check.old change → ⊥) }
    ensures kept { IfNone result (check.new ≡ check.old) }
{
    if line.len() < MARK {
        return None;
    }
    let (text, mark) = line.split_at(line.len() - MARK);
    let change = parse_change(text)?;
    let next = check.after(text);
    if mark != next.mark().as_slice() {
        return None;
    }
    *check = next;
    Some(change)
}

// A change as a line. No change is longer.
fn spelled(change: &Change<Any>) -> Line
    ensures line { result ≡ change_line change.now }
    ensures short { length result ≤ 60 }
    ensures legal { IsChange change.now }
{
    let mut line = Line::new();
    let _printed = print_change(change, &mut line);
    line
}

// A line and its mark.
fn marked(line: Line, check: Check) -> Line
    requires { length line ≤ 60 }
    ensures { result ≡ line ++ check_mark check }
{
    let mut line = line;
    let _put = line.put(check.mark().as_slice());
    line
}
