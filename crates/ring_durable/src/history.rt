ghost use Rattle.ring_durable.specs.Durable.{AreDurable};

use ring_any::Any;
use ring_lives::{all_lives, one_leader};
use ring_recovery::resumes_after_first;

/// All lives of a service over one journal, from a file without lines on, are one legal history.
///
/// A crash leaves a file of each life, in which a restart finds its first entries: at least those
/// that were kept for good. The next life is resumed from that file. Then the entries that are left
/// of all lives are one run of the election object. Each entry whose reply a client got is in it,
/// at its place, and no two of these replies name different leaders of one term.
pub fn one_history()
    ensures { AreDurable }
{
    resumes_after_first();
    all_lives::<Any>();
    one_leader::<Any>();
}
