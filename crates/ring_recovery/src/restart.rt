ghost use Rattle.ring_recovery.specs.Restarts.{RestartsAfterFirst};

use ring_any::Any;
use ring_change::one_change;
use ring_lives::{follows_replays, replays_exact};

/// A restart recovers the table as it was after the first of its entries, and at least after those
/// that were kept for good.
///
/// The law is the contract; the call does nothing.
pub fn restarts_after_first()
    ensures { RestartsAfterFirst }
{
    one_change();
    follows_replays::<Any>();
    replays_exact::<Any>();
}
