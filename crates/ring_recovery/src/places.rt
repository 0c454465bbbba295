ghost use Rattle.ring_recovery.specs.Places.{PlacesRise};

use crate::restart::restarts_after_first;

/// Each place in a reply of one life of a journal is less than each place in a reply of a later
/// life. So no two lives share a place.
///
/// The law is the contract; the call does nothing.
pub fn places_rise()
    ensures { PlacesRise }
{
    restarts_after_first();
}
