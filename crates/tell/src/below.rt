//! The laws of the crates below, as the answer to a line stands on them.
ghost use Rattle.tell.specs.Inside.LawsBelow.{LawsBelow};

use interim::laws::{plain_forms_are_inside, plain_forms_are_read, plain_forms_mean};
use timeline::laws::offsets_are_small;
use zoneinfo64::laws::zones_place_alike;

/// What phrases of the plain form mean, and how lawful zones place.
pub fn laws_below()
    ensures { LawsBelow }
{
    plain_forms_are_read();
    plain_forms_mean();
    plain_forms_are_inside();
    offsets_are_small();
    zones_place_alike();
}
