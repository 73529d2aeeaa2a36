//! The laws of `timeline`, as the places and offsets of a bundle's zones stand on them.
ghost use Rattle.zoneinfo64.specs.Inside.LawsBelow.{LawsBelow};

use timeline::laws::{
    entries_change_offsets, offsets_are_small, offsets_change_at_entries, sides_hold_at_the_two,
    wall_seconds_show,
};

/// Where the wall seconds of lawful zones lie, and where their offsets change.
#[inline]
pub fn laws_below()
    ensures { LawsBelow }
{
    wall_seconds_show();
    offsets_are_small();
    offsets_change_at_entries();
    entries_change_offsets();
    sides_hold_at_the_two();
}
