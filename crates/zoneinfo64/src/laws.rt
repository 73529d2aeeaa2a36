//! What the definitions of names and zones keep, as laws: a call does nothing, and its contract is the law. The laws of zones are
//! those of `timeline::laws`.

ghost use Rattle.zoneinfo64.specs.Promises.{TextKeepsOrder, NamesKeepOrder, ZonesPlaceAlike};

use crate::below::laws_below;

/// UTF-8 keeps the order of characters.
pub fn text_keeps_order()
    ensures { TextKeepsOrder }
{}

/// Names, which are compared by their bytes in UTF-8, are so compared character by character.
pub fn names_keep_order()
    ensures { NamesKeepOrder }
{}

/// In a lawful zone a wall second is placed by the entries of the timeline where it is placed by the offsets at all seconds:
/// their gaps are the same, and the offset just before a gap's second is the one before its entry.
pub fn zones_place_alike()
    ensures { ZonesPlaceAlike }
{
    laws_below();
}
