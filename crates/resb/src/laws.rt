//! What the definitions of words and trees keep, as laws: a call does nothing, and its contract is the law.

ghost use Rattle.resb.specs.KeyLaws.{WalksMeetKeys};
ghost use Rattle.resb.specs.Laws.{WordsDenote};

/// The words that are written for a tree denote that tree, where its keys are good and a file has room for it.
pub fn words_denote()
    ensures { WordsDenote }
{}

/// A walk over a tree meets no key at a leaf, at an array the keys of its items, and at a table each entry's key before those of
/// its value.
#[inline]
pub fn walks_meet_keys()
    ensures { WalksMeetKeys }
{}
