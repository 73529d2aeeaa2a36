ghost use Rattle.tongues.specs.Laws.{UnitsRise, TextsAreUtf8};

/// Each unit but the biggest has one that is next: it is bigger, the first is the one below it, and
/// no unit has a size between theirs.
pub fn units_rise()
    ensures { UnitsRise }
{}

/// The bytes by which words are stated are the UTF-8 of their characters, as std has it.
pub fn texts_are_utf8()
    ensures { TextsAreUtf8 }
{}
