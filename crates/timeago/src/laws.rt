//! What told distances keep, as laws: a call does nothing, and its contract is the law.

ghost use Rattle.timeago.specs.Laws.{OneCountList, OneText, DefaultTexts};

/// A distance has exactly one list of counts.
pub fn one_count_list()
    ensures { OneCountList }
{}

/// A distance has exactly one text, in each language and for each setting of a formatter.
pub fn one_text()
    ensures { OneText }
{}

/// From one second to less than 10,000 years a new formatter tells one count of at most four
/// digits, its unit's English word, and `ago`; with an empty word for the past no `ago`.
pub fn default_texts()
    ensures { DefaultTexts }
{}
