//! What the definitions of zones keep, as laws: a call does nothing, and its contract is the law.

ghost use Rattle.timeline.specs.EntryPromises.{LastEntryHolds, OneOffsetHolds, OneVerdict, PlacedOnce, EntriesRise};
ghost use Rattle.timeline.specs.WallPromises.{WallSecondsShow, WallSecondsArePlaced, OffsetsAreSmall, AnswersPlace, TwoCandidates};
ghost use Rattle.timeline.specs.RulePromises.{RuleDaysAreNearest, RulesGoByKind, RulesRepeat};
ghost use Rattle.timeline.specs.OffsetPromises.{OffsetsChangeAtEntries, EntriesChangeOffsets, SidesHoldAtTheTwo};

use civil::laws::{example_years, kinds_of_year, years_repeat};

/// The offset at a second is that of the last entry not after it, or the initial one where all entries are after it.
pub fn last_entry_holds()
    ensures { LastEntryHolds }
{}

/// One offset alone is that of the last entry not after a second.
pub fn one_offset_holds()
    ensures { OneOffsetHolds }
{}

/// A zone has one verdict: it is lawful, or it breaks one least law. A lawful one keeps the law of each number.
pub fn one_verdict()
    ensures { OneVerdict }
{}

/// A wall second has one place at most.
pub fn placed_once()
    ensures { PlacedOnce }
{}

/// In a lawful zone the entries rise, from the table to the rule and from a year to the next too, and are as far apart as the laws
/// ask of neighbours. Two at one second are equal.
pub fn entries_rise()
    ensures { EntriesRise }
{}

/// In a lawful zone each wall second is shown by one second, or by two on the two sides of an entry, and lies in no gap; or
/// none shows it, and it lies in exactly one gap.
pub fn wall_seconds_show()
    ensures { WallSecondsShow }
{}

/// In a lawful zone each wall second has a place.
pub fn wall_seconds_are_placed()
    ensures { WallSecondsArePlaced }
{}

/// In a lawful zone the offset in force is less than a day to either side, at each second.
pub fn offsets_are_small()
    ensures { OffsetsAreSmall }
{}

/// In a lawful zone an answer to a wall second tells where it is placed: at the wall second less the offset at its one second, and
/// in a gap or where two seconds show it, less the offset before the entry.
pub fn answers_place()
    ensures { AnswersPlace }
{}

/// In a lawful zone a wall second lies in the stretches of two entries at most: those of its year under the rule, or those
/// around it in the table.
pub fn two_candidates()
    ensures { TwoCandidates }
{}

/// The days that a rule's date counts from: the first with its weekday from a day on, or the last up to one.
pub fn rule_days_are_nearest()
    ensures { RuleDaysAreNearest }
{}

/// The date of a rule in a year is the year's first day plus a number that depends on the kind of the year alone.
pub fn rules_go_by_kind()
    ensures { RulesGoByKind }
{
    kinds_of_year();
    example_years();
}

/// The transitions of a rule in a year come again after 400 years, which are 146,097 days, with the same offsets.
pub fn rules_repeat()
    ensures { RulesRepeat }
{
    years_repeat();
}

/// In a lawful zone the offset changes nowhere but at the second of an entry, from the one before the entry to its own.
pub fn offsets_change_at_entries()
    ensures { OffsetsChangeAtEntries }
{}

/// In a lawful zone it changes so at each entry whose offset is another one than that before it.
pub fn entries_change_offsets()
    ensures { EntriesChangeOffsets }
{}

/// In a lawful zone the two sides that an answer to a wall second tells hold at the two seconds that show it.
pub fn sides_hold_at_the_two()
    ensures { SidesHoldAtTheTwo }
{}
