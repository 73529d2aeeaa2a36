//! Where a second and a wall second stand in a zone's timeline.
ghost use Rattle.std.specs.Prelude.{◌≡◌, ◌+◌, ◌-◌, ◌*◌, ◌^◌, ◌≤◌, ◌<◌, ℤ, ◌+ℤ◌, ◌<ℤ◌, int_lt, not, IfSome, [], ◌∷◌, length, slice_range, min};
ghost use Rattle.civil.specs.Calendar.{year_second, day_of, wall_second};
ghost use Rattle.timeline.specs.Zone.{end_year};
ghost use Rattle.timeline.specs.Inside.RuleYears.{IsFirstYear, TellsYear};
ghost use Rattle.timeline.specs.Inside.KeptRules.{OfItsRule};
ghost use Rattle.timeline.specs.Inside.Reach.{IsInReach, IsInside};
ghost use Rattle.timeline.specs.TableLaws.{KeepsOrder};
ghost use Rattle.timeline.specs.Laws.{IsLawful};
ghost use Rattle.timeline.specs.Timeline.{table_place, before_entry, offset_at};
ghost use Rattle.timeline.specs.Lookups.{AnswersWall, IsDateTime};
ghost use Rattle.timeline.specs.Inside.AnswerSteps.{answer_by, answer_from, offset_in_year};
ghost use Rattle.timeline.specs.Inside.YearEntries.{rule_entries_in, entries_in, IsNearestYear, StartsInside};

use crate::data::ZoneData;
use crate::dates::ZoneRule;
use crate::offset::{Offset, PossibleOffset, Transition};
use crate::rule::YearRule;
use civil::{days_before_month, days_before_year, year_of_day};
use std::marker::Brand;
use std::sync::ledger::{Blank, Ledger};
use steps::Steps;

/// Where the entries are that tell of a year.
#[derive(Clone, Copy)]
pub enum YearEntries {
    /// In the table: the rule holds from a later year on, or there is none.
    Table,
    /// The two that the rule has in the year, with what holds before the first.
    Rule {
        before: Offset,
        first: Transition,
        second: Transition,
    },
    /// None is left, and this holds for good.
    Past(Offset),
}

/// How many entries of the table are not after a second, where the table rises.
pub fn table_place<L: Ledger>(zone: &ZoneData, second: i64, steps: &mut Steps<L>) -> usize
    ensures bound { result ≤ length zone.now.table }
    ensures place { KeepsOrder zone.now → result ≡ table_place zone.now second }
    ensures ticks { 2 ^ (steps.new - steps.old) ≤ 2 * length zone.now.table + 1 }
{
    let mut low = 0;
    let mut high = zone.len();
    while low < high {
        let middle = low + (high - low) / 2;
        if zone.second_at(middle, steps) <= second {
            low = middle + 1;
        } else {
            high = middle;
        }
    }
    low
}

/// What holds before the entry of that number, which is one of the table or comes next after it.
pub(crate) fn before_entry(zone: &ZoneData, number: usize) -> Offset
    requires { number ≤ length zone.now.table }
    ensures { result ≡ before_entry zone.now number }
{
    if number == 0 {
        zone.initial()
    } else {
        zone.offset_at(number - 1)
    }
}

/// The offset before the first transition of a year, and the year's two; the step goes to the
/// caller's ledger. It stands outside of the look-ups, which stay short by that.
#[inline(never)]
fn year_from<L: Ledger>(
    rule: &YearRule,
    year: i32,
    blank: Blank,
) -> (Offset, Transition, Transition)
    requires year { year <ℤ end_year }
    requires name { blank.name ≡ L.name }
    requires parts { blank.parts ≡ L.parts }
    requires some { 0 < L.parts }
    ensures { OfItsRule rule.now (λ r. TellsYear r year result) }
{
    let mut steps = Steps::<L>::new(blank);
    rule.year_at(year, &mut steps)
}

/// The same, where no step is counted.
fn transitions(rule: &ZoneRule, year: i32) -> (Offset, Transition, Transition)
    requires { year <ℤ end_year }
    ensures { TellsYear rule.now year result }
{
    year_from::<Brand>(rule.years(), year, Blank::new(1))
}

/// The first year of a rule.
fn first_year(rule: &ZoneRule) -> i32
    ensures value { result ≡ rule.now.first_year }
    ensures range { IsFirstYear result }
{
    rule.years().first_year()
}

/// The entries of a year of a rule.
fn rule_entries(rule: &ZoneRule, year: i32) -> YearEntries
    ensures value { result ≡ rule_entries_in rule.now year }
    ensures starts { IsInside rule.now.first_year }
{
    if year < first_year(rule) {
        return YearEntries::Table;
    }
    if year == i32::MAX {
        let (last, _, _) = transitions(rule, 0);
        return YearEntries::Past(last);
    }
    let (before, first, second) = transitions(rule, year);
    YearEntries::Rule {
        before,
        first,
        second,
    }
}

/// The entries that tell of a year.
pub fn entries_of(zone: &ZoneData, year: i32) -> YearEntries
    ensures value { result ≡ entries_in zone.now.rule year }
    ensures starts { StartsInside zone.now.rule }
{
    match zone.rule() {
        None => YearEntries::Table,
        Some(rule) => rule_entries(rule, year),
    }
}

/// The year of a second, or the first or last year of 32 bits where it lies before or after these.
pub(crate) fn nearest_year(second: i64) -> i32
    ensures { IsNearestYear result second }
{
    let day = second.div_euclid(86_400);
    match year_of_day(day) {
        Some(year) => year,
        None => { if day < 0 { i32::MIN } else { i32::MAX } }
    }
}

/// What holds at a second of a year in a lawful zone.
fn offset_of_second(zone: &ZoneData, second: i64, entries: &YearEntries) -> Offset
    ensures { (y : ℤ) → IsLawful zone.now → IsNearestYear y second → StartsInside zone.now.rule
        → entries.now ≡ entries_in zone.now.rule y → result ≡ offset_at zone.now second }
{
    match entries {
        YearEntries::Table => table_offset(zone, second),
        YearEntries::Rule {
            before,
            first,
            second: last,
        } => year_offset(second, *before, *first, *last),
        YearEntries::Past(last) => *last,
    }
}

/// What holds at a second in a lawful zone.
pub fn offset_at(zone: &ZoneData, second: i64) -> Offset
    ensures { IsLawful zone.now → result ≡ offset_at zone.now second }
{
    let entries = entries_of(zone, nearest_year(second));
    offset_of_second(zone, second, &entries)
}

/// What a lawful zone answers for a wall second, by the entries that tell of its year.
fn offsets_by(zone: &ZoneData, wall: i64, entries: &YearEntries) -> PossibleOffset
    ensures { (y : ℤ) → IsLawful zone.now → IsNearestYear y wall → StartsInside zone.now.rule
        → entries.now ≡ entries_in zone.now.rule y → AnswersWall zone.now wall result }
{
    match entries {
        YearEntries::Table => table_answer(zone, wall),
        YearEntries::Rule {
            before,
            first,
            second,
        } => year_answer(wall, *before, *first, *second),
        YearEntries::Past(last) => PossibleOffset::Single(*last),
    }
}

/// The day number of a date, whether the calendar has its year or not.
fn day_number(year: i32, month: u8, day: u8) -> i64
    requires low { 1 ≤ month }
    requires high { month ≤ 12 }
    requires first { 1 ≤ day }
    ensures value { result ≡ day_of year month day }
    ensures reach { IsInReach result }
{
    let months = days_before_month(year, month);
    days_before_year(year) + months as i64 + (day - 1) as i64
}

/// The wall second of a date and a time of day.
pub fn wall_second(year: i32, month: u8, day: u8, hour: u8, minute: u8, second: u8) -> i64
    requires { IsDateTime year month day hour minute second }
    ensures { result ≡ wall_second (day_of year month day) hour minute second }
{
    let seconds = 3_600 * hour as u32 + 60 * minute as u32 + second as u32;
    86_400 * day_number(year, month, day) + seconds as i64
}

/// What a lawful zone answers for a wall second.
pub fn offsets_of_wall(zone: &ZoneData, wall: i64) -> PossibleOffset
    ensures { IsLawful zone.now → AnswersWall zone.now wall result }
{
    let entries = entries_of(zone, nearest_year(wall));
    offsets_by(zone, wall, &entries)
}

/// What holds at a second in a lawful zone, before its rule's first year or without a rule; the steps go to the caller's
/// ledger.
fn table_offset_from<L: Ledger>(zone: &ZoneData, second: i64, blank: Blank) -> Offset
    requires name { blank.name ≡ L.name }
    requires parts { blank.parts ≡ L.parts }
    requires some { 0 < L.parts }
    ensures { IsLawful zone.now → IfSome zone.now.rule (λ r. second <ℤ year_second r.first_year)
        → result ≡ offset_at zone.now second }
{
    let mut steps = Steps::<L>::new(blank);
    before_entry(zone, table_place(zone, second, &mut steps))
}

/// The same, where no step is counted.
fn table_offset(zone: &ZoneData, second: i64) -> Offset
    ensures { IsLawful zone.now → IfSome zone.now.rule (λ r. second <ℤ year_second r.first_year)
        → result ≡ offset_at zone.now second }
{
    table_offset_from::<Brand>(zone, second, Blank::new(1))
}

/// What the entry of that number says of a wall second, one of the table or the one that comes next after it, which is not
/// there and says nothing.
fn next_answer<L: Ledger>(
    zone: &ZoneData,
    wall: i64,
    number: usize,
    steps: &mut Steps<L>,
) -> PossibleOffset
    requires { number ≤ length zone.now.table }
    ensures { result
        ≡ answer_from wall (before_entry zone.now number)
        (slice_range zone.now.table number (min (length zone.now.table) (number + 1))) }
{
    let before = before_entry(zone, number);
    if number == zone.len() {
        return PossibleOffset::Single(before);
    }
    let entry = zone.table_entry(number, steps);
    answer_from(wall, before, &[entry])
}

/// What the entry of the table before that number and the one of that number say of a wall second.
fn answer_around<L: Ledger>(
    zone: &ZoneData,
    wall: i64,
    number: usize,
    steps: &mut Steps<L>,
) -> PossibleOffset
    requires { number ≤ length zone.now.table }
    ensures { result
        ≡ answer_from wall (before_entry zone.now (number - 1))
        (slice_range zone.now.table (number - 1) (min (length zone.now.table) (number + 1))) }
{
    if number == 0 {
        return next_answer(zone, wall, number, steps);
    }
    let before = before_entry(zone, number - 1);
    let entry = zone.table_entry(number - 1, steps);
    match answer_by(wall, before, entry) {
        Some(answer) => answer,
        None => next_answer(zone, wall, number, steps),
    }
}

/// What a lawful zone answers for a wall second before its rule's first year, or without a rule: the last entry of the
/// table that is not after it, taken as a second, and the next one decide. The steps go to the caller's ledger.
fn table_answer_from<L: Ledger>(zone: &ZoneData, wall: i64, blank: Blank) -> PossibleOffset
    requires name { blank.name ≡ L.name }
    requires parts { blank.parts ≡ L.parts }
    requires some { 0 < L.parts }
    ensures { IsLawful zone.now → IfSome zone.now.rule (λ r. wall <ℤ year_second r.first_year)
        → AnswersWall zone.now wall result }
{
    let mut steps = Steps::<L>::new(blank);
    let place = table_place(zone, wall, &mut steps);
    answer_around(zone, wall, place, &mut steps)
}

/// The same, where no step is counted.
fn table_answer(zone: &ZoneData, wall: i64) -> PossibleOffset
    ensures { IsLawful zone.now → IfSome zone.now.rule (λ r. wall <ℤ year_second r.first_year)
        → AnswersWall zone.now wall result }
{
    table_answer_from::<Brand>(zone, wall, Blank::new(1))
}

/// Whether a transition is not after a second.
fn is_passed(entry: &Transition, second: i64) -> bool
    ensures { result ≡ not (int_lt second entry.now.since) }
{
    entry.since <= second
}

/// What the two transitions of a year bring at a second, with what holds before the first.
fn year_offset(at: i64, before: Offset, first: Transition, second: Transition) -> Offset
    ensures { result ≡ offset_in_year at before first second }
{
    if !is_passed(&first, at) {
        before
    } else if !is_passed(&second, at) {
        Offset::from(first)
    } else {
        Offset::from(second)
    }
}

/// What they say of a wall second.
fn year_answer(wall: i64, before: Offset, first: Transition, second: Transition) -> PossibleOffset
    ensures { result ≡ answer_from wall before (first ∷ second ∷ []) }
{
    answer_from(wall, before, &[first, second])
}

/// What a clock shows at a second by an offset, which may leave 64 bits.
fn wall_at(second: i64, offset: &Offset) -> i128
    ensures { result ≡ second +ℤ offset.now.offset }
{
    let offset = offset.offset;
    i128::from(second) + i128::from(offset.seconds())
}

/// What a transition says of a wall second, with what holds before it: `None` where the wall second is after both its walls.
fn answer_by(wall: i64, before: Offset, entry: Transition) -> Option<PossibleOffset>
    ensures { result ≡ answer_by wall before entry }
{
    let transition = entry.since;
    let after = Offset::from(entry);
    let to_old = i128::from(wall) < wall_at(transition, &before);
    let to_new = i128::from(wall) < wall_at(transition, &after);
    if to_old && to_new {
        Some(PossibleOffset::Single(before))
    } else if to_old {
        Some(PossibleOffset::Ambiguous {
            before,
            after,
            transition,
        })
    } else if to_new {
        Some(PossibleOffset::None {
            before,
            after,
            transition,
        })
    } else {
        None
    }
}

/// What transitions in a row say of a wall second, with what holds before the first of them.
fn answer_from(wall: i64, before: Offset, entries: &[Transition]) -> PossibleOffset
    ensures { result ≡ answer_from wall before entries.now }
{
    let mut before = before;
    for entry in entries {
        if let Some(answer) = answer_by(wall, before, *entry) {
            return answer;
        }
        before = Offset::from(*entry);
    }
    PossibleOffset::Single(before)
}

#[cfg(test)]
mod tests;
