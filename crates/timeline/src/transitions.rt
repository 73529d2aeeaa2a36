//! The transition before a second, and the one after it.
ghost use Rattle.std.specs.Prelude.{◌≡◌, ◌≤◌, ◌↔◌, ℕ, ◌<◌, ◌<ℤ◌, length, true, false, IsTrue, IfSome};
ghost use Rattle.timeline.specs.Zone.{PlainRule, end_year};
ghost use Rattle.civil.specs.Calendar.{year_second};
ghost use Rattle.timeline.specs.Laws.{IsLawful};
ghost use Rattle.timeline.specs.TableLaws.{KeepsOrder};
ghost use Rattle.timeline.specs.declared.lookups.YearEntries.TheVariants as told;
ghost use Rattle.timeline.specs.Inside.Reach.{first_of_32};
ghost use Rattle.timeline.specs.Inside.YearEntries.{entries_in, IsNearestYear, StartsInside};
ghost use Rattle.timeline.specs.Transitions.{IsUpTo, AnswersNext, AnswersPrev};
ghost use Rattle.timeline.specs.Inside.FoundEntries.{FirstIn, FirstFrom, LastBelow};
ghost use Rattle.timeline.specs.Inside.EntryCuts.{IsTableCut};
ghost use Rattle.timeline.specs.Inside.YearTransitions.{IsYearOf, year_place, is_idle, first_of_year, last_of_year};

use crate::data::ZoneData;
use crate::lookups::{YearEntries, before_entry, entries_of, nearest_year, table_place};
use crate::offset::{Offset, Transition};
use std::marker::Brand;
use std::sync::ledger::{Blank, Ledger};
use steps::Steps;

/// Whether a change is asked for, and a transition makes none.
fn is_idle(change: bool, before: &Offset, entry: &Transition) -> bool
    ensures { result ≡ is_idle change before.now entry.now }
{
    let (before, after) = (before.offset, entry.offset);
    change && before == after
}

/// The first entry of the table that counts, from a number on.
fn first_in_table<L: Ledger>(
    zone: &ZoneData,
    from: usize,
    change: bool,
    steps: &mut Steps<L>,
) -> Option<Transition>
    ensures { FirstIn zone.now change from (length zone.now.table) result }
{
    for n in from..zone.len() {
        let entry = zone.table_entry(n, steps);
        if !is_idle(change, &before_entry(zone, n), &entry) {
            return Some(entry);
        }
    }
    None
}

/// The last entry of the table that counts, below a number.
fn last_in_table<L: Ledger>(
    zone: &ZoneData,
    to: usize,
    change: bool,
    steps: &mut Steps<L>,
) -> Option<Transition>
    requires { to ≤ length zone.now.table }
    ensures { LastBelow zone.now change to result }
{
    let mut n = to;
    while n > 0 {
        n -= 1;
        let entry = zone.table_entry(n, steps);
        if !is_idle(change, &before_entry(zone, n), &entry) {
            return Some(entry);
        }
    }
    None
}

/// The first of a year's entries, where it counts.
fn first_of_year(entries: YearEntries, change: bool) -> Option<Transition>
    ensures { result ≡ first_of_year change entries }
{
    match entries {
        YearEntries::Rule { before, first, .. } => {
            if is_idle(change, &before, &first) {
                None
            } else {
                Some(first)
            }
        }
        _ => None,
    }
}

/// The last of a year's entries, where it counts.
fn last_of_year(entries: YearEntries, change: bool) -> Option<Transition>
    ensures { result ≡ last_of_year change entries }
{
    match entries {
        YearEntries::Rule {
            before,
            first,
            second,
        } => if is_idle(change, &before, &first) {
            None
        } else {
            Some(second)
        },
        _ => None,
    }
}

/// The first entry that counts from a year of the rule on, or from the year after its last.
fn from_year(zone: &ZoneData, year: i32, change: bool) -> Option<Transition>
    ensures { (r : PlainRule) (j : ℕ) → IsLawful zone.now → IsYearOf zone.now year r j
        → FirstFrom zone.now change (year_place zone.now j) result }
{
    first_of_year(entries_of(zone, year), change)
}

/// The last entry that counts before it.
fn before_year<L: Ledger>(
    zone: &ZoneData,
    year: i32,
    change: bool,
    steps: &mut Steps<L>,
) -> Option<Transition>
    requires { first_of_32 <ℤ year }
    ensures { (r : PlainRule) (j : ℕ) → IsLawful zone.now → IsYearOf zone.now year r j
        → LastBelow zone.now change (year_place zone.now j) result }
{
    match last_of_year(entries_of(zone, year - 1), change) {
        Some(entry) => Some(entry),
        None => last_in_table(zone, zone.len(), change, steps),
    }
}

/// The first entry of the rule that counts.
fn first_of_rule(zone: &ZoneData, change: bool) -> Option<Transition>
    ensures { IsLawful zone.now → FirstFrom zone.now change (length zone.now.table) result }
{
    match zone.rule() {
        None => None,
        Some(rule) => from_year(zone, rule.years().first_year(), change),
    }
}

/// The next entry that counts, from a second before the rule's first year or without a rule.
fn next_in_table<L: Ledger>(
    zone: &ZoneData,
    second: i64,
    change: bool,
    steps: &mut Steps<L>,
) -> Option<Transition>
    ensures { IsLawful zone.now → IfSome zone.now.rule (λ r. second <ℤ year_second r.first_year)
        → AnswersNext zone.now second change result }
{
    let place = table_place(zone, second, steps);
    match first_in_table(zone, place, change, steps) {
        Some(entry) => Some(entry),
        None => first_of_rule(zone, change),
    }
}

/// The next entry that counts, from a second of a year with entries of the rule.
fn next_in_rule(
    zone: &ZoneData,
    second: i64,
    year: i32,
    before: Offset,
    first: Transition,
    last: Transition,
    change: bool,
) -> Option<Transition>
    requires { year <ℤ end_year }
    ensures { IsLawful zone.now → IsNearestYear year second → StartsInside zone.now.rule
        → told.Rule before first last ≡ entries_in zone.now.rule year
        → AnswersNext zone.now second change result }
{
    if !is_idle(change, &before, &first) {
        if second < first.since {
            return Some(first);
        }
        if second < last.since {
            return Some(last);
        }
    }
    from_year(zone, year + 1, change)
}

/// The next entry that counts; the steps go to the caller's ledger.
fn next_by<L: Ledger>(
    zone: &ZoneData,
    second: i64,
    change: bool,
    blank: Blank,
) -> Option<Transition>
    requires name { blank.name ≡ L.name }
    requires parts { blank.parts ≡ L.parts }
    requires some { 0 < L.parts }
    ensures { IsLawful zone.now → AnswersNext zone.now second change result }
{
    let mut steps = Steps::<L>::new(blank);
    let year = nearest_year(second);
    match entries_of(zone, year) {
        YearEntries::Table => next_in_table(zone, second, change, &mut steps),
        YearEntries::Rule {
            before,
            first,
            second: last,
        } => next_in_rule(zone, second, year, before, first, last, change),
        YearEntries::Past(_) => None,
    }
}

/// The earliest transition after a second in a lawful zone, or the earliest that changes the offset.
pub fn next_transition(zone: &ZoneData, second: i64, change: bool) -> Option<Transition>
    ensures { IsLawful zone.now → AnswersNext zone.now second change result }
{
    next_by::<Brand>(zone, second, change, Blank::new(1))
}

/// Whether a second lies before another, or not after it where that is not taken exactly.
fn is_up_to(exact: bool, second: i64, since: i64) -> bool
    ensures { IsTrue result ↔ IsUpTo exact second since }
{
    if exact {
        since < second
    } else {
        since <= second
    }
}

/// How many entries of the table lie before a second, with the number of those that are not after it.
fn exact_place<L: Ledger>(zone: &ZoneData, second: i64, place: usize, steps: &mut Steps<L>) -> usize
    requires { place ≤ length zone.now.table }
    ensures bound { result ≤ length zone.now.table }
    ensures value { KeepsOrder zone.now → IsTableCut zone.now false second place
        → IsTableCut zone.now true second result }
{
    if place == 0 {
        return 0;
    }
    if zone.second_at(place - 1, steps) < second {
        return place;
    }
    place - 1
}

/// How many entries of the table lie before a second, or not after it where that is not taken exactly.
fn table_cut<L: Ledger>(zone: &ZoneData, second: i64, exact: bool, steps: &mut Steps<L>) -> usize
    ensures bound { result ≤ length zone.now.table }
    ensures value { KeepsOrder zone.now → IsTableCut zone.now exact second result }
{
    let place = table_place(zone, second, steps);
    if exact {
        return exact_place(zone, second, place, steps);
    }
    place
}

/// The last entry that counts, up to a second of a year with entries of the rule.
fn prev_in_rule<L: Ledger>(
    zone: &ZoneData,
    second: i64,
    exact: bool,
    year: i32,
    before: Offset,
    first: Transition,
    last: Transition,
    change: bool,
    steps: &mut Steps<L>,
) -> Option<Transition>
    requires { first_of_32 <ℤ year }
    ensures { IsLawful zone.now → IsNearestYear year second → StartsInside zone.now.rule
        → told.Rule before first last ≡ entries_in zone.now.rule year
        → AnswersPrev zone.now second exact change result }
{
    if !is_idle(change, &before, &first) {
        if is_up_to(exact, second, last.since) {
            return Some(last);
        }
        if is_up_to(exact, second, first.since) {
            return Some(first);
        }
    }
    before_year(zone, year, change, steps)
}

/// The last entry that counts, up to a second; the steps go to the caller's ledger.
fn prev_by<L: Ledger>(
    zone: &ZoneData,
    second: i64,
    exact: bool,
    change: bool,
    blank: Blank,
) -> Option<Transition>
    requires name { blank.name ≡ L.name }
    requires parts { blank.parts ≡ L.parts }
    requires some { 0 < L.parts }
    ensures { IsLawful zone.now → AnswersPrev zone.now second exact change result }
{
    let mut steps = Steps::<L>::new(blank);
    let year = nearest_year(second);
    match entries_of(zone, year) {
        YearEntries::Table => {
            let place = table_cut(zone, second, exact, &mut steps);
            last_in_table(zone, place, change, &mut steps)
        }
        YearEntries::Rule {
            before,
            first,
            second: last,
        } => prev_in_rule(
            zone, second, exact, year, before, first, last, change, &mut steps,
        ),
        YearEntries::Past(_) => before_year(zone, i32::MAX, change, &mut steps),
    }
}

/// The latest transition before a second in a lawful zone, or not after it, or the latest of these that changes the offset.
pub fn prev_transition(
    zone: &ZoneData,
    second: i64,
    exact: bool,
    change: bool,
) -> Option<Transition>
    ensures { IsLawful zone.now → AnswersPrev zone.now second exact change result }
{
    prev_by::<Brand>(zone, second, exact, change, Blank::new(1))
}
