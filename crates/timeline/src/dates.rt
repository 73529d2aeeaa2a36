//! The dates of yearly rules, and the places of the days that they name.
ghost use Rattle.std.specs.Ordering.{int_eq};
ghost use Rattle.std.specs.Prelude.{◌≡◌, suc, ◌&&◌, ◌+◌, ◌<◌, ◌≤◌, if◌then◌else◌, ℤ, pos, negsuc, ◌+ℤ◌, ◌≤ℤ◌, Some, None, unsigned_abs};
ghost use Rattle.civil.specs.Calendar.{year_start, year_kind, days_of_months, weekday_of};
ghost use Rattle.timeline.specs.Zone.{DateRule, fits_i32, plain_rule};
ghost use Rattle.timeline.specs.RuleDays.{code_weekday, first_on, last_on};
ghost use Rattle.timeline.specs.Rule.{start_is_first};
ghost use Rattle.timeline.specs.Kinds.{place_in_kind};
ghost use Rattle.timeline.specs.Inside.KeptRules.{places_of, kept_rule};
ghost use Rattle.timeline.specs.DateNumbers.{day_code, date_of};
ghost use Rattle.timeline.specs.Equal.{same_date, same_rule};
ghost use Rattle.timeline.specs.Ranges.{least_28, greatest_28, IsDateInRange};

use crate::rule::{KindDate, TimeMode, YearRule};
use civil::days_before_month;
use civil::laws::example_years;
use std::marker::Model;

/// Which day of its month the day of a rule's date names. A weekday counts from Sunday, 0 to 6.
#[derive(Clone, Copy)]
pub enum DayRule {
    /// The day itself, 1 to 31.
    InMonth,
    /// That weekday, the first to the fifth of the month by the day.
    Nth(u32),
    /// That weekday: the first one from the day on, or the last one up to it where the day is below 0.
    Beside(u32),
}

impl DayRule {
    /// The rule that a weekday code stands for: 0 for the day itself, 1 to 7 for the weekdays that the day counts, Sunday
    /// first, and -1 to -7 for those that lie beside it.
    pub fn of_code(code: i32) -> DayRule
        ensures { day_code result ≡ code }
    {
        if code == 0 {
            DayRule::InMonth
        } else if code > 0 {
            DayRule::Nth(code.unsigned_abs() - 1)
        } else {
            DayRule::Beside(code.unsigned_abs() - 1)
        }
    }

    /// Whether two rules have the same code.
    fn is_same(self, other: DayRule) -> bool
        ensures { result ≡ int_eq (day_code self) (day_code other) }
    {
        match (self, other) {
            (DayRule::InMonth, DayRule::InMonth) => true,
            (DayRule::Nth(a), DayRule::Nth(b)) => a == b,
            (DayRule::Beside(a), DayRule::Beside(b)) => a == b,
            _ => false,
        }
    }
}

/// One of the two dates of a rule: its month, its day and which day that names, its seconds, and what these are counted by.
/// Its numbers are in range.
#[derive(Clone, Copy)]
pub struct RuleDate {
    month: u32,
    day: i32,
    rule: DayRule,
    seconds: u32,
    mode: TimeMode,
    ghost in_range: { IsDateInRange (date_of month day rule seconds mode) },
}

/// The dates of a rule, with the extra offset that its start adds.
#[derive(Clone, Copy)]
pub struct RuleDates {
    start: RuleDate,
    end: RuleDate,
    extra: i32,
}

/// A rule with the places of its dates in a year of each kind.
#[derive(Drop)]
pub struct PlacedDates {
    dates: RuleDates,
    start: [i16; 14],
    end: [i16; 14],
}

impl Model for PlacedDates {
    ghost use Rattle.timeline.specs.Zone.{RawRule};

    ghost Value = { RawRule };

    ghost use Rattle.timeline.specs.Inside.PlacedView.{raw_view, HasPlaces};

    ghost view = { raw_view };

    ghost invariant = { HasPlaces };
}

/// The rule of a zone: what tells its years, and its numbers as they were read, by which zones are compared.
#[derive(Drop)]
pub struct ZoneRule {
    dates: RuleDates,
    years: YearRule,
}

impl Model for ZoneRule {
    ghost use Rattle.timeline.specs.Zone.{PlainRule};

    ghost Value = { PlainRule };

    ghost use Rattle.timeline.specs.Inside.ZoneRuleView.{rule_view, HasYears};

    ghost view = { rule_view };

    ghost invariant = { HasYears };
}

/// The days of a year of this kind before a month, which counts from 0.
fn month_place(month: u32, kind: u8) -> u32
    requires { month < 12 }
    ensures value { (y : ℤ) → year_kind y ≡ kind → result ≡ days_of_months y month }
    ensures bound { result < 366 }
{
    let month = month as u8 + 1;
    if kind < 7 {
        // a common year
        return days_before_month(2001, month) as u32;
    }
    days_before_month(2000, month) as u32
}

/// The weekday so many days after 1 January of a year of this kind, with Monday 0.
fn weekday_at(place: u32, kind: u8) -> u32
    requires { place < 1000 }
    ensures value { (y : ℤ) → year_kind y ≡ kind
        → weekday_of (year_start y +ℤ pos place) ≡ pos result }
    ensures bound { result < 7 }
{
    (kind as u32 % 7 + place) % 7
}

/// The first place from this one on with a weekday.
fn first_from(weekday: u32, from: u32, kind: u8) -> u32
    requires weekday { weekday < 7 }
    requires from { from < 1000 }
    ensures value { (y : ℤ) → year_kind y ≡ kind
        → first_on 6 (pos weekday) (year_start y +ℤ pos from) ≡ year_start y +ℤ pos result }
    ensures bound { result ≤ from + 6 }
{
    from + (weekday + 7 - weekday_at(from, kind)) % 7
}

/// The last place up to this one with a weekday.
fn last_to(weekday: u32, to: u32, kind: u8) -> i32
    requires weekday { weekday < 7 }
    requires to { to < 1000 }
    ensures value { (y : ℤ) → year_kind y ≡ kind
        → last_on 6 (pos weekday) (year_start y +ℤ pos to) ≡ year_start y +ℤ result }
    ensures low { negsuc 5 ≤ℤ result }
    ensures high { result ≤ℤ pos to }
{
    to as i32 - ((weekday_at(to, kind) + 7 - weekday) % 7) as i32
}

/// A weekday that counts from Sunday, as one that counts from Monday.
fn from_monday(weekday: u32) -> u32
    ensures counted { pos result ≡ code_weekday (pos (suc weekday)) }
    ensures beside { pos result ≡ code_weekday (negsuc weekday) }
    ensures bound { result < 7 }
{
    (weekday % 7 + 6) % 7
}

/// The place of a date in a year of this kind.
fn place(month: u32, day: i32, rule: DayRule, kind: u8) -> i16
    requires month { month < 12 }
    requires some_day { 1 ≤ unsigned_abs day }
    requires last_day { unsigned_abs day ≤ 31 }
    requires kind { kind < 14 }
    ensures { (r : DateRule) → r.month ≡ month → r.day ≡ day → r.code ≡ day_code rule
        → result ≡ place_in_kind r kind }
{
    example_years();
    let first = month_place(month, kind);
    let anchor = first + day.unsigned_abs() - 1;
    match rule {
        DayRule::InMonth => anchor as i16,
        DayRule::Nth(weekday) => {
            (first_from(from_monday(weekday), first, kind) as i32 + 7 * (day - 1)) as i16
        }
        DayRule::Beside(weekday) => {
            if day > 0 {
                first_from(from_monday(weekday), anchor, kind) as i16
            } else {
                last_to(from_monday(weekday), anchor, kind) as i16
            }
        }
    }
}

impl RuleDate {
    ghost use Rattle.timeline.specs.DateView.{plain_date};

    /// A date of these three numbers, with which day its day names, and what its seconds are counted by.
    pub fn new(month: u32, day: i32, rule: DayRule, seconds: u32, mode: TimeMode) -> RuleDate
        requires { IsDateInRange (date_of month day rule seconds mode) }
        ensures { plain_date result ≡ date_of month day rule seconds mode }
    {
        RuleDate {
            month,
            day,
            rule,
            seconds,
            mode,
        }
    }

    /// Whether two dates have the same numbers.
    fn is_same(&self, other: &RuleDate) -> bool
        ensures { result ≡ same_date (plain_date self.now) (plain_date other.now) }
    {
        self.month == other.month
            && self.day == other.day
            && self.rule.is_same(other.rule)
            && self.seconds == other.seconds
            && self.mode.is_same(other.mode)
    }

    /// Its places in years of the 14 kinds.
    fn places(self) -> [i16; 14]
        ensures { result ≡ places_of (plain_date self) }
    {
        let mut places = [0; 14];
        for kind in 0..14 {
            places[kind] = place(self.month, self.day, self.rule, kind as u8);
        }
        places
    }
}

impl RuleDates {
    ghost use Rattle.timeline.specs.DateView.{plain_date, raw_of};

    /// The dates of a rule, with the extra offset that its start adds.
    pub fn new(start: RuleDate, end: RuleDate, extra: i32) -> RuleDates
        ensures { raw_of result
            ≡ record { start = plain_date start; end = plain_date end; extra = extra } }
    {
        RuleDates { start, end, extra }
    }

    /// Whether two rules have the same numbers.
    fn is_same(&self, other: &RuleDates) -> bool
        ensures { result
            ≡ (same_date (plain_date self.now.start) (plain_date other.now.start)
            && same_date (plain_date self.now.end) (plain_date other.now.end)
            && int_eq self.now.extra other.now.extra) }
    {
        self.start.is_same(&other.start)
            && self.end.is_same(&other.end)
            && self.extra == other.extra
    }

    /// Whether the start is a year's first transition.
    fn start_is_first(&self) -> bool
        ensures { (raw first_year : ℤ)
            → result ≡ start_is_first (plain_rule (raw_of self.now) raw first_year) }
    {
        if self.start.month == self.end.month {
            self.start.day.unsigned_abs() <= self.end.day.unsigned_abs()
        } else {
            self.start.month < self.end.month
        }
    }
}

impl PlacedDates {
    ghost use Rattle.timeline.specs.DateView.{raw_of};

    /// The dates with their places.
    pub fn new(dates: RuleDates) -> PlacedDates
        ensures { result ≡ raw_of dates }
    {
        PlacedDates {
            dates,
            start: dates.start.places(),
            end: dates.end.places(),
        }
    }
}

/// Whether two rules have the same standard offset and first year.
fn same_years(a: &YearRule, b: &YearRule) -> bool
    ensures { result ≡ (int_eq a.now.raw b.now.raw && int_eq a.now.first_year b.now.first_year) }
{
    let (raw, _) = a.offsets();
    let (other, _) = b.offsets();
    raw == other && a.first_year() == b.first_year()
}

impl ZoneRule {
    /// A rule in a zone of that standard offset, from that year on; `None` where its offset leaves 32 bits.
    pub fn from_dates(placed: &PlacedDates, raw: i32, first_year: i32) -> Option<ZoneRule>
        requires low { least_28 ≤ℤ first_year }
        requires high { first_year ≤ℤ greatest_28 }
        ensures { result
            ≡ (if fits_i32 (raw +ℤ placed.now.extra)
            then Some (plain_rule placed.now raw first_year) else None) }
    {
        let dates = placed.dates;
        raw.checked_add(dates.extra)?;
        let start = KindDate::new(placed.start, dates.start.seconds, dates.start.mode);
        let end = KindDate::new(placed.end, dates.end.seconds, dates.end.mode);
        let first = dates.start_is_first();
        Some(ZoneRule {
            dates,
            years: YearRule::new(start, end, dates.extra, raw, first, first_year),
        })
    }

    /// Whether two rules have the same numbers, the same standard offset and the same first year.
    pub fn is_same(&self, other: &ZoneRule) -> bool
        ensures { result ≡ same_rule self.now other.now }
    {
        self.dates.is_same(&other.dates) && same_years(&self.years, &other.years)
    }

    /// What tells its years.
    pub(crate) fn years(&self) -> &YearRule
        ensures { result.now ≡ kept_rule self.now }
    {
        &self.years
    }
}

#[cfg(test)]
mod tests {
    use super::*;
    use civil::{NaiveDate, days_before_year, year_kind};

    #[test]
    fn dates_have_places(rt: HostRuntime) {
        // a rule's month, day and code, and the month and the day on which it falls
        let rows: [(i32, u32, i32, i32, u32, u32); 8] = [
            (2025, 7, 3, 7, 8, 16),
            (2025, 2, 8, -1, 3, 9),
            (2025, 10, 1, -1, 11, 2),
            (2024, 2, -1, -1, 2, 25),
            (2023, 1, 29, 0, 3, 1),
            (2024, 1, 29, 0, 2, 29),
            (2025, 8, 5, 1, 10, 5),
            (2018, 0, -1, -2, 1, 1),
        ];
        for (year, month, day, code, month_of_year, day_of_month) in rows {
            assert!(rt; month < 12 && day.unsigned_abs() >= 1 && day.unsigned_abs() <= 31);
            let rule = DayRule::of_code(code);
            let number = days_before_year(year) + place(month, day, rule, year_kind(year)) as i64;
            let date = NaiveDate::from_ymd_opt(year, month_of_year, day_of_month);
            assert_eq!(rt;
                Some(number),
                date.map(|date| date.day_number()),
                "{year} {month}"
            );
        }
    }
}
