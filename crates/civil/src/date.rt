ghost use Rattle.std.specs.Prelude.{◌≡◌, ◌+◌, ◌-◌, ◌<◌, ◌≤◌, ◌↔◌, ℕ, ℤ, pos, ◌+ℤ◌, IsSome, IfSome};
ghost use Rattle.civil.specs.Calendar.{days_in_year, days_of_months, year_start, day_of, weekday_of};
ghost use Rattle.civil.specs.Changes.{GivesYear, GivesMonth, GivesDay, GivesOrdinal, SomeIffYear, SomeIffMonth, SomeIffDay, SomeIffOrdinal};
ghost use Rattle.civil.specs.CivilDates.{HoldsDay, IsDate, IsDay, IsDateOf};
ghost use Rattle.civil.specs.Inside.Years.{IsYear};
ghost use Rattle.civil.specs.Ordinals.{IsOrdinal, IsOrdinalOf, ordinal_day};
ghost use Rattle.civil.specs.Weeks.{IsWeekOf, week_year, week_number};
ghost use Rattle.civil.specs.Weekdays.{days_from_monday};

use crate::calendar::{days_before_month, days_before_year, is_leap, month_length, year_of_day};
use crate::iso_week::IsoWeek;
use crate::weekday::Weekday;
use std::marker::Model;

/// A day of the proleptic Gregorian calendar, from -262143-01-01 to +262142-12-31.
///
/// The calendar has a year 0, and a year is leap where 4 divides it and 100 does not, or where
/// 400 divides it. A date is seen as its day number: 0 for 1970-01-01, a Thursday, and one more
/// for each day after it. So dates are equal, ordered and hashed as their day numbers are.
#[derive(Clone, Copy, PartialEq, Eq, PartialOrd, Ord, Hash)]
pub struct NaiveDate {
    day: i32,
}

impl Model for NaiveDate {
    ghost Value = { ℤ };

    ghost view = { λ d. d.day };

    ghost invariant = { λ d. IsDay d.day };

    ghost inverse = { λ z. record { day = z } };
}

const FIRST_YEAR: i32 = -262_143;

const LAST_YEAR: i32 = 262_142;

impl NaiveDate {
    /// The first date, -262143-01-01: day -96,465,292.
    pub const MIN: NaiveDate = NaiveDate { day: -96_465_292 };

    /// The last date, +262142-12-31: day 95,026,236.
    pub const MAX: NaiveDate = NaiveDate { day: 95_026_236 };

    /// The date of this year, month (1 to 12) and day of the month (1 to 31).
    ///
    /// It is `None` exactly where the calendar has no such date: the year is not from -262143 to
    /// 262142, the month is not from 1 to 12, or the day is 0 or past the month's last day.
    pub fn from_ymd_opt(year: i32, month: u32, day: u32) -> Option<NaiveDate>
        ensures some { IsSome result ↔ IsDate year month day }
        ensures value { IfSome result (λ date. date ≡ day_of year month day) }
    {
        if year < FIRST_YEAR || year > LAST_YEAR || month < 1 || month > 12 {
            return None;
        }
        if day < 1 || day > month_length(year, month) {
            return None;
        }
        let number = days_before_year(year)
            + (days_before_month(year, month as u8) as u32 + (day - 1)) as i64;
        Some(NaiveDate { day: number as i32 })
    }

    /// The day number, in days since 1970-01-01, which is day 0: from -96,465,292 for
    /// [`MIN`](NaiveDate::MIN) to 95,026,236 for [`MAX`](NaiveDate::MAX).
    pub fn day_number(&self) -> i64
        ensures value { result ≡ self.now }
        ensures bound { IsDay result }
    {
        self.day as i64
    }

    /// The date of this day number; `None` exactly where it is below -96,465,292 or above 95,026,236.
    pub fn from_day(day: i64) -> Option<NaiveDate>
        ensures some { IsSome result ↔ IsDay day }
        ensures value { IfSome result (λ date. date ≡ day) }
    {
        if day < NaiveDate::MIN.day_number() || day > NaiveDate::MAX.day_number() {
            return None;
        }
        Some(NaiveDate { day: day as i32 })
    }
}

/// What has a year, a month and a day of the month.
///
/// A setter changes one part and keeps the others. It answers the changed date, and `None` exactly where the calendar has no
/// such date or the type does not take it: [`NaiveDate`] takes every date of the calendar. So no part of a date is cut to fit.
pub trait Datelike: Sized {
    /// The day number.
    ghost number: { Self → ℤ };

    /// Whether it is known which days a setter takes.
    ghost settled: { Self → Type 0 };

    /// Whether a setter takes the day of this number.
    ghost takes: { Self → ℤ → Type 0 };

    /// What a setter keeps of a value, beside the parts of its day.
    ghost keeps: { Self → Self → Type 0 };

    /// The year.
    fn year(&self) -> i32
        ensures { (m : ℕ) × (d : ℕ) × IsDateOf (number self.now) result m d };

    /// The month, from 1 for January to 12.
    fn month(&self) -> u32
        ensures { (y : ℤ) × (d : ℕ) × IsDateOf (number self.now) y result d };

    /// The day of the month, from 1.
    fn day(&self) -> u32
        ensures { (y : ℤ) × (m : ℕ) × IsDateOf (number self.now) y m result };

    /// The day of the year, from 1 to 365, or to 366 in a leap year. 2020-02-29 is day 60.
    fn ordinal(&self) -> u32
        ensures { (y : ℤ) × IsOrdinalOf (number self.now) y result };

    /// The day of the week.
    fn weekday(&self) -> Weekday
        ensures { pos (days_from_monday result) ≡ weekday_of (number self.now) };

    /// The week of ISO 8601, with the year that the week belongs to. 2021-01-03 is in week 53 of 2020.
    fn iso_week(&self) -> IsoWeek
        ensures { IsWeekOf (number self.now) (week_year result) (week_number result) };

    /// The date with this year. 2020-02-29 with the year 2016 is 2016-02-29, and with the year 2019 `None`.
    fn with_year(&self, year: i32) -> Option<Self>
        ensures same { IfSome result (λ date. keeps self.now date) }
        ensures value { GivesYear number year self.now result }
        ensures some { SomeIffYear number settled takes year self.now result };

    /// The date with this month, from 1 to 12. 2020-01-31 with month 3 is 2020-03-31, and with month 2 or 13 `None`.
    fn with_month(&self, month: u32) -> Option<Self>
        ensures same { IfSome result (λ date. keeps self.now date) }
        ensures value { GivesMonth number month self.now result }
        ensures some { SomeIffMonth number settled takes month self.now result };

    /// The date with this day of the month, from 1. 2020-02-01 with day 29 is 2020-02-29, and with day 30 or 0 `None`.
    fn with_day(&self, day: u32) -> Option<Self>
        ensures same { IfSome result (λ date. keeps self.now date) }
        ensures value { GivesDay number day self.now result }
        ensures some { SomeIffDay number settled takes day self.now result };

    /// The date with this day of the year, from 1. 2020-02-29 with day 366 is 2020-12-31; 2019-02-28 has none.
    fn with_ordinal(&self, ordinal: u32) -> Option<Self>
        ensures same { IfSome result (λ date. keeps self.now date) }
        ensures value { GivesOrdinal number ordinal self.now result }
        ensures some { SomeIffOrdinal number settled takes ordinal self.now result };

    /// The month, from 0 for January to 11 for December.
    final fn month0(&self) -> u32
        ensures { (y : ℤ) × (d : ℕ) × IsDateOf (number self.now) y (result + 1) d }
    {
        self.month() - 1
    }

    /// The day of the month, from 0 to 30.
    final fn day0(&self) -> u32
        ensures { (y : ℤ) × (m : ℕ) × IsDateOf (number self.now) y m (result + 1) }
    {
        self.day() - 1
    }

    /// The day of the year, from 0 to 364, or to 365 in a leap year.
    final fn ordinal0(&self) -> u32
        ensures { (y : ℤ) × IsOrdinalOf (number self.now) y (result + 1) }
    {
        self.ordinal() - 1
    }

    /// The date with this month, from 0 to 11. 2020-01-31 with month 2 is 2020-03-31.
    final fn with_month0(&self, month: u32) -> Option<Self>
        ensures same { IfSome result (λ date. keeps self.now date) }
        ensures value { GivesMonth number (month + 1) self.now result }
        ensures some { SomeIffMonth number settled takes (month + 1) self.now result }
    {
        if month >= 12 {
            None
        } else {
            self.with_month(month + 1)
        }
    }

    /// The date with this day of the month, from 0. 2020-02-01 with day 28 is 2020-02-29.
    final fn with_day0(&self, day: u32) -> Option<Self>
        ensures same { IfSome result (λ date. keeps self.now date) }
        ensures value { GivesDay number (day + 1) self.now result }
        ensures some { SomeIffDay number settled takes (day + 1) self.now result }
    {
        if day >= 31 {
            None
        } else {
            self.with_day(day + 1)
        }
    }

    /// The date with this day of the year, from 0. 2020-02-29 with day 365 is 2020-12-31.
    final fn with_ordinal0(&self, ordinal: u32) -> Option<Self>
        ensures same { IfSome result (λ date. keeps self.now date) }
        ensures value { GivesOrdinal number (ordinal + 1) self.now result }
        ensures some { SomeIffOrdinal number settled takes (ordinal + 1) self.now result }
    {
        if ordinal >= 366 {
            None
        } else {
            self.with_ordinal(ordinal + 1)
        }
    }
}

// The month of the day of a year that has so many days of the year before it.
fn month_at(year: i32, ordinal: u16) -> u8
    requires { ordinal < days_in_year year }
    ensures first { 1 ≤ result }
    ensures last { result ≤ 12 }
    ensures low { days_of_months year (result - 1) ≤ ordinal }
    ensures high { ordinal < days_of_months year result }
{
    // no month has more days than 32, and the months so far have together 32 days fewer at most
    let month = (ordinal / 32) as u8 + 1;
    if month < 12 && days_before_month(year, month + 1) <= ordinal {
        month + 1
    } else {
        month
    }
}

// The year of a day number.
fn year_in(day: i64) -> i32
    requires { IsDay day }
    ensures { HoldsDay result day }
{
    match year_of_day(day) {
        Some(year) => year,
        None => unreachable!(),
    }
}

// The days of the year before a day.
pub(crate) fn ordinal_in(year: i32, day: i64) -> u16
    requires { HoldsDay year day }
    ensures value { day ≡ year_start year +ℤ pos result }
    ensures bound { result < days_in_year year }
{
    (day - days_before_year(year)) as u16
}

// Year, month and day of a day number.
pub(crate) fn year_month_day(day: i64) -> (i32, u32, u32)
    requires { IsDay day }
    ensures { IsDateOf day result.0 result.1 result.2 }
{
    let year = year_in(day);
    let ordinal = ordinal_in(year, day);
    let month = month_at(year, ordinal);
    let day_of_month = ordinal - days_before_month(year, month) + 1;
    (year, month as u32, day_of_month as u32)
}

// The day of the year of a day number, from 1, with its year.
fn year_and_ordinal(day: i64) -> (i32, u32)
    requires { IsDay day }
    ensures place { IsOrdinalOf day result.0 result.1 }
    ensures year { IsYear result.0 }
{
    let year = year_in(day);
    (year, ordinal_in(year, day) as u32 + 1)
}

// The date of a day of a year, from 1; `None` exactly where the calendar has none.
fn date_of_ordinal(year: i32, ordinal: u32) -> Option<NaiveDate>
    requires { IsYear year }
    ensures some { IsSome result ↔ IsOrdinal year ordinal }
    ensures value { IfSome result (λ date. date ≡ ordinal_day year ordinal) }
{
    if ordinal < 1 || ordinal > year_length(year) {
        return None;
    }
    NaiveDate::from_day(days_before_year(year) + (ordinal - 1) as i64)
}

// The days of a year.
fn year_length(year: i32) -> u32
    ensures { result ≡ days_in_year year }
{
    if is_leap(year) { 366 } else { 365 }
}

impl Datelike for NaiveDate {
    ghost number = { λ d. d };

    ghost settled = { λ _. Unit {0} };

    ghost takes = { λ _ _. Unit {0} };

    ghost keeps = { λ _ _. Unit {0} };

    fn year(&self) -> i32 {
        year_month_day(self.day as i64).0
    }

    fn month(&self) -> u32 {
        year_month_day(self.day as i64).1
    }

    fn day(&self) -> u32 {
        year_month_day(self.day as i64).2
    }

    fn ordinal(&self) -> u32 {
        year_and_ordinal(self.day_number()).1
    }

    fn weekday(&self) -> Weekday {
        Weekday::from_monday((self.day as i64 + 3).rem_euclid(7) as u8)
    }

    fn iso_week(&self) -> IsoWeek {
        IsoWeek::of_day(self.day_number())
    }

    fn with_year(&self, year: i32) -> Option<NaiveDate> {
        let date = year_month_day(self.day_number());
        NaiveDate::from_ymd_opt(year, date.1, date.2)
    }

    fn with_month(&self, month: u32) -> Option<NaiveDate> {
        let date = year_month_day(self.day_number());
        NaiveDate::from_ymd_opt(date.0, month, date.2)
    }

    fn with_day(&self, day: u32) -> Option<NaiveDate> {
        let date = year_month_day(self.day_number());
        NaiveDate::from_ymd_opt(date.0, date.1, day)
    }

    fn with_ordinal(&self, ordinal: u32) -> Option<NaiveDate> {
        let date = year_and_ordinal(self.day_number());
        date_of_ordinal(date.0, ordinal)
    }
}
