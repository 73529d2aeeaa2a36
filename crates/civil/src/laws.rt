ghost use Rattle.std.specs.Prelude.{◌≡◌, ℕ, ℤ, pos, negsuc};
ghost use Rattle.civil.specs.Calendar.{day_of};
ghost use Rattle.civil.specs.CivilDates.{IsDateOf, min_year, max_year};
ghost use Rattle.civil.specs.DateLaws.{MonthDaysAreDays, YearsHaveTheirDays};
ghost use Rattle.civil.specs.Dates.{date_text, ymd_text};
ghost use Rattle.civil.specs.Laws.{CountsYears, DatesAreDays, KindsOfYear, YearsRepeat};
ghost use Rattle.civil.specs.YearLaws.{ExampleYears};

use crate::date::NaiveDate;

/// Day numbers are counted year by year: day 0 begins the year 1970, and each year, also before
/// 1970, begins where the one before it ends.
pub fn counts_years()
    ensures { CountsYears }
{}

/// Dates and day numbers correspond one to one, in the same order: each date has a day number of
/// the calendar, an earlier date has a smaller one, and each day number is that of one date.
pub fn dates_are_days()
    ensures { DatesAreDays }
{}

/// Years of one kind, as `year_kind` tells it, have the same month lengths and the same weekday at the same place of the
/// year, and each of the 14 kinds occurs in any 400 years in a row.
pub fn kinds_of_year()
    ensures { KindsOfYear }
{}

/// The calendar repeats after 400 years, which are 146,097 days.
pub fn years_repeat()
    ensures { YearsRepeat }
{}

/// The text of a day number is its date: year, month and day.
pub fn dates_are_written()
    ensures { (day y : ℤ) (m d : ℕ) → IsDateOf day y m d → date_text day ≡ ymd_text y m d }
{}

/// The first and the last date, with their day numbers.
pub fn ends() -> (NaiveDate, NaiveDate)
    ensures first { result.0 ≡ negsuc 96465291 }
    ensures first_date { result.0 ≡ day_of min_year 1 1 }
    ensures last { result.1 ≡ pos 95026236 }
    ensures last_date { result.1 ≡ day_of max_year 12 31 }
{
    (NaiveDate::MIN, NaiveDate::MAX)
}

/// Each of the 14 kinds of year has a year of that kind from 2000 to 2024 as its example.
#[inline]
pub fn example_years()
    ensures { ExampleYears }
{}

/// From 1 January of a year to that of a later one, in the calendar or not, there are 365 or 366 days for each year.
#[inline]
pub fn years_have_their_days()
    ensures { YearsHaveTheirDays }
{}

/// The days of the months of all years have day numbers in their years, each its own, and it is a date of the calendar where the
/// calendar has its day.
#[inline]
pub fn month_days_are_days()
    ensures { MonthDaysAreDays }
{}
