//! Whole years between dates.
ghost use Rattle.std.specs.Prelude.{◌≡◌, ◌↔◌, ℕ, ℤ, pos, negsuc, ◌-ℤ◌, ◌≤ℤ◌, if◌then◌else◌, IsSome, IfSome};
ghost use Rattle.civil.specs.CivilDates.{IsDateOf};
ghost use Rattle.civil.specs.Ages.{is_before, years_between};

use crate::date::{NaiveDate, year_month_day};

// A month and day of a year come before those of another.
fn comes_before(month: u32, day: u32, base_month: u32, base_day: u32) -> bool
    ensures { result ≡ is_before month day base_month base_day }
{
    month < base_month || month == base_month && day < base_day
}

// The difference of two years, and one less where the first date comes before the second in its year.
fn years_from(year: i32, base_year: i32, before: bool) -> i64
    ensures value { result ≡ year -ℤ base_year -ℤ (if before then pos 1 else pos 0) }
    ensures low { negsuc 4294967296 ≤ℤ result }
    ensures high { result ≤ℤ pos 4294967295 }
{
    let years = year as i64 - base_year as i64;
    if before { years - 1 } else { years }
}

// Years that are not below 0.
fn count_of(years: i64) -> Option<u32>
    requires low { negsuc 4294967296 ≤ℤ years }
    requires high { years ≤ℤ pos 4294967295 }
    ensures some { IsSome result ↔ pos 0 ≤ℤ years }
    ensures value { IfSome result (λ count. pos count ≡ years) }
{
    if years < 0 { None } else { Some(years as u32) }
}

impl NaiveDate {
    /// The whole years since another date: the difference of the years, less one where month and day come before those of
    /// the other date. It is `None` exactly where that is below 0.
    ///
    /// From 2016-03-01 to 2020-02-29 they are 3, and the other way `None`.
    pub fn years_since(&self, base: NaiveDate) -> Option<u32>
        ensures some { (y : ℤ) (m d : ℕ) (y' : ℤ) (m' d' : ℕ) → IsDateOf self.now y m d
            → IsDateOf base y' m' d' → IsSome result ↔ pos 0 ≤ℤ years_between y m d y' m' d' }
        ensures value { (y : ℤ) (m d : ℕ) (y' : ℤ) (m' d' : ℕ) → IsDateOf self.now y m d
            → IsDateOf base y' m' d'
            → IfSome result (λ years. pos years ≡ years_between y m d y' m' d') }
    {
        let (year, month, day) = year_month_day(self.day_number());
        let (base_year, base_month, base_day) = year_month_day(base.day_number());
        let before = comes_before(month, day, base_month, base_day);
        count_of(years_from(year, base_year, before))
    }
}
