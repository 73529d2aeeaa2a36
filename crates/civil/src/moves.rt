//! Dates moved by days, by months and by lengths of time.
ghost use Rattle.std.specs.Prelude.{◌≡◌, ◌≤◌, ◌↔◌, ℕ, ℤ, pos, neg_ℤ, ◌+ℤ◌, ◌-ℤ◌, ◌*ℤ◌, int_div, IsSome, IfSome};
ghost use Rattle.civil.specs.CivilDates.{IsDay, IsDateOf};
ghost use Rattle.civil.specs.Inside.Years.{IsYear};
ghost use Rattle.civil.specs.Delta.{IsWithin, day_nanos};
ghost use Rattle.civil.specs.Months.{months_on, moved_year, moved_month};

use crate::calendar::month_length;
use crate::date::{NaiveDate, year_month_day};
use crate::datetime::NaiveDateTime;
use crate::time::NaiveTime;
use crate::time_delta::TimeDelta;

// The month so many months after a month of the calendar, with its year.
fn month_after(year: i32, month: u32, months: i64) -> (i32, u32)
    requires year { IsYear year }
    requires from { 1 ≤ month }
    requires to { month ≤ 12 }
    requires months { IsWithin 4294967295 months }
    ensures year { result.0 ≡ moved_year year month months }
    ensures month { result.1 ≡ moved_month year month months }
    ensures in_year { (1 ≤ result.1) × (result.1 ≤ 12) }
{
    let number = 12 * year as i64 + (month - 1) as i64 + months;
    (
        number.div_euclid(12) as i32,
        number.rem_euclid(12) as u32 + 1,
    )
}

impl NaiveDate {
    ghost use Rattle.civil.specs.Times.{second_of_day, nanos_of_time, wall_of, nanos_of};

    /// The clock time on this day.
    pub fn and_time(&self, time: NaiveTime) -> NaiveDateTime
        ensures wall { wall_of result ≡ pos 86400 *ℤ self.now +ℤ pos (second_of_day time) }
        ensures nanos { nanos_of result ≡ nanos_of_time time }
    {
        NaiveDateTime::new(*self, time)
    }

    /// The next day; `None` exactly past the calendar's end.
    pub fn succ_opt(&self) -> Option<NaiveDate>
        ensures some { IsSome result ↔ IsDay (self.now +ℤ pos 1) }
        ensures value { IfSome result (λ date. date ≡ self.now +ℤ pos 1) }
    {
        self.checked_add_days(1)
    }

    /// The day before; `None` exactly past the calendar's end.
    pub fn pred_opt(&self) -> Option<NaiveDate>
        ensures some { IsSome result ↔ IsDay (self.now -ℤ pos 1) }
        ensures value { IfSome result (λ date. date ≡ self.now -ℤ pos 1) }
    {
        self.checked_add_days(-1)
    }

    /// The date so many days later, or earlier where they are below 0; `None` exactly past an end of the calendar.
    pub fn checked_add_days(self, days: i64) -> Option<NaiveDate>
        ensures some { IsSome result ↔ IsDay (self +ℤ days) }
        ensures value { IfSome result (λ date. date ≡ self +ℤ days) }
    {
        let day = self.day_number().checked_add(days)?;
        NaiveDate::from_day(day)
    }

    // The date so many months later, or earlier where they are below 0.
    fn moved_by_months(self, months: i64) -> Option<NaiveDate>
        requires { IsWithin 4294967295 months }
        ensures some { (y : ℤ) (m d : ℕ) → IsDateOf self y m d
            → IsSome result ↔ IsDay (months_on y m d months) }
        ensures value { (y : ℤ) (m d : ℕ) → IsDateOf self y m d
            → IfSome result (λ date. date ≡ months_on y m d months) }
    {
        let (year, month, day) = year_month_day(self.day_number());
        let (new_year, new_month) = month_after(year, month, months);
        let new_day = day.min(month_length(new_year, new_month));
        NaiveDate::from_ymd_opt(new_year, new_month, new_day)
    }

    /// The same day of the month so many months later, cut to that month's last day; `None` exactly past the calendar's end.
    pub fn checked_add_months(self, months: u32) -> Option<NaiveDate>
        ensures some { (y : ℤ) (m d : ℕ) → IsDateOf self y m d
            → IsSome result ↔ IsDay (months_on y m d (pos months)) }
        ensures value { (y : ℤ) (m d : ℕ) → IsDateOf self y m d
            → IfSome result (λ date. date ≡ months_on y m d (pos months)) }
    {
        self.moved_by_months(months as i64)
    }

    /// The same day of the month so many months earlier, cut to that month's last day; `None` exactly past the calendar's
    /// end.
    pub fn checked_sub_months(self, months: u32) -> Option<NaiveDate>
        ensures some { (y : ℤ) (m d : ℕ) → IsDateOf self y m d
            → IsSome result ↔ IsDay (months_on y m d (neg_ℤ (pos months))) }
        ensures value { (y : ℤ) (m d : ℕ) → IsDateOf self y m d
            → IfSome result (λ date. date ≡ months_on y m d (neg_ℤ (pos months))) }
    {
        self.moved_by_months(-(months as i64))
    }

    /// The date moved by the whole days of a length of time, cut towards zero; `None` exactly past an end of the calendar.
    pub fn checked_add_signed(self, rhs: TimeDelta) -> Option<NaiveDate>
        ensures some { IsSome result ↔ IsDay (self +ℤ int_div rhs (pos 86400000000000)) }
        ensures value { IfSome result (λ date. date ≡ self +ℤ int_div rhs (pos 86400000000000)) }
    {
        self.checked_add_days(rhs.num_days())
    }

    /// The date moved back by the whole days of a length of time, cut towards zero; `None` exactly past an end of the
    /// calendar.
    pub fn checked_sub_signed(self, rhs: TimeDelta) -> Option<NaiveDate>
        ensures some { IsSome result ↔ IsDay (self -ℤ int_div rhs (pos 86400000000000)) }
        ensures value { IfSome result (λ date. date ≡ self -ℤ int_div rhs (pos 86400000000000)) }
    {
        self.checked_add_days(-rhs.num_days())
    }

    /// The days from another date to this one, as a length of time.
    pub fn signed_duration_since(self, rhs: NaiveDate) -> TimeDelta
        ensures { result ≡ day_nanos (self -ℤ rhs) }
    {
        TimeDelta::days(self.day_number() - rhs.day_number())
    }
}
