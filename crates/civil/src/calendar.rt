//! Years and months as day numbers.
ghost use Rattle.std.specs.Prelude.{◌≡◌, ◌+◌, ◌-◌, ◌*◌, ◌/◌, ◌<◌, ◌≤◌, ◌↔◌, ℤ, pos, negsuc, ◌+ℤ◌, ◌*ℤ◌, ◌≤ℤ◌, ◌<ℤ◌, IsSome, IfSome};
ghost use Rattle.civil.specs.Calendar.{is_leap_year, days_in_month, days_of_months, year_start, year_kind};
ghost use Rattle.civil.specs.CivilDates.{HoldsDay};
ghost use Rattle.civil.specs.Delta.{IsWithin};
ghost use Rattle.civil.specs.Inside.LeapDays.{leap_days_to};

// The day of a common year, from 0, on which each month begins.
const MONTH_STARTS: [u16; 12] = [0, 31, 59, 90, 120, 151, 181, 212, 243, 273, 304, 334];

// The first day of the year -2147483648, and the last one of 2147483647.
const FIRST_DAY: i64 = -784_353_015_833;

const LAST_DAY: i64 = 784_351_576_776;

pub(crate) fn is_leap(year: i32) -> bool
    ensures { result ≡ is_leap_year year }
{
    year % 4 == 0 && (year % 100 != 0 || year % 400 == 0)
}

pub(crate) fn month_length(year: i32, month: u32) -> u32
    ensures { result ≡ days_in_month year month }
{
    match month {
        2 => { if is_leap(year) { 29 } else { 28 } }
        4 | 6 | 9 | 11 => 30,
        _ => 31,
    }
}

// The leap days of the years up to this one, less those up to the year 0.
fn leap_days(years: i64) -> i64
    requires { IsWithin 3000000000 years }
    ensures { result ≡ leap_days_to years }
{
    years.div_euclid(4) - years.div_euclid(100) + years.div_euclid(400)
}

/// The day number of 1 January of a year, in days since 1970-01-01. Any year of 32 bits will do.
pub fn days_before_year(year: i32) -> i64
    ensures value { result ≡ year_start year }
    ensures bound { IsWithin 800000000000 result }
{
    let years = year as i64 - 1;
    365 * years + leap_days(years) - 719_162
}

/// The days of a year before a month, which counts from 1 to 12.
pub fn days_before_month(year: i32, month: u8) -> u16
    requires low { 1 ≤ month }
    requires high { month ≤ 12 }
    ensures value { result ≡ days_of_months year (month - 1) }
    ensures bound { result < 366 }
{
    let days = MONTH_STARTS[month as usize - 1];
    if month > 2 && is_leap(year) {
        days + 1
    } else {
        days
    }
}

// Of a day of 400 years that begin in the year 1, the whole years before it.
fn years_in_cycle(days: u32) -> u32
    requires { days < 146097 }
    ensures low { 365 * result + result / 4 ≤ days + result / 100 }
    ensures high { days + (result + 1) / 100
        < 365 * (result + 1) + (result + 1) / 4 + (result + 1) / 400 }
    ensures bound { result < 400 }
{
    let centuries = (days / 36_524).min(3);
    let in_century = days - 36_524 * centuries;
    let fours = in_century / 1_461;
    let in_four = in_century - 1_461 * fours;
    100 * centuries + 4 * fours + (in_four / 365).min(3)
}

// Whole cycles of 400 years since the year 1, and the days that are left over.
fn cycles(day: i64) -> (i64, u32)
    requires { IsWithin 1000000000000 day }
    ensures parts { (day +ℤ pos 719162) ≡ (pos 146097 *ℤ result.0 +ℤ pos result.1) }
    ensures bound { result.1 < 146097 }
{
    let days = day + 719_162;
    (days.div_euclid(146_097), days.rem_euclid(146_097) as u32)
}

// The year that holds a day.
fn year_near(day: i64) -> i64
    requires { IsWithin 1000000000000 day }
    ensures { HoldsDay result day }
{
    let (cycles, days) = cycles(day);
    400 * cycles + years_in_cycle(days) as i64 + 1
}

/// The year that holds a day, which is counted in days since 1970-01-01.
///
/// It is `None` exactly where that year is no `i32`.
pub fn year_of_day(day: i64) -> Option<i32>
    ensures some { IsSome result
        ↔ (year_start (negsuc 2147483647) ≤ℤ day) × (day <ℤ year_start (pos 2147483648)) }
    ensures year { IfSome result (λ year. HoldsDay year day) }
{
    if day < FIRST_DAY || day > LAST_DAY {
        return None;
    }
    Some(year_near(day) as i32)
}

/// The kind of a year: the weekday of 1 January, with Monday 0, and 7 more in a leap year. So it is from 0 to 13.
///
/// Years of one kind have the same month lengths and the same weekdays.
pub fn year_kind(year: i32) -> u8
    ensures value { result ≡ year_kind year }
    ensures bound { result < 14 }
{
    let weekday = (days_before_year(year) + 3).rem_euclid(7) as u8;
    if is_leap(year) { weekday + 7 } else { weekday }
}
