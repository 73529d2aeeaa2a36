//! Phrases over the civil dates, civil times and zoned datetimes of `jiff`.
ghost use Rattle.std.specs.Prelude.{◌≡◌, ◌≤◌, ◌<◌, ◌↔◌, ◌≤ℤ◌, pos, negsuc, IsTrue, IsSome, IfSome};
ghost use Rattle.civil.specs.Months.{moved_year, moved_month};
ghost use Rattle.jiff_core.specs.Calendar.{IsCivilDate};
ghost use Rattle.interim.specs.Inside.JiffBounds.{LiesIn};
ghost use Rattle.interim.specs.Jiff.{jiff_days, jiff_seconds, instant};

use crate::datetime::{Date, DateTime, Refused, Time};
use crate::laws::jiff_days_are_days;
use jiff::tz::TimeZone;
use jiff::{Timestamp, Zoned, civil};

#[cfg(test)]
mod tests;

// The day numbers of -9999-01-01 and 9999-12-31, the first and the last date of jiff (`civil::Date::MIN` and `MAX`).
const FIRST_DAY: i128 = -4_371_587;

const LAST_DAY: i128 = 2_932_896;

// The first and the last second of jiff's instants (`Timestamp::MIN` and `MAX`): 25:59:59, its greatest offset, inside of its days.
const FIRST_SECOND: i128 = -377_705_023_201;

const LAST_SECOND: i128 = 253_402_207_200;

// Whether jiff has the year, the year the month, and the month the day.
fn is_date(year: i32, month: u32, day: u32) -> bool
    ensures { IsTrue result ↔ IsCivilDate year month day }
{
    if year < -9999 || year > 9999 || month < 1 || month > 12 || day < 1 {
        return false;
    }
    day <= jiff_core::civil::days_in_month(year as i16, month as u8) as u32
}

// Whether jiff has the day of this number.
fn is_day(day: i128) -> bool
    ensures { IsTrue result ↔ LiesIn jiff_days day }
{
    FIRST_DAY <= day && day <= LAST_DAY
}

// Whether jiff has the instants of this second.
fn is_second(second: i128) -> bool
    ensures { IsTrue result ↔ LiesIn jiff_seconds second }
{
    FIRST_SECOND <= second && second <= LAST_SECOND
}

// The instant of a second with its nanoseconds, if jiff has it.
fn instant_at(second: i128, nanos: u32) -> Option<Timestamp>
    requires { nanos < 1000000000 }
    ensures there { IsSome result ↔ LiesIn jiff_seconds second }
    ensures value { IfSome result (λ t. t.nanosecond ≡ instant second nanos) }
{
    if !is_second(second) {
        return None;
    }
    Some(Timestamp::constant(second as i64, nanos as i32))
}

// The month so many months after a month of the calendar, with its year.
fn month_after(year: i16, month: u8, months: i32) -> (i32, u8)
    requires first { negsuc 9998 ≤ℤ year }
    requires last { year ≤ℤ pos 9999 }
    requires from { 1 ≤ month }
    requires to { month ≤ 12 }
    ensures year { result.0 ≡ moved_year year month months }
    ensures month { result.1 ≡ moved_month year month months }
    ensures in_year { (1 ≤ result.1) × (result.1 ≤ 12) }
    ensures bound { (negsuc 400000000 ≤ℤ result.0) × (result.0 ≤ℤ pos 400000000) }
{
    let number = 12 * year as i64 + (month - 1) as i64 + months as i64;
    (
        number.div_euclid(12) as i32,
        number.rem_euclid(12) as u8 + 1,
    )
}

impl Date for civil::Date {
    ghost use Rattle.std.specs.Prelude.{false, refl};
    ghost use Rattle.jiff_core.specs.Date.{epoch_day};
    ghost use Rattle.interim.specs.Jiff.{jiff_days};

    ghost number = { epoch_day };

    ghost calendar = { jiff_days };

    ghost memory = { false };

    fn from_ymd(year: i32, month: u32, day: u32) -> Result<civil::Date, Refused> {
        jiff_days_are_days();
        if !is_date(year, month, day) {
            return Err(Refused::OutOfRange);
        }
        Ok(civil::date(year as i16, month as i8, day as i8))
    }

    fn offset_months(self, months: i32) -> Result<civil::Date, Refused> {
        jiff_days_are_days();
        let date = self.to_plain();
        let (year, month) = month_after(date.year, date.month, months);
        if year < -9999 || year > 9999 {
            return Err(Refused::OutOfRange);
        }
        let cut = jiff_core::civil::Date::constrain(year as i16, month, date.day);
        Ok(civil::Date::from_plain(cut))
    }

    fn offset_days(self, days: i64) -> Result<civil::Date, Refused> {
        let date = self.to_plain();
        if !is_day(date.to_unix_epoch_day() as i128 + days as i128) {
            return Err(Refused::OutOfRange);
        }
        match date.checked_add(days) {
            Ok(moved) => Ok(civil::Date::from_plain(moved)),
            Err(_) => unreachable!(),
        }
    }

    fn year(&self) -> i32 {
        jiff_days_are_days();
        civil::Date::year(*self) as i32
    }

    fn weekday(&self) -> u8 {
        civil::Date::weekday(*self).to_monday_zero_offset() as u8
    }

    ghost ordered = { λ a b. refl };
}

impl Time for civil::Time {
    ghost use Rattle.std.specs.Prelude.{false};
    ghost use Rattle.jiff_core.specs.Time.{time_seconds};
    ghost use Rattle.interim.specs.Inside.Nanoseconds.{same_order};

    ghost time = { λ t. (time_seconds t, t.subsec_nanosecond) };

    ghost memory = { false };

    fn from_hms(h: u32, m: u32, s: u32) -> Result<civil::Time, Refused> {
        if h >= 24 || m >= 60 || s >= 60 {
            return Err(Refused::OutOfRange);
        }
        Ok(civil::time(h as i8, m as i8, s as i8, 0))
    }

    fn with_micros(self, ms: u32) -> Result<civil::Time, Refused> {
        if ms >= 1_000_000 {
            return Err(Refused::OutOfRange);
        }
        let second = self.to_plain().to_second();
        let time = jiff_core::civil::Time::from_second(second, 1000 * ms);
        Ok(civil::Time::from_plain(time))
    }

    ghost ordered = { λ a b. same_order (time_seconds a) (time_seconds b)
        a.subsec_nanosecond b.subsec_nanosecond a.subsec_in b.subsec_in };
}

impl<'a> DateTime for Zoned<'a> {
    ghost use Rattle.std.specs.Prelude.{false};
    ghost use Rattle.jiff.specs.ZoneView.{plain_zone};
    ghost use Rattle.jiff.specs.ZonedView.{plain_zoned, zoned_nanos};
    ghost use Rattle.interim.specs.Jiff.{jiff_seconds, second_of, fraction_of, ShowsBy, IsPlacedBy};

    type TimeZone = TimeZone<'a>;

    type Date = civil::Date;

    type Time = civil::Time;

    ghost moment = { λ z. (second_of (zoned_nanos z), fraction_of (zoned_nanos z)) };

    ghost zone = { λ z. record { inner = (plain_zoned z).time_zone } };

    ghost seconds = { jiff_seconds };

    ghost may_show = { λ zone s f w. ShowsBy (plain_zone zone) s f w };

    ghost may_place = { λ zone w f s. IsPlacedBy (plain_zone zone) w f s };

    ghost memory = { false };

    fn new(tz: TimeZone<'a>, date: civil::Date, time: civil::Time) -> Result<Zoned<'a>, Refused> {
        // Where the zone places the wall time, jiff alone tells.
        match date.to_datetime(time).to_zoned(tz) {
            Ok(moment) => Ok(moment),
            Err(_) => Err(Refused::OutOfRange),
        }
    }

    fn split(self) -> Result<(TimeZone<'a>, civil::Date, civil::Time), Refused> {
        Ok((self.time_zone(), self.date(), self.time()))
    }

    fn at_offset(
        tz: TimeZone<'a>,
        date: civil::Date,
        time: civil::Time,
        secs: i64,
    ) -> Result<Zoned<'a>, Refused> {
        let wall = date.to_datetime(time).to_plain();
        let shown = wall.to_second() as i128 - secs as i128;
        match instant_at(shown, wall.time.subsec_nanosecond) {
            Some(instant) => Ok(instant.to_zoned(tz)),
            None => Err(Refused::OutOfRange),
        }
    }

    fn offset_seconds(self, secs: i64) -> Result<Zoned<'a>, Refused> {
        let now = self.timestamp().as_nanosecond();
        let second = now.div_euclid(1_000_000_000) + secs as i128;
        match instant_at(second, now.rem_euclid(1_000_000_000) as u32) {
            Some(instant) => Ok(instant.to_zoned(self.time_zone())),
            None => Err(Refused::OutOfRange),
        }
    }

    ghost date_wants = { λ wants. wants };

    ghost time_wants = { λ wants. wants };
}
