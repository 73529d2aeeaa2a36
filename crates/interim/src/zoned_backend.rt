//! Phrases over the dates, times and moments of `civil` and `zoned`.
ghost use Rattle.std.specs.Prelude.{◌≡◌, ◌↔◌, ℕ, ℤ, IsSome, IfSome};
ghost use Rattle.civil.specs.CivilDates.{IsDay, IsDateOf};
ghost use Rattle.civil.specs.Months.{months_on};

use crate::datetime::{Date, DateTime, Refused, Time};
use civil::laws::{dates_are_days, month_days_are_days};
use civil::{Datelike, NaiveDate, NaiveDateTime, NaiveTime};
use zoned::{Civil, Offset, TimeZone};

// The date so many months later, or earlier where they are below 0.
fn months_later(date: NaiveDate, months: i32) -> Option<NaiveDate>
    ensures some { (y : ℤ) (m d : ℕ) → IsDateOf date y m d →
        IsSome result ↔ IsDay (months_on y m d months) }
    ensures value { (y : ℤ) (m d : ℕ) → IsDateOf date y m d →
        IfSome result (λ r. r ≡ months_on y m d months) }
{
    let size = months.unsigned_abs();
    if months < 0 {
        date.checked_sub_months(size)
    } else {
        date.checked_add_months(size)
    }
}

impl Date for NaiveDate {
    ghost use Rattle.std.specs.Prelude.{false, refl};
    ghost use Rattle.interim.specs.Refusal.{civil_days};

    ghost number = { λ d. d };

    ghost calendar = { civil_days };

    ghost memory = { false };

    fn from_ymd(year: i32, month: u32, day: u32) -> Result<NaiveDate, Refused> {
        month_days_are_days();
        match NaiveDate::from_ymd_opt(year, month, day) {
            Some(date) => Ok(date),
            None => Err(Refused::OutOfRange),
        }
    }

    fn offset_months(self, months: i32) -> Result<NaiveDate, Refused> {
        dates_are_days();
        let _day = self.day_number();
        match months_later(self, months) {
            Some(date) => Ok(date),
            None => Err(Refused::OutOfRange),
        }
    }

    fn offset_days(self, days: i64) -> Result<NaiveDate, Refused> {
        match self.checked_add_days(days) {
            Some(date) => Ok(date),
            None => Err(Refused::OutOfRange),
        }
    }

    fn year(&self) -> i32 {
        Datelike::year(self)
    }

    fn weekday(&self) -> u8 {
        Datelike::weekday(self).num_days_from_monday() as u8
    }

    ghost ordered = { λ a b. refl };
}

impl Time for NaiveTime {
    ghost use Rattle.std.specs.Prelude.{false};
    ghost use Rattle.std.specs.Ordering.{nat_cmp};
    ghost use Rattle.interim.specs.Inside.Orders.{then_some};
    ghost use Rattle.civil.specs.Times.{second_of_day, nanos_of_time};

    ghost time = { λ t. (second_of_day t, nanos_of_time t) };

    ghost memory = { false };

    fn from_hms(h: u32, m: u32, s: u32) -> Result<NaiveTime, Refused> {
        match NaiveTime::from_hms_opt(h, m, s) {
            Some(time) => Ok(time),
            None => Err(Refused::OutOfRange),
        }
    }

    fn with_micros(self, ms: u32) -> Result<NaiveTime, Refused> {
        if ms >= 1_000_000 {
            return Err(Refused::OutOfRange);
        }
        match NaiveTime::from_hms_nano_opt(self.hour(), self.minute(), self.second(), 1000 * ms) {
            Some(time) => Ok(time),
            None => Err(Refused::OutOfRange),
        }
    }

    ghost ordered = { λ a b. then_some (nat_cmp a.second b.second) (nat_cmp a.nanos b.nanos) };
}

impl<Tz: Civil> DateTime for zoned::DateTime<Tz> {
    ghost use Rattle.std.specs.Prelude.{false};
    ghost use Rattle.interim.specs.Refusal.{civil_seconds};
    ghost use Rattle.zoned.specs.Moment.{second_of, fraction_of, offset_of};
    ghost use Rattle.interim.specs.Meaning.{ShowsIf, PlacesIf};

    type TimeZone = Tz;

    type Date = NaiveDate;

    type Time = NaiveTime;

    ghost moment = { λ d. (second_of d, fraction_of d) };

    ghost zone = { λ d. Tz.zone_of (offset_of d) };

    ghost seconds = { civil_seconds };

    ghost may_show = { λ zone s f w. ShowsIf (Tz.sound zone) (Tz.off zone) s f w };

    ghost may_place = { λ zone w f s. PlacesIf (Tz.sound zone) (Tz.off zone) w f s };

    ghost memory = { false };

    fn new(tz: Tz, date: NaiveDate, time: NaiveTime) -> Result<zoned::DateTime<Tz>, Refused> {
        match zoned::placed(&tz, &date.and_time(time)) {
            Some(moment) => Ok(moment),
            None => Err(Refused::OutOfRange),
        }
    }

    fn split(self) -> Result<(Tz, NaiveDate, NaiveTime), Refused> {
        let zone = self.timezone();
        let utc = self.naive_utc();
        let offset = zone.offset_from_utc_datetime(&utc);
        match utc.moved(offset.fix().local_minus_utc() as i64) {
            Some(wall) => Ok((zone, wall.date(), wall.time())),
            None => Err(Refused::OutOfRange),
        }
    }

    fn at_offset(
        tz: Tz,
        date: NaiveDate,
        time: NaiveTime,
        secs: i64,
    ) -> Result<zoned::DateTime<Tz>, Refused> {
        match zoned::placed_at_offset(&tz, &date.and_time(time), secs) {
            Some(moment) => Ok(moment),
            None => Err(Refused::OutOfRange),
        }
    }

    fn offset_seconds(self, secs: i64) -> Result<zoned::DateTime<Tz>, Refused> {
        match self.naive_utc().moved(secs) {
            Some(utc) => Ok(self.timezone().from_utc_datetime(&utc)),
            None => Err(Refused::OutOfRange),
        }
    }

    ghost date_wants = { λ wants. wants };

    ghost time_wants = { λ wants. wants };
}
