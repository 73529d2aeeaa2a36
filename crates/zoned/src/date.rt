ghost use Rattle.std.specs.Prelude.{◌≡◌, ◌↔◌, ℕ, ℤ, pos, ◌+ℤ◌, ◌-ℤ◌, ◌*ℤ◌, ◌≤ℤ◌, int_div, IsSome, IfSome, IsTrue};
ghost use Rattle.civil.specs.CivilDates.{IsDay, IsDateOf};
ghost use Rattle.civil.specs.Ages.{years_between};
ghost use Rattle.civil.specs.Clock.{IsClock, IsFraction, clock_second};
ghost use Rattle.civil.specs.Delta.{day_nanos};
ghost use Rattle.civil.specs.Times.{second_of_day, nanos_of_time};

use crate::datetime::DateTime;
use crate::offset::{Offset, TimeZone};
use crate::utc::Utc;
use civil::{NaiveDate, NaiveTime, TimeDelta};
use std::marker::PhantomData;

/// A day of the calendar, with the offset of a zone.
///
/// Callers write `Date<Tz>`. Days are equal, ordered and hashed by the day alone, whatever their offsets: 2000-01-01 at +01:00
/// equals 2000-01-01 at -02:00. [`same_day`](Date::same_day) compares days of two kinds of zone.
#[derive(Clone, Copy)]
#[derive_where(PartialEq, Eq, PartialOrd, Ord, Hash)]
pub struct Date<Tz: TimeZone, O: Offset = <Tz as TimeZone>::Offset> {
    date: NaiveDate,
    #[derive_where(skip)]
    offset: O,
    #[derive_where(skip)]
    zone: PhantomData<Tz>,
}

impl<Tz: TimeZone> Date<Tz> {
    ghost use Rattle.zoned.specs.Days.{day_number, date_offset};

    /// The day, with this offset. Whether the offset is one of a zone on that day is not looked at.
    pub fn from_utc(date: NaiveDate, offset: Tz::Offset) -> Date<Tz>
        ensures day { day_number result ≡ date }
        ensures offset { date_offset result ≡ offset }
    {
        Date {
            date,
            offset,
            zone: PhantomData,
        }
    }

    /// The next day, with the same offset; `None` exactly past the calendar's end, as after [`max_utc`](Date::max_utc).
    pub fn succ_opt(&self) -> Option<Date<Tz>>
        ensures some { IsSome result ↔ IsDay (day_number self.now +ℤ pos 1) }
        ensures day { IfSome result (λ d. day_number d ≡ day_number self.now +ℤ pos 1) }
        ensures offset { IfSome result (λ d. date_offset d ≡ date_offset self.now) }
    {
        let date = self.date.succ_opt()?;
        Some(Date::from_utc(date, self.offset))
    }

    /// The day before, with the same offset; `None` exactly past the calendar's end, as before [`min_utc`](Date::min_utc).
    pub fn pred_opt(&self) -> Option<Date<Tz>>
        ensures some { IsSome result ↔ IsDay (day_number self.now -ℤ pos 1) }
        ensures day { IfSome result (λ d. day_number d ≡ day_number self.now -ℤ pos 1) }
        ensures offset { IfSome result (λ d. date_offset d ≡ date_offset self.now) }
    {
        let date = self.date.pred_opt()?;
        Some(Date::from_utc(date, self.offset))
    }

    /// The next day, which the calendar has to have, with the same offset.
    pub fn succ(&self) -> Date<Tz>
        requires { IsDay (day_number self.now +ℤ pos 1) }
        ensures day { day_number result ≡ day_number self.now +ℤ pos 1 }
        ensures offset { date_offset result ≡ date_offset self.now }
    {
        self.succ_opt().unwrap()
    }

    /// The day before, which the calendar has to have, with the same offset.
    pub fn pred(&self) -> Date<Tz>
        requires { IsDay (day_number self.now -ℤ pos 1) }
        ensures day { day_number result ≡ day_number self.now -ℤ pos 1 }
        ensures offset { date_offset result ≡ date_offset self.now }
    {
        self.pred_opt().unwrap()
    }

    /// The offset.
    pub fn offset(&self) -> &Tz::Offset
        ensures { result.now ≡ date_offset self.now }
    {
        &self.offset
    }

    /// The zone of the offset.
    pub fn timezone(&self) -> Tz
        ensures { result ≡ Tz.zone_of (date_offset self.now) }
    {
        Tz::from_offset(&self.offset)
    }

    /// The same day in another zone, with its offset at midnight of the day in UTC. The day stays: 2000-01-01 in UTC is
    /// `2000-01-01-02:00` at -02:00.
    pub fn with_timezone<Tz2: TimeZone>(&self, tz: &Tz2) -> Date<Tz2>
        ensures day { day_number result ≡ day_number self.now }
        ensures zone { Tz2.zone_of (date_offset result) ≡ tz.now }
        ensures offset { Tz2.sound tz.now
            → Tz2.Offset.seconds (date_offset result)
            ≡ Tz2.off tz.now (pos 86400 *ℤ day_number result) }
    {
        tz.from_utc_date(&self.date)
    }

    /// The day moved by the whole days of a length of time, cut towards zero, with the same offset; `None` exactly past an
    /// end of the calendar. 2000-01-01 and 5 days and 23 hours are 2000-01-06.
    pub fn checked_add_signed(self, rhs: TimeDelta) -> Option<Date<Tz>>
        ensures some { IsSome result
            ↔ IsDay (day_number self +ℤ int_div rhs (pos 86400000000000)) }
        ensures day { IfSome result
            (λ d. day_number d ≡ day_number self +ℤ int_div rhs (pos 86400000000000)) }
        ensures offset { IfSome result (λ d. date_offset d ≡ date_offset self) }
    {
        let date = self.date.checked_add_signed(rhs)?;
        Some(Date::from_utc(date, self.offset))
    }

    /// The day moved back by the whole days of a length of time, cut towards zero, with the same offset; `None` exactly past
    /// an end of the calendar.
    pub fn checked_sub_signed(self, rhs: TimeDelta) -> Option<Date<Tz>>
        ensures some { IsSome result
            ↔ IsDay (day_number self -ℤ int_div rhs (pos 86400000000000)) }
        ensures day { IfSome result
            (λ d. day_number d ≡ day_number self -ℤ int_div rhs (pos 86400000000000)) }
        ensures offset { IfSome result (λ d. date_offset d ≡ date_offset self) }
    {
        let date = self.date.checked_sub_signed(rhs)?;
        Some(Date::from_utc(date, self.offset))
    }

    /// The days from another day to this one, as a length of time of whole days; it is below 0 where the other day is later.
    /// From 2000-01-01 to 2000-01-06 they are 5, whatever the zones.
    pub fn signed_duration_since<Tz2: TimeZone>(self, rhs: Date<Tz2>) -> TimeDelta
        ensures { result ≡ day_nanos (day_number self -ℤ day_number rhs) }
    {
        self.date.signed_duration_since(rhs.naive_utc())
    }

    /// The day.
    pub fn naive_utc(&self) -> NaiveDate
        ensures { result ≡ day_number self.now }
    {
        self.date
    }

    /// The day, which is also the local one.
    pub fn naive_local(&self) -> NaiveDate
        ensures { result ≡ day_number self.now }
    {
        self.date
    }

    /// The whole years since another day, as of [`NaiveDate`]; `None` exactly where they are below 0. From 2000-01-01 to
    /// 2000-01-02 there are 0, and the other way `None`.
    pub fn years_since(&self, base: Date<Tz>) -> Option<u32>
        ensures some { (y : ℤ) (m d : ℕ) (y' : ℤ) (m' d' : ℕ)
            → IsDateOf (day_number self.now) y m d → IsDateOf (day_number base) y' m' d'
            → IsSome result ↔ pos 0 ≤ℤ years_between y m d y' m' d' }
        ensures value { (y : ℤ) (m d : ℕ) (y' : ℤ) (m' d' : ℕ)
            → IsDateOf (day_number self.now) y m d → IsDateOf (day_number base) y' m' d'
            → IfSome result (λ years. pos years ≡ years_between y m d y' m' d') }
    {
        self.date.years_since(base.date)
    }

    /// Whether both are the same day, whatever their zones. 2000-01-01 in UTC and 2000-01-01 at +01:00 are.
    pub fn same_day<Tz2: TimeZone>(&self, other: &Date<Tz2>) -> bool
        ensures { IsTrue result ↔ (day_number self.now ≡ day_number other.now) }
    {
        self.date == other.naive_utc()
    }
}

impl Date<Utc> {
    ghost use Rattle.std.specs.Prelude.{negsuc};
    ghost use Rattle.zoned.specs.Days.{day_number};

    /// The first day of the calendar, in UTC: `-262143-01-01UTC`.
    pub fn min_utc() -> Date<Utc>
        ensures { day_number result ≡ negsuc 96465291 }
    {
        Date::from_utc(NaiveDate::MIN, Utc)
    }

    /// The last day of the calendar, in UTC: `+262142-12-31UTC`.
    pub fn max_utc() -> Date<Utc>
        ensures { day_number result ≡ pos 95026236 }
    {
        Date::from_utc(NaiveDate::MAX, Utc)
    }

    /// The first day of the calendar, in UTC, as [`min_utc`](Date::min_utc).
    pub fn min_date() -> Date<Utc>
        ensures { day_number result ≡ negsuc 96465291 }
    {
        Date::min_utc()
    }

    /// The last day of the calendar, in UTC, as [`max_utc`](Date::max_utc).
    pub fn max_date() -> Date<Utc>
        ensures { day_number result ≡ pos 95026236 }
    {
        Date::max_utc()
    }
}
