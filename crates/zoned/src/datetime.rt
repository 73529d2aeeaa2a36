ghost use Rattle.std.specs.Prelude.{◌≡◌, ◌<◌, ◌%◌, ◌↔◌, ℤ, pos, ◌+ℤ◌, ◌-ℤ◌, IsSome, IfSome};
ghost use Rattle.std.specs.Int.{int_div_euclid};
ghost use Rattle.civil.specs.Clock.{IsWallSecond, IsFraction, wall_clock};
ghost use Rattle.civil.specs.Delta.{IsWithin, second_nanos};
ghost use Rattle.civil.specs.Times.{wall_of, nanos_of};

use crate::offset::{Offset, TimeZone};
use crate::utc::Utc;
use civil::{NaiveDateTime, TimeDelta};
use std::marker::PhantomData;

const NANOS: i64 = 1_000_000_000;

/// A moment, with the offset of a zone.
///
/// Callers write `DateTime<Tz>`. It holds the time in UTC, and its wall time is that plus the offset.
#[derive(Clone, Copy)]
pub struct DateTime<Tz: TimeZone, O: Offset = <Tz as TimeZone>::Offset> {
    datetime: NaiveDateTime,
    offset: O,
    zone: PhantomData<Tz>,
}

// Seconds and nanoseconds as whole seconds and a fraction.
fn carried(seconds: i64, nanos: i64) -> (i64, u32)
    requires seconds { IsWithin 10000000000000000 seconds }
    requires nanos { IsWithin 4000000000 nanos }
    ensures whole { second_nanos result.0 +ℤ pos result.1 ≡ second_nanos seconds +ℤ nanos }
    ensures fraction { result.1 < 1000000000 }
{
    (
        seconds + nanos.div_euclid(NANOS),
        nanos.rem_euclid(NANOS) as u32,
    )
}

impl DateTime<Utc> {
    ghost use Rattle.zoned.specs.Moment.{second_of, fraction_of};

    /// The moment of this second and these nanoseconds since 1970-01-01 00:00:00 UTC.
    ///
    /// It is `None` exactly in three cases: the second is outside the calendar; the nanoseconds are 2,000,000,000 or more; or
    /// they are 1,000,000,000 or more and the second of the minute is not 59.
    pub fn from_timestamp(secs: i64, nsecs: u32) -> Option<DateTime<Utc>>
        ensures some { IsSome result
            ↔ IsWallSecond secs × IsFraction (wall_clock secs % 60) nsecs }
        ensures second { IfSome result (λ d. second_of d ≡ secs) }
        ensures fraction { IfSome result (λ d. fraction_of d ≡ nsecs) }
    {
        let datetime = NaiveDateTime::from_wall_second(secs, nsecs)?;
        if nsecs >= 1_000_000_000 && datetime.time().second() != 59 {
            return None;
        }
        Some(Utc.from_utc_datetime(&datetime))
    }
}

impl<Tz: TimeZone> DateTime<Tz> {
    ghost use Rattle.zoned.specs.Moment.{second_of, fraction_of, offset_of, nanos_since_epoch};

    /// The moment of a time in UTC, with this offset.
    pub fn from_naive_utc_and_offset(datetime: NaiveDateTime, offset: Tz::Offset) -> DateTime<Tz>
        ensures second { second_of result ≡ wall_of datetime }
        ensures fraction { fraction_of result ≡ nanos_of datetime }
        ensures offset { offset_of result ≡ offset }
    {
        DateTime {
            datetime,
            offset,
            zone: PhantomData,
        }
    }

    /// The seconds since 1970-01-01 00:00:00 UTC.
    pub fn timestamp(&self) -> i64
        ensures value { result ≡ second_of self.now }
        ensures bound { IsWallSecond result }
    {
        self.datetime.wall_second()
    }

    /// The nanoseconds since that second: below 1,000,000,000, but in a leap second.
    pub fn timestamp_subsec_nanos(&self) -> u32
        ensures value { result ≡ fraction_of self.now }
        ensures bound { result < 2000000000 }
    {
        self.datetime.nanosecond()
    }

    /// The time in UTC.
    pub fn naive_utc(&self) -> NaiveDateTime
        ensures wall { wall_of result ≡ second_of self.now }
        ensures nanos { nanos_of result ≡ fraction_of self.now }
    {
        self.datetime
    }

    /// The wall time, which has to be in the calendar.
    pub fn naive_local(&self) -> NaiveDateTime
        requires { IsWallSecond (second_of self.now +ℤ Tz.Offset.seconds (offset_of self.now)) }
        ensures wall { wall_of result
            ≡ second_of self.now +ℤ Tz.Offset.seconds (offset_of self.now) }
        ensures nanos { nanos_of result ≡ fraction_of self.now }
    {
        let seconds = self.offset.fix().local_minus_utc();
        self.datetime.moved(seconds as i64).unwrap()
    }

    /// The offset.
    pub fn offset(&self) -> &Tz::Offset
        ensures { result.now ≡ offset_of self.now }
    {
        &self.offset
    }

    /// The zone of the offset.
    pub fn timezone(&self) -> Tz
        ensures { result ≡ Tz.zone_of (offset_of self.now) }
    {
        Tz::from_offset(&self.offset)
    }

    /// The same moment in another zone.
    pub fn with_timezone<Tz2: TimeZone>(&self, tz: &Tz2) -> DateTime<Tz2>
        ensures second { second_of result ≡ second_of self.now }
        ensures fraction { fraction_of result ≡ fraction_of self.now }
        ensures zone { Tz2.zone_of (offset_of result) ≡ tz.now }
        ensures offset { Tz2.sound tz.now
            → Tz2.Offset.seconds (offset_of result) ≡ Tz2.off tz.now (second_of result) }
    {
        tz.from_utc_datetime(&self.datetime)
    }

    /// The moment so much later, or earlier, with its zone's offset there; `None` exactly where its second is outside the
    /// calendar.
    ///
    /// Nanoseconds of 1,000,000,000 and more count at their value: a leap second is the second after it.
    pub fn checked_add_signed(self, rhs: TimeDelta) -> Option<DateTime<Tz>>
        ensures some { IsSome result
            ↔ IsWallSecond (int_div_euclid (nanos_since_epoch self +ℤ rhs) (pos 1000000000)) }
        ensures moved { IfSome result (λ d. nanos_since_epoch d ≡ nanos_since_epoch self +ℤ rhs) }
        ensures fraction { IfSome result (λ d. fraction_of d < 1000000000) }
        ensures zone { IfSome result
            (λ d. Tz.zone_of (offset_of d) ≡ Tz.zone_of (offset_of self)) }
        ensures offset { Tz.sound (Tz.zone_of (offset_of self))
            → IfSome result
            (λ d. Tz.Offset.seconds (offset_of d)
            ≡ Tz.off (Tz.zone_of (offset_of self)) (second_of d)) }
    {
        let seconds = self.timestamp() + rhs.num_seconds();
        let nanos = self.timestamp_subsec_nanos() as i64 + rhs.subsec_nanos() as i64;
        let (second, fraction) = carried(seconds, nanos);
        match NaiveDateTime::from_wall_second(second, fraction) {
            Some(datetime) => Some(self.timezone().from_utc_datetime(&datetime)),
            None => None,
        }
    }

    /// The time from another moment to this one. A leap second is the second after it.
    pub fn signed_duration_since<Tz2: TimeZone>(self, rhs: DateTime<Tz2>) -> TimeDelta
        ensures { result ≡ nanos_since_epoch self -ℤ nanos_since_epoch rhs }
    {
        let seconds = self.timestamp() - rhs.timestamp();
        let nanos = self.timestamp_subsec_nanos() as i64 - rhs.timestamp_subsec_nanos() as i64;
        let (second, fraction) = carried(seconds, nanos);
        TimeDelta::new(second, fraction).unwrap()
    }
}
