ghost use Rattle.std.specs.Prelude.{◌≡◌, ◌<◌, ◌↔◌, ℤ, pos, ◌+ℤ◌, ◌*ℤ◌, IsSome, IfSome};
ghost use Rattle.civil.specs.Clock.{IsWallSecond, wall_day, wall_clock};

use crate::{NaiveDate, NaiveTime};

const FIRST_SECOND: i64 = -8_334_601_228_800;

const LAST_SECOND: i64 = 8_210_266_876_799;

/// A day of the calendar with a clock time: a wall time.
///
/// It is seen as its wall second, which is 86,400 times the day number plus the second of the day, and its nanoseconds.
/// Wall times are ordered, equal and hashed by wall second, then nanoseconds.
#[derive(Clone, Copy, PartialEq, Eq, PartialOrd, Ord, Hash)]
pub struct NaiveDateTime {
    second: i64,
    nanos: u32,
    ghost in_calendar: { IsWallSecond second },
    ghost short: { nanos < 2000000000 },
}

impl NaiveDateTime {
    ghost use Rattle.civil.specs.Times.{second_of_day, nanos_of_time, wall_of, nanos_of};

    /// The clock time on the day.
    pub fn new(date: NaiveDate, time: NaiveTime) -> NaiveDateTime
        ensures wall { wall_of result ≡ pos 86400 *ℤ date +ℤ pos (second_of_day time) }
        ensures nanos { nanos_of result ≡ nanos_of_time time }
    {
        NaiveDateTime {
            second: date.day_number() * 86_400 + time.second_of_day() as i64,
            nanos: time.nanosecond(),
        }
    }

    /// The wall time of this wall second, with these nanoseconds.
    ///
    /// It is `None` exactly where the second is outside the calendar, or the nanoseconds are 2,000,000,000 or more.
    pub fn from_wall_second(second: i64, nanos: u32) -> Option<NaiveDateTime>
        ensures some { IsSome result ↔ IsWallSecond second × (nanos < 2000000000) }
        ensures wall { IfSome result (λ time. wall_of time ≡ second) }
        ensures nanos { IfSome result (λ time. nanos_of time ≡ nanos) }
    {
        if second < FIRST_SECOND || second > LAST_SECOND || nanos >= 2_000_000_000 {
            return None;
        }
        Some(NaiveDateTime { second, nanos })
    }

    /// The wall second.
    pub fn wall_second(&self) -> i64
        ensures value { result ≡ wall_of self.now }
        ensures bound { IsWallSecond result }
    {
        self.second
    }

    /// The nanoseconds: below 1,000,000,000, but in a leap second.
    pub fn nanosecond(&self) -> u32
        ensures value { result ≡ nanos_of self.now }
        ensures bound { result < 2000000000 }
    {
        self.nanos
    }

    /// The day.
    #[tactic(auto, unfolding(crate::specs::Clock::wall_day))]
    pub fn date(&self) -> NaiveDate
        ensures { result ≡ wall_day (wall_of self.now) }
    {
        NaiveDate::from_day(self.second.div_euclid(86_400)).unwrap()
    }

    /// The clock time.
    pub fn time(&self) -> NaiveTime
        ensures second { second_of_day result ≡ wall_clock (wall_of self.now) }
        ensures nanos { nanos_of_time result ≡ nanos_of self.now }
    {
        NaiveTime::at(self.second.rem_euclid(86_400) as u32, self.nanos)
    }

    /// The wall time so many seconds later, or earlier where they are below 0, with the same nanoseconds.
    ///
    /// It is `None` exactly where its second is outside the calendar.
    pub fn moved(self, secs: i64) -> Option<NaiveDateTime>
        ensures some { IsSome result ↔ IsWallSecond (wall_of self +ℤ secs) }
        ensures wall { IfSome result (λ time. wall_of time ≡ wall_of self +ℤ secs) }
        ensures nanos { IfSome result (λ time. nanos_of time ≡ nanos_of self) }
    {
        let second = self.second.checked_add(secs)?;
        NaiveDateTime::from_wall_second(second, self.nanos)
    }
}
