ghost use Rattle.std.specs.Duration.{as_nanos};
ghost use Rattle.std.specs.Prelude.{◌≡◌, ◌<◌, ◌↔◌, ℤ, pos, ◌+ℤ◌, ◌-ℤ◌, ◌≤ℤ◌, int_div, IsSome, IfSome, IsOk, IfOk};
ghost use Rattle.civil.specs.Delta.{IsWithin, IsDelta, second_nanos, minute_nanos, hour_nanos, day_nanos, week_nanos};

use crate::out_of_range::OutOfRange;
use std::marker::Model;
use std::time;

const MAX_NANOS: i128 = 9_223_372_036_854_775_807_000_000;

/// A length of time: a whole number of nanoseconds, whose size is at most 9,223,372,036,854,775,807 milliseconds.
///
/// It is seen as that number, and ordered, equal and hashed as it is.
#[derive(Clone, Copy, PartialEq, Eq, PartialOrd, Ord, Hash)]
pub struct TimeDelta {
    nanos: i128,
}

impl Model for TimeDelta {
    ghost Value = { ℤ };

    ghost view = { λ d. d.nanos };

    ghost invariant = { λ d. IsDelta d.nanos };

    ghost inverse = { λ z. record { nanos = z } };
}

/// The same under its shorter name.
pub type Duration = TimeDelta;

impl TimeDelta {
    // So many nanoseconds, where the range is kept.
    fn from_nanos(nanos: i128) -> Option<TimeDelta>
        ensures some { IsSome result ↔ IsDelta nanos }
        ensures value { IfSome result (λ delta. delta ≡ nanos) }
    {
        if nanos < -MAX_NANOS || nanos > MAX_NANOS {
            return None;
        }
        Some(TimeDelta { nanos })
    }

    /// So many seconds and nanoseconds.
    ///
    /// It is `None` exactly where the nanoseconds are 1,000,000,000 or more, or the range is left.
    pub fn new(secs: i64, nanos: u32) -> Option<TimeDelta>
        ensures some { IsSome result
            ↔ (nanos < 1000000000) × IsDelta (second_nanos secs +ℤ pos nanos) }
        ensures value { IfSome result (λ delta. delta ≡ second_nanos secs +ℤ pos nanos) }
    {
        if nanos >= 1_000_000_000 {
            return None;
        }
        TimeDelta::from_nanos(1_000_000_000 * secs as i128 + nanos as i128)
    }

    /// So many seconds; `None` exactly where the range is left.
    pub fn try_seconds(n: i64) -> Option<TimeDelta>
        ensures some { IsSome result ↔ IsDelta (second_nanos n) }
        ensures value { IfSome result (λ delta. delta ≡ second_nanos n) }
    {
        TimeDelta::from_nanos(1_000_000_000 * n as i128)
    }

    /// So many minutes; `None` exactly where the range is left.
    pub fn try_minutes(n: i64) -> Option<TimeDelta>
        ensures some { IsSome result ↔ IsDelta (minute_nanos n) }
        ensures value { IfSome result (λ delta. delta ≡ minute_nanos n) }
    {
        TimeDelta::from_nanos(60_000_000_000 * n as i128)
    }

    /// So many hours; `None` exactly where the range is left.
    pub fn try_hours(n: i64) -> Option<TimeDelta>
        ensures some { IsSome result ↔ IsDelta (hour_nanos n) }
        ensures value { IfSome result (λ delta. delta ≡ hour_nanos n) }
    {
        TimeDelta::from_nanos(3_600_000_000_000 * n as i128)
    }

    /// So many days of 24 hours; `None` exactly where the range is left.
    pub fn try_days(n: i64) -> Option<TimeDelta>
        ensures some { IsSome result ↔ IsDelta (day_nanos n) }
        ensures value { IfSome result (λ delta. delta ≡ day_nanos n) }
    {
        TimeDelta::from_nanos(86_400_000_000_000 * n as i128)
    }

    /// So many weeks; `None` exactly where the range is left.
    pub fn try_weeks(n: i64) -> Option<TimeDelta>
        ensures some { IsSome result ↔ IsDelta (week_nanos n) }
        ensures value { IfSome result (λ delta. delta ≡ week_nanos n) }
    {
        TimeDelta::from_nanos(604_800_000_000_000 * n as i128)
    }

    /// So many seconds. The range has to be kept.
    pub fn seconds(n: i64) -> TimeDelta
        requires { IsDelta (second_nanos n) }
        ensures { result ≡ second_nanos n }
    {
        TimeDelta::try_seconds(n).unwrap()
    }

    /// So many days of 24 hours. The range has to be kept.
    pub fn days(n: i64) -> TimeDelta
        requires { IsDelta (day_nanos n) }
        ensures { result ≡ day_nanos n }
    {
        TimeDelta::try_days(n).unwrap()
    }

    /// So many weeks. The range has to be kept.
    pub fn weeks(n: i64) -> TimeDelta
        requires { IsDelta (week_nanos n) }
        ensures { result ≡ week_nanos n }
    {
        TimeDelta::try_weeks(n).unwrap()
    }

    /// The whole seconds, cut towards zero.
    pub fn num_seconds(&self) -> i64
        ensures value { result ≡ int_div self.now (pos 1000000000) }
        ensures bound { IsWithin 9223372036854775 result }
    {
        (self.nanos / 1_000_000_000) as i64
    }

    /// The whole days of 24 hours, cut towards zero.
    pub fn num_days(&self) -> i64
        ensures value { result ≡ int_div self.now (pos 86400000000000) }
        ensures bound { IsWithin 106751991167 result }
    {
        (self.nanos / 86_400_000_000_000) as i64
    }

    /// The nanoseconds that [`num_seconds`](TimeDelta::num_seconds) leaves: below 0 for a negative length with a part of a
    /// second.
    pub fn subsec_nanos(&self) -> i32
        ensures value { result ≡ self.now -ℤ second_nanos (int_div self.now (pos 1000000000)) }
        ensures bound { IsWithin 999999999 result }
    {
        (self.nanos % 1_000_000_000) as i32
    }

    /// The same length as a length of std, to the nanosecond; `OutOfRange` exactly where it is below 0.
    ///
    /// 2.5 seconds are 2,500 milliseconds there, and -1 second is out of range.
    pub fn to_std(&self) -> Result<time::Duration, OutOfRange>
        ensures ok { IsOk result ↔ pos 0 ≤ℤ self.now }
        ensures value { IfOk result (λ length. pos (as_nanos length) ≡ self.now) }
    {
        if self.nanos < 0 {
            return Err(OutOfRange);
        }
        Ok(time::Duration::from_nanos_u128(self.nanos as u128))
    }
}
