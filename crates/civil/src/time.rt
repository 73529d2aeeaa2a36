ghost use Rattle.std.specs.Prelude.{◌≡◌, ◌*◌, ◌/◌, ◌%◌, ◌<◌, ◌↔◌, IsSome, IfSome};
ghost use Rattle.civil.specs.Clock.{IsClock, IsFraction, clock_second};

/// A clock time of a day, with nanoseconds.
///
/// The nanoseconds pass 999,999,999 in a leap second: one that follows the second 59 of a minute, whose number it keeps.
/// Times are ordered, equal and hashed by second of the day, then nanoseconds.
#[derive(Clone, Copy, PartialEq, Eq, PartialOrd, Ord, Hash)]
pub struct NaiveTime {
    second: u32,
    nanos: u32,
    ghost in_day: { second < 86400 },
    ghost short: { nanos < 2000000000 },
}

impl NaiveTime {
    ghost use Rattle.civil.specs.Times.{second_of_day, nanos_of_time};

    /// The time of this hour, minute and second.
    ///
    /// It is `None` exactly where the hour is past 23, or the minute or the second past 59.
    pub fn from_hms_opt(hour: u32, min: u32, sec: u32) -> Option<NaiveTime>
        ensures some { IsSome result ↔ IsClock hour min sec }
        ensures second { IfSome result (λ time. second_of_day time ≡ clock_second hour min sec) }
        ensures nanos { IfSome result (λ time. nanos_of_time time ≡ 0) }
    {
        NaiveTime::from_hms_nano_opt(hour, min, sec, 0)
    }

    /// The time of this hour, minute, second and nanosecond.
    ///
    /// It is `None` exactly where the hour is past 23, the minute or the second past 59, or the nanosecond 2,000,000,000
    /// or more, or 1,000,000,000 or more while the second is not 59.
    pub fn from_hms_nano_opt(hour: u32, min: u32, sec: u32, nano: u32) -> Option<NaiveTime>
        ensures some { IsSome result ↔ IsClock hour min sec × IsFraction sec nano }
        ensures second { IfSome result (λ time. second_of_day time ≡ clock_second hour min sec) }
        ensures nanos { IfSome result (λ time. nanos_of_time time ≡ nano) }
    {
        if hour > 23 || min > 59 || sec > 59 {
            return None;
        }
        if nano >= 2_000_000_000 || nano >= 1_000_000_000 && sec != 59 {
            return None;
        }
        Some(NaiveTime {
            second: 3600 * hour + 60 * min + sec,
            nanos: nano,
        })
    }

    /// The time of this hour, minute, second and millisecond.
    ///
    /// It is `None` exactly where [`from_hms_nano_opt`](NaiveTime::from_hms_nano_opt) is, with 1,000,000 nanoseconds for
    /// each millisecond: 23:59:59 and 1,999 is a time in a leap second, and 23:59:58 and 1,000 is none.
    pub fn from_hms_milli_opt(hour: u32, min: u32, sec: u32, milli: u32) -> Option<NaiveTime>
        ensures some { IsSome result ↔ IsClock hour min sec × IsFraction sec (1000000 * milli) }
        ensures second { IfSome result (λ time. second_of_day time ≡ clock_second hour min sec) }
        ensures nanos { IfSome result (λ time. nanos_of_time time ≡ 1000000 * milli) }
    {
        if milli >= 2_000 {
            return None;
        }
        NaiveTime::from_hms_nano_opt(hour, min, sec, 1_000_000 * milli)
    }

    /// The time of this hour, minute, second and microsecond.
    ///
    /// It is `None` exactly where [`from_hms_nano_opt`](NaiveTime::from_hms_nano_opt) is, with 1,000 nanoseconds for each
    /// microsecond: 23:59:59 and 1,999,999 is a time in a leap second, and 23:59:58 and 1,000,000 is none.
    pub fn from_hms_micro_opt(hour: u32, min: u32, sec: u32, micro: u32) -> Option<NaiveTime>
        ensures some { IsSome result ↔ IsClock hour min sec × IsFraction sec (1000 * micro) }
        ensures second { IfSome result (λ time. second_of_day time ≡ clock_second hour min sec) }
        ensures nanos { IfSome result (λ time. nanos_of_time time ≡ 1000 * micro) }
    {
        if micro >= 2_000_000 {
            return None;
        }
        NaiveTime::from_hms_nano_opt(hour, min, sec, 1_000 * micro)
    }

    // The time at this second of the day.
    pub(crate) fn at(second: u32, nanos: u32) -> NaiveTime
        requires in_day { second < 86400 }
        requires short { nanos < 2000000000 }
        ensures second { second_of_day result ≡ second }
        ensures nanos { nanos_of_time result ≡ nanos }
    {
        NaiveTime { second, nanos }
    }

    // The seconds since midnight.
    pub(crate) fn second_of_day(&self) -> u32
        ensures value { result ≡ second_of_day self.now }
        ensures bound { result < 86400 }
    {
        self.second
    }

    /// The hour, from 0 to 23.
    pub fn hour(&self) -> u32
        ensures { result ≡ second_of_day self.now / 3600 }
    {
        self.second / 3600
    }

    /// The minute, from 0 to 59.
    pub fn minute(&self) -> u32
        ensures { result ≡ second_of_day self.now / 60 % 60 }
    {
        self.second / 60 % 60
    }

    /// The second of the minute, from 0 to 59.
    pub fn second(&self) -> u32
        ensures { result ≡ second_of_day self.now % 60 }
    {
        self.second % 60
    }

    /// The nanosecond: below 1,000,000,000, but in a leap second.
    pub fn nanosecond(&self) -> u32
        ensures value { result ≡ nanos_of_time self.now }
        ensures bound { result < 2000000000 }
    {
        self.nanos
    }
}
