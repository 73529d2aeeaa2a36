ghost use Rattle.std.specs.Prelude.{◌≡◌};
ghost use Rattle.interim.specs.Parts.{clock, with_offset as offset_added};

use std::ops::Mul;

/// Which English a phrase is in.
///
/// It decides the order of day and month in `4/7`, and the week that `next friday` names.
#[derive(Clone, Copy, Debug, PartialEq, Eq)]
pub enum Dialect {
    /// Day before month; `next friday` is the Friday of next week.
    Uk,
    /// Month before day; `next friday` is the next Friday.
    Us,
}

/// Which one of the days that a name fits.
#[derive(Clone, Copy, Debug, PartialEq, Eq)]
pub enum Direction {
    Next,
    Last,
    Here,
}

/// An amount of time, back where it is below 0.
///
/// A day has not always the same number of seconds, nor a month the same number of days, so the three are kept apart.
#[derive(Clone, Copy, Debug, PartialEq, Eq)]
pub enum Interval {
    Seconds(i32),
    Days(i32),
    Months(i32),
}

/// So many times the interval, in the same unit. The product has to fit an `i32`.
impl Mul<i32> for Interval {
    ghost use Rattle.std.specs.Prelude.{◌≡◌};
    ghost use Rattle.interim.specs.Intervals.{ProductFits, scaled};

    type Output = Interval;

    ghost can_mul = { ProductFits };

    ghost mul_gives = { λ interval times product. product ≡ scaled interval times };

    fn mul(self, rhs: i32) -> Interval {
        match self {
            Interval::Seconds(n) => Interval::Seconds(n * rhs),
            Interval::Days(n) => Interval::Days(n * rhs),
            Interval::Months(n) => Interval::Months(n * rhs),
        }
    }
}

/// A date as it is written; the calendar need not have it.
#[derive(Clone, Copy, Debug)]
pub struct AbsDate {
    pub year: i32,
    pub month: u32,
    pub day: u32,
}

/// A date that is named, and that a base and a direction make one date.
#[derive(Clone, Copy, Debug)]
pub enum ByName {
    /// A day of the week, with Monday 0.
    WeekDay(u8),
    /// The first day of a month, with January 1.
    MonthName(u32),
    /// A day of a month.
    DayMonth { day: u32, month: u32 },
}

/// The date part of a phrase.
#[derive(Clone, Copy, Debug)]
pub enum DateSpec {
    Absolute(AbsDate),
    Relative(Interval),
    FromName(ByName, Direction),
}

/// The time part of a phrase, as it is written: a clock time, and perhaps its offset in seconds east of UTC.
///
/// An hour past 23 counts on into the following days; minute, second and microseconds need not be those of a clock.
#[derive(Clone, Copy, Debug)]
pub struct TimeSpec {
    pub hour: u32,
    pub min: u32,
    pub sec: u32,
    pub microsec: u32,
    pub offset: Option<i64>,
}

impl TimeSpec {
    /// A clock time with no written offset.
    pub fn new(hour: u32, min: u32, sec: u32, microsec: u32) -> TimeSpec
        ensures { result ≡ clock hour min sec microsec }
    {
        TimeSpec {
            hour,
            min,
            sec,
            microsec,
            offset: None,
        }
    }

    /// The same clock time with a written offset, in seconds east of UTC.
    pub fn with_offset(self, offset: i64) -> TimeSpec
        ensures { result ≡ offset_added self offset }
    {
        TimeSpec {
            hour: self.hour,
            min: self.min,
            sec: self.sec,
            microsec: self.microsec,
            offset: Some(offset),
        }
    }
}

/// The parts of a phrase.
#[derive(Clone, Copy, Debug)]
pub struct DateTimeSpec {
    pub date: Option<DateSpec>,
    pub time: Option<TimeSpec>,
}
