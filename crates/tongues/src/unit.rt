ghost use Rattle.std.specs.Prelude.{◌≡◌};
ghost use Rattle.std.specs.Duration.{as_nanos};
ghost use Rattle.tongues.specs.Units.{unit_size, next_bigger, next_smaller};

use std::time::Duration;

/// A unit of time, from the smallest to the biggest.
#[derive(Clone, Copy, Debug, PartialEq, Eq, PartialOrd, Ord, Hash)]
pub enum TimeUnit {
    Nanoseconds,
    Microseconds,
    Milliseconds,
    Seconds,
    Minutes,
    Hours,
    Days,
    Weeks,
    Months,
    Years,
}

impl TimeUnit {
    /// The shortest distance that holds the unit: a week has 7 days, a month 2,628,003 seconds and a
    /// year 12 months.
    pub fn min_duration(&self) -> Duration
        ensures { as_nanos result ≡ unit_size self.now }
    {
        Duration::from_nanos(self.nanos())
    }

    /// The size of the unit in nanoseconds.
    pub fn nanos(&self) -> u64
        ensures { result ≡ unit_size self.now }
    {
        match self {
            TimeUnit::Nanoseconds => 1,
            TimeUnit::Microseconds => 1_000,
            TimeUnit::Milliseconds => 1_000_000,
            TimeUnit::Seconds => 1_000_000_000,
            TimeUnit::Minutes => 60_000_000_000,
            TimeUnit::Hours => 3_600_000_000_000,
            TimeUnit::Days => 86_400_000_000_000,
            TimeUnit::Weeks => 604_800_000_000_000,
            TimeUnit::Months => 2_628_003_000_000_000,
            TimeUnit::Years => 31_536_036_000_000_000,
        }
    }

    /// The next bigger unit, or `None` for years.
    pub fn bigger_unit(&self) -> Option<TimeUnit>
        ensures { result ≡ next_bigger self.now }
    {
        match self {
            TimeUnit::Nanoseconds => Some(TimeUnit::Microseconds),
            TimeUnit::Microseconds => Some(TimeUnit::Milliseconds),
            TimeUnit::Milliseconds => Some(TimeUnit::Seconds),
            TimeUnit::Seconds => Some(TimeUnit::Minutes),
            TimeUnit::Minutes => Some(TimeUnit::Hours),
            TimeUnit::Hours => Some(TimeUnit::Days),
            TimeUnit::Days => Some(TimeUnit::Weeks),
            TimeUnit::Weeks => Some(TimeUnit::Months),
            TimeUnit::Months => Some(TimeUnit::Years),
            TimeUnit::Years => None,
        }
    }

    /// The next smaller unit, or `None` for nanoseconds.
    pub fn smaller_unit(&self) -> Option<TimeUnit>
        ensures { result ≡ next_smaller self.now }
    {
        match self {
            TimeUnit::Nanoseconds => None,
            TimeUnit::Microseconds => Some(TimeUnit::Nanoseconds),
            TimeUnit::Milliseconds => Some(TimeUnit::Microseconds),
            TimeUnit::Seconds => Some(TimeUnit::Milliseconds),
            TimeUnit::Minutes => Some(TimeUnit::Seconds),
            TimeUnit::Hours => Some(TimeUnit::Minutes),
            TimeUnit::Days => Some(TimeUnit::Hours),
            TimeUnit::Weeks => Some(TimeUnit::Days),
            TimeUnit::Months => Some(TimeUnit::Weeks),
            TimeUnit::Years => Some(TimeUnit::Months),
        }
    }
}
