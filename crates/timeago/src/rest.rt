ghost use Rattle.std.specs.Prelude.{◌≡◌, ℕ, ◌+◌, ◌-◌, ◌*◌, ◌/◌, ◌%◌, ◌<◌, ◌≤◌, ◌^◌, ◌↔◌, IsTrue, min};
ghost use Rattle.std.specs.Duration.{as_nanos};
ghost use Rattle.tongues.specs.Units.{unit_size};
ghost use Rattle.timeago.specs.Counts.{biggest};
ghost use Rattle.timeago.specs.Inside.Steps.{count_in};

use std::marker::Model;
use std::time::Duration;
use tongues::TimeUnit;

const NANOS_PER_SECOND: u64 = 1_000_000_000;

/// What is left to tell of a distance, seen as nanoseconds: whole seconds, and the nanoseconds
/// beyond them.
#[derive(Drop)]
pub struct Rest {
    secs: u64,
    nanos: u64,
}

impl Model for Rest {
    ghost Value = { ℕ };

    ghost view = { λ r. r.secs * 1000000000 + r.nanos };

    ghost invariant = { λ r. r.nanos < 1000000000 };
}

impl Rest {
    /// The whole distance.
    pub fn new(distance: Duration) -> Rest
        ensures { result ≡ as_nanos distance }
    {
        Rest {
            secs: distance.as_secs(),
            nanos: u64::from(distance.subsec_nanos()),
        }
    }

    /// Whether more than the distance is left.
    pub fn is_above(&self, most: Duration) -> bool
        ensures { IsTrue result ↔ (as_nanos most < self.now) }
    {
        let secs = most.as_secs();
        self.secs > secs || self.secs == secs && self.nanos > u64::from(most.subsec_nanos())
    }

    /// Whether less than the unit is left.
    pub fn is_below(&self, unit: TimeUnit) -> bool
        ensures { IsTrue result ↔ (self.now < unit_size unit) }
    {
        if self.secs > 31_536_036 {
            return false;
        }
        self.secs * NANOS_PER_SECOND + self.nanos < unit.nanos()
    }

    /// The biggest unit of which there is one left, or nanoseconds.
    pub fn biggest_unit(&self) -> TimeUnit
        ensures { result ≡ biggest self.now }
    {
        match self.secs {
            31_536_036.. => TimeUnit::Years,
            2_628_003.. => TimeUnit::Months,
            604_800.. => TimeUnit::Weeks,
            86_400.. => TimeUnit::Days,
            3_600.. => TimeUnit::Hours,
            60.. => TimeUnit::Minutes,
            1.. => TimeUnit::Seconds,
            0 => biggest_below_second(self.nanos),
        }
    }

    /// How often the unit is left, up to `u64::MAX`, and what is left after it is taken so often.
    pub fn split(&self, unit: TimeUnit) -> (u64, Rest)
        ensures count { result.0 ≡ count_in unit self.now }
        ensures left { result.1 ≡ self.now - result.0 * unit_size unit }
    {
        match unit {
            TimeUnit::Nanoseconds => self.split_by_nanos(1),
            TimeUnit::Microseconds => self.split_by_nanos(1_000),
            TimeUnit::Milliseconds => self.split_by_nanos(1_000_000),
            TimeUnit::Seconds => self.split_by_secs(1),
            TimeUnit::Minutes => self.split_by_secs(60),
            TimeUnit::Hours => self.split_by_secs(3_600),
            TimeUnit::Days => self.split_by_secs(86_400),
            TimeUnit::Weeks => self.split_by_secs(604_800),
            TimeUnit::Months => self.split_by_secs(2_628_003),
            TimeUnit::Years => self.split_by_secs(31_536_036),
        }
    }

    fn split_by_secs(&self, size: u64) -> (u64, Rest)
        requires { 0 < size }
        ensures count { result.0 ≡ self.now / (size * 1000000000) }
        ensures left { result.1 ≡ self.now - result.0 * (size * 1000000000) }
    {
        let left = Rest {
            secs: self.secs % size,
            nanos: self.nanos,
        };
        (self.secs / size, left)
    }

    fn split_by_nanos(&self, size: u128) -> (u64, Rest)
        requires { 0 < size }
        ensures count { result.0 ≡ min (self.now / size) 18446744073709551615 }
        ensures left { result.1 ≡ self.now - result.0 * size }
    {
        let all = u128::from(self.secs) * 1_000_000_000 + u128::from(self.nanos);
        let count = (all / size).min(u128::from(u64::MAX));
        let left = all - count * size;
        let left = Rest {
            secs: (left / 1_000_000_000) as u64,
            nanos: (left % 1_000_000_000) as u64,
        };
        (count as u64, left)
    }
}

fn biggest_below_second(nanos: u64) -> TimeUnit
    requires { nanos < 1000000000 }
    ensures { result ≡ biggest nanos }
{
    match nanos {
        1_000_000.. => TimeUnit::Milliseconds,
        1_000.. => TimeUnit::Microseconds,
        _ => TimeUnit::Nanoseconds,
    }
}
