ghost use Rattle.tongues.specs.GermanicLanguages.{english};

use crate::counted::one_or_more;
use crate::language::{Language, Layout};
use crate::unit::TimeUnit;

/// English.
#[derive(Clone, Copy, Default)]
pub struct English;

impl Language for English {
    ghost speech = { λ _. english };

    fn too_low(&self) -> &'static str {
        "now"
    }

    fn too_high(&self) -> &'static str {
        "old"
    }

    fn ago(&self) -> &'static str {
        "ago"
    }

    fn get_word(&self, tu: TimeUnit, x: u64) -> &'static str {
        match tu {
            TimeUnit::Nanoseconds => one_or_more(x, "nanosecond", "nanoseconds"),
            TimeUnit::Microseconds => one_or_more(x, "microsecond", "microseconds"),
            TimeUnit::Milliseconds => one_or_more(x, "millisecond", "milliseconds"),
            TimeUnit::Seconds => one_or_more(x, "second", "seconds"),
            TimeUnit::Minutes => one_or_more(x, "minute", "minutes"),
            TimeUnit::Hours => one_or_more(x, "hour", "hours"),
            TimeUnit::Days => one_or_more(x, "day", "days"),
            TimeUnit::Weeks => one_or_more(x, "week", "weeks"),
            TimeUnit::Months => one_or_more(x, "month", "months"),
            TimeUnit::Years => one_or_more(x, "year", "years"),
        }
    }

    fn layout(&self, _x: u64) -> Layout {
        Layout::usual()
    }
}
