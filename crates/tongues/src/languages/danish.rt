ghost use Rattle.tongues.specs.GermanicLanguages.{danish};

use crate::counted::one_or_more;
use crate::language::{Language, Layout};
use crate::unit::TimeUnit;

/// Danish.
#[derive(Clone, Copy, Default)]
pub struct Danish;

impl Language for Danish {
    ghost speech = { λ _. danish };

    fn too_low(&self) -> &'static str {
        "nu"
    }

    fn too_high(&self) -> &'static str {
        "gammel"
    }

    fn ago(&self) -> &'static str {
        "siden"
    }

    fn get_word(&self, tu: TimeUnit, x: u64) -> &'static str {
        match tu {
            TimeUnit::Nanoseconds => one_or_more(x, "nanosekund", "nanosekunder"),
            TimeUnit::Microseconds => one_or_more(x, "mikrosekund", "mikrosekunder"),
            TimeUnit::Milliseconds => one_or_more(x, "millisekund", "millisekunder"),
            TimeUnit::Seconds => one_or_more(x, "sekund", "sekunder"),
            TimeUnit::Minutes => one_or_more(x, "minut", "minutter"),
            TimeUnit::Hours => one_or_more(x, "time", "timer"),
            TimeUnit::Days => one_or_more(x, "dag", "dage"),
            TimeUnit::Weeks => one_or_more(x, "uge", "uger"),
            TimeUnit::Months => one_or_more(x, "måned", "måneder"),
            TimeUnit::Years => one_or_more(x, "år", "år"),
        }
    }

    fn layout(&self, _x: u64) -> Layout {
        Layout::usual()
    }
}
