ghost use Rattle.tongues.specs.GermanicLanguages.{swedish};

use crate::counted::one_or_more;
use crate::language::{Language, Layout};
use crate::unit::TimeUnit;

/// Swedish.
#[derive(Clone, Copy, Default)]
pub struct Swedish;

impl Language for Swedish {
    ghost speech = { λ _. swedish };

    fn too_low(&self) -> &'static str {
        "nu"
    }

    fn too_high(&self) -> &'static str {
        "gammal"
    }

    fn ago(&self) -> &'static str {
        "sedan"
    }

    fn get_word(&self, tu: TimeUnit, x: u64) -> &'static str {
        match tu {
            TimeUnit::Nanoseconds => one_or_more(x, "nanosekund", "nanosekunder"),
            TimeUnit::Microseconds => one_or_more(x, "mikrosekund", "mikrosekunder"),
            TimeUnit::Milliseconds => one_or_more(x, "millisekund", "millisekunder"),
            TimeUnit::Seconds => one_or_more(x, "sekund", "sekunder"),
            TimeUnit::Minutes => one_or_more(x, "minut", "minuter"),
            TimeUnit::Hours => one_or_more(x, "timme", "timmar"),
            TimeUnit::Days => one_or_more(x, "dag", "dagar"),
            TimeUnit::Weeks => one_or_more(x, "vecka", "veckor"),
            TimeUnit::Months => one_or_more(x, "månad", "månader"),
            TimeUnit::Years => one_or_more(x, "år", "år"),
        }
    }

    fn layout(&self, _x: u64) -> Layout {
        Layout::usual()
    }
}
