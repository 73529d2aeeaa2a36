ghost use Rattle.tongues.specs.RomanceLanguages.{romanian};

use crate::counted::one_or_more;
use crate::language::{Language, Layout};
use crate::unit::TimeUnit;

/// Romanian.
#[derive(Clone, Copy, Default)]
pub struct Romanian;

impl Language for Romanian {
    ghost speech = { λ _. romanian };

    fn too_low(&self) -> &'static str {
        "acum"
    }

    fn too_high(&self) -> &'static str {
        "demult"
    }

    fn ago(&self) -> &'static str {
        "acum"
    }

    fn get_word(&self, tu: TimeUnit, x: u64) -> &'static str {
        match tu {
            TimeUnit::Nanoseconds => one_or_more(x, "nanosecundă", "nanosecunde"),
            TimeUnit::Microseconds => one_or_more(x, "microsecundă", "microsecunde"),
            TimeUnit::Milliseconds => one_or_more(x, "milisecundă", "milisecunde"),
            TimeUnit::Seconds => one_or_more(x, "secundă", "secunde"),
            TimeUnit::Minutes => one_or_more(x, "minut", "minute"),
            TimeUnit::Hours => one_or_more(x, "oră", "ore"),
            TimeUnit::Days => one_or_more(x, "zi", "zile"),
            TimeUnit::Weeks => one_or_more(x, "săptămână", "săptămâni"),
            TimeUnit::Months => one_or_more(x, "lună", "luni"),
            TimeUnit::Years => one_or_more(x, "an", "ani"),
        }
    }

    fn layout(&self, _x: u64) -> Layout {
        Layout {
            ago_before: true,
            ..Layout::usual()
        }
    }
}
