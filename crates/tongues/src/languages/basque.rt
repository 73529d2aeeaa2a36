ghost use Rattle.tongues.specs.Languages.{basque};

use crate::language::{Language, Layout};
use crate::unit::TimeUnit;

/// Basque.
#[derive(Clone, Copy, Default)]
pub struct Basque;

impl Language for Basque {
    ghost speech = { λ _. basque };

    fn too_low(&self) -> &'static str {
        "oraintxe bertan"
    }

    fn too_high(&self) -> &'static str {
        "zaharregi"
    }

    fn ago(&self) -> &'static str {
        "orain dela"
    }

    fn get_word(&self, tu: TimeUnit, _x: u64) -> &'static str {
        match tu {
            TimeUnit::Nanoseconds => "nanosegundo",
            TimeUnit::Microseconds => "mikrosegundo",
            TimeUnit::Milliseconds => "milisegundo",
            TimeUnit::Seconds => "segundo",
            TimeUnit::Minutes => "minutu",
            TimeUnit::Hours => "ordu",
            TimeUnit::Days => "egun",
            TimeUnit::Weeks => "aste",
            TimeUnit::Months => "hile",
            TimeUnit::Years => "urte",
        }
    }

    fn layout(&self, x: u64) -> Layout {
        Layout {
            ago_before: true,
            unit_before: x == 1,
            ..Layout::usual()
        }
    }
}
