ghost use Rattle.tongues.specs.Languages.{turkish};

use crate::language::{Language, Layout};
use crate::unit::TimeUnit;

/// Turkish.
#[derive(Clone, Copy, Default)]
pub struct Turkish;

impl Language for Turkish {
    ghost speech = { λ _. turkish };

    fn too_low(&self) -> &'static str {
        "şimdi"
    }

    fn too_high(&self) -> &'static str {
        "eski"
    }

    fn ago(&self) -> &'static str {
        "önce"
    }

    fn get_word(&self, tu: TimeUnit, _x: u64) -> &'static str {
        match tu {
            TimeUnit::Nanoseconds => "nanosaniye",
            TimeUnit::Microseconds => "mikrosaniye",
            TimeUnit::Milliseconds => "milisaniye",
            TimeUnit::Seconds => "saniye",
            TimeUnit::Minutes => "dakika",
            TimeUnit::Hours => "saat",
            TimeUnit::Days => "gün",
            TimeUnit::Weeks => "hafta",
            TimeUnit::Months => "ay",
            TimeUnit::Years => "yıl",
        }
    }

    fn layout(&self, _x: u64) -> Layout {
        Layout::usual()
    }
}
