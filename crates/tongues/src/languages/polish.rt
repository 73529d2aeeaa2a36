ghost use Rattle.tongues.specs.SlavicLanguages.{polish};

use crate::counted::one_few_many;
use crate::language::{Language, Layout};
use crate::unit::TimeUnit;

/// Polish.
#[derive(Clone, Copy, Default)]
pub struct Polish;

impl Language for Polish {
    ghost speech = { λ _. polish };

    fn too_low(&self) -> &'static str {
        "teraz"
    }

    fn too_high(&self) -> &'static str {
        "dawno"
    }

    fn ago(&self) -> &'static str {
        "temu"
    }

    fn get_word(&self, tu: TimeUnit, x: u64) -> &'static str {
        match tu {
            TimeUnit::Nanoseconds => one_few_many(x, "nanosekundę", "nanosekundy", "nanosekund"),
            TimeUnit::Microseconds => one_few_many(
                x,
                "mikrosekundę",
                "mikrosekundy",
                "mikrosekund",
            ),
            TimeUnit::Milliseconds => one_few_many(x, "milisekundę", "milisekundy", "milisekund"),
            TimeUnit::Seconds => one_few_many(x, "sekundę", "sekundy", "sekund"),
            TimeUnit::Minutes => one_few_many(x, "minutę", "minuty", "minut"),
            TimeUnit::Hours => one_few_many(x, "godzinę", "godziny", "godzin"),
            TimeUnit::Days => one_few_many(x, "dzień", "dni", "dni"),
            TimeUnit::Weeks => one_few_many(x, "tydzień", "tygodnie", "tygodni"),
            TimeUnit::Months => one_few_many(x, "miesiąc", "miesiące", "miesięcy"),
            // Exactly one year has a word of its own.
            TimeUnit::Years if x == 1 => "rok",
            TimeUnit::Years => one_few_many(x, "lat", "lata", "lat"),
        }
    }

    fn layout(&self, _x: u64) -> Layout {
        Layout::usual()
    }
}
