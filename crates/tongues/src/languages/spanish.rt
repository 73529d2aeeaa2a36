ghost use Rattle.tongues.specs.RomanceLanguages.{spanish};

use crate::counted::one_or_more;
use crate::language::{Language, Layout};
use crate::unit::TimeUnit;

/// Spanish.
#[derive(Clone, Copy, Default)]
pub struct Spanish;

impl Language for Spanish {
    ghost speech = { λ _. spanish };

    fn too_low(&self) -> &'static str {
        "ahora"
    }

    fn too_high(&self) -> &'static str {
        "hace mucho"
    }

    fn ago(&self) -> &'static str {
        "hace"
    }

    fn get_word(&self, tu: TimeUnit, x: u64) -> &'static str {
        match tu {
            TimeUnit::Nanoseconds => one_or_more(x, "nanosegundo", "nanosegundos"),
            TimeUnit::Microseconds => one_or_more(x, "microsegundo", "microsegundos"),
            TimeUnit::Milliseconds => one_or_more(x, "milisegundo", "milisegundos"),
            TimeUnit::Seconds => one_or_more(x, "segundo", "segundos"),
            TimeUnit::Minutes => one_or_more(x, "minuto", "minutos"),
            TimeUnit::Hours => one_or_more(x, "hora", "horas"),
            TimeUnit::Days => one_or_more(x, "día", "días"),
            TimeUnit::Weeks => one_or_more(x, "semana", "semanas"),
            TimeUnit::Months => one_or_more(x, "mes", "meses"),
            TimeUnit::Years => one_or_more(x, "año", "años"),
        }
    }

    fn layout(&self, _x: u64) -> Layout {
        Layout {
            ago_before: true,
            ..Layout::usual()
        }
    }
}
