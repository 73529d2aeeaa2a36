ghost use Rattle.tongues.specs.RomanceLanguages.{portuguese};

use crate::counted::one_or_more;
use crate::language::{Language, Layout};
use crate::unit::TimeUnit;

/// Portuguese.
#[derive(Clone, Copy, Default)]
pub struct Portuguese;

impl Language for Portuguese {
    ghost speech = { λ _. portuguese };

    fn too_low(&self) -> &'static str {
        "agora"
    }

    fn too_high(&self) -> &'static str {
        "antigo"
    }

    fn ago(&self) -> &'static str {
        "atrás"
    }

    fn get_word(&self, tu: TimeUnit, x: u64) -> &'static str {
        match tu {
            TimeUnit::Nanoseconds => one_or_more(x, "nanosegundo", "nanosegundos"),
            TimeUnit::Microseconds => one_or_more(x, "microsegundo", "microsegundos"),
            TimeUnit::Milliseconds => one_or_more(x, "milisegundo", "milisegundos"),
            TimeUnit::Seconds => one_or_more(x, "segundo", "segundos"),
            TimeUnit::Minutes => one_or_more(x, "minuto", "minutos"),
            TimeUnit::Hours => one_or_more(x, "hora", "horas"),
            TimeUnit::Days => one_or_more(x, "dia", "dias"),
            TimeUnit::Weeks => one_or_more(x, "semana", "semanas"),
            TimeUnit::Months => one_or_more(x, "mês", "meses"),
            TimeUnit::Years => one_or_more(x, "ano", "anos"),
        }
    }

    fn layout(&self, _x: u64) -> Layout {
        Layout::usual()
    }
}
