ghost use Rattle.tongues.specs.RomanceLanguages.{italian};

use crate::counted::one_or_more;
use crate::language::{Language, Layout};
use crate::unit::TimeUnit;

/// Italian.
#[derive(Clone, Copy, Default)]
pub struct Italian;

impl Language for Italian {
    ghost speech = { λ _. italian };

    fn too_low(&self) -> &'static str {
        "adesso"
    }

    fn too_high(&self) -> &'static str {
        "troppo vecchio"
    }

    fn ago(&self) -> &'static str {
        "fa"
    }

    fn get_word(&self, tu: TimeUnit, x: u64) -> &'static str {
        match tu {
            TimeUnit::Nanoseconds => one_or_more(x, "nanosecondo", "nanosecondi"),
            TimeUnit::Microseconds => one_or_more(x, "microsecondo", "microsecondi"),
            TimeUnit::Milliseconds => one_or_more(x, "millisecondo", "millisecondi"),
            TimeUnit::Seconds => one_or_more(x, "secondo", "secondi"),
            TimeUnit::Minutes => one_or_more(x, "minuto", "minuti"),
            TimeUnit::Hours => one_or_more(x, "ora", "ore"),
            TimeUnit::Days => one_or_more(x, "giorno", "giorni"),
            TimeUnit::Weeks => one_or_more(x, "settimana", "settimane"),
            TimeUnit::Months => one_or_more(x, "mese", "mesi"),
            TimeUnit::Years => one_or_more(x, "anno", "anni"),
        }
    }

    fn layout(&self, _x: u64) -> Layout {
        Layout::usual()
    }
}
