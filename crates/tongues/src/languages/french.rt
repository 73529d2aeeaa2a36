ghost use Rattle.tongues.specs.RomanceLanguages.{french};

use crate::counted::one_or_more;
use crate::language::{Language, Layout};
use crate::unit::TimeUnit;

/// French.
#[derive(Clone, Copy, Default)]
pub struct French;

impl Language for French {
    ghost speech = { λ _. french };

    fn too_low(&self) -> &'static str {
        "maintenant"
    }

    fn too_high(&self) -> &'static str {
        "ancien"
    }

    fn ago(&self) -> &'static str {
        "il y a"
    }

    fn get_word(&self, tu: TimeUnit, x: u64) -> &'static str {
        match tu {
            TimeUnit::Nanoseconds => one_or_more(x, "nanoseconde", "nanosecondes"),
            TimeUnit::Microseconds => one_or_more(x, "microseconde", "microsecondes"),
            TimeUnit::Milliseconds => one_or_more(x, "milliseconde", "milisecondes"),
            TimeUnit::Seconds => one_or_more(x, "seconde", "secondes"),
            TimeUnit::Minutes => one_or_more(x, "minute", "minutes"),
            TimeUnit::Hours => one_or_more(x, "heure", "heures"),
            TimeUnit::Days => one_or_more(x, "jour", "jours"),
            TimeUnit::Weeks => one_or_more(x, "semaine", "semaines"),
            TimeUnit::Months => one_or_more(x, "mois", "mois"),
            TimeUnit::Years => one_or_more(x, "année", "ans"),
        }
    }

    fn layout(&self, _x: u64) -> Layout {
        Layout {
            ago_before: true,
            ..Layout::usual()
        }
    }
}
