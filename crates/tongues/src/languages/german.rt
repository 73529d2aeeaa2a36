ghost use Rattle.tongues.specs.GermanicLanguages.{german};

use crate::counted::one_or_more;
use crate::language::{Language, Layout};
use crate::unit::TimeUnit;

/// German.
#[derive(Clone, Copy, Default)]
pub struct German;

impl Language for German {
    ghost speech = { λ _. german };

    fn too_low(&self) -> &'static str {
        "jetzt"
    }

    fn too_high(&self) -> &'static str {
        "zu alt"
    }

    fn ago(&self) -> &'static str {
        "vor"
    }

    fn get_word(&self, tu: TimeUnit, x: u64) -> &'static str {
        match tu {
            TimeUnit::Nanoseconds => one_or_more(x, "Nanosekunde", "Nanosekunden"),
            TimeUnit::Microseconds => one_or_more(x, "Mikrosekunde", "Mikrosekunden"),
            TimeUnit::Milliseconds => one_or_more(x, "Millisekunde", "Millisekunden"),
            TimeUnit::Seconds => one_or_more(x, "Sekunde", "Sekunden"),
            TimeUnit::Minutes => one_or_more(x, "Minute", "Minuten"),
            TimeUnit::Hours => one_or_more(x, "Stunde", "Stunden"),
            TimeUnit::Days => one_or_more(x, "Tag", "Tagen"),
            TimeUnit::Weeks => one_or_more(x, "Woche", "Wochen"),
            TimeUnit::Months => one_or_more(x, "Monat", "Monaten"),
            TimeUnit::Years => one_or_more(x, "Jahr", "Jahren"),
        }
    }

    fn layout(&self, _x: u64) -> Layout {
        Layout {
            ago_before: true,
            ..Layout::usual()
        }
    }
}
