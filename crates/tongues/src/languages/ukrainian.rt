ghost use Rattle.tongues.specs.SlavicLanguages.{ukrainian};

use crate::counted::one_few_many;
use crate::language::{Language, Layout};
use crate::unit::TimeUnit;

/// Ukrainian.
#[derive(Clone, Copy, Default)]
pub struct Ukrainian;

impl Language for Ukrainian {
    ghost speech = { λ _. ukrainian };

    fn too_low(&self) -> &'static str {
        "зараз"
    }

    fn too_high(&self) -> &'static str {
        "давно"
    }

    fn ago(&self) -> &'static str {
        "тому"
    }

    fn get_word(&self, tu: TimeUnit, x: u64) -> &'static str {
        match tu {
            TimeUnit::Nanoseconds => one_few_many(x, "наносекунду", "наносекунди", "наносекунд"),
            TimeUnit::Microseconds => one_few_many(
                x,
                "мікросекунду",
                "мікросекунди",
                "мікросекунд",
            ),
            TimeUnit::Milliseconds => one_few_many(x, "мілісекунду", "мілісекунди", "мілісекунд"),
            TimeUnit::Seconds => one_few_many(x, "секунду", "секунди", "секунд"),
            TimeUnit::Minutes => one_few_many(x, "хвилину", "хвилини", "хвилин"),
            TimeUnit::Hours => one_few_many(x, "годину", "години", "годин"),
            TimeUnit::Days => one_few_many(x, "день", "дня", "днів"),
            TimeUnit::Weeks => one_few_many(x, "тиждень", "тижня", "тижнів"),
            TimeUnit::Months => one_few_many(x, "місяць", "місяця", "місяців"),
            TimeUnit::Years => one_few_many(x, "рік", "роки", "років"),
        }
    }

    fn layout(&self, _x: u64) -> Layout {
        Layout::usual()
    }
}
