ghost use Rattle.tongues.specs.SlavicLanguages.{russian};

use crate::counted::one_few_many;
use crate::language::{Language, Layout};
use crate::unit::TimeUnit;

/// Russian.
#[derive(Clone, Copy, Default)]
pub struct Russian;

impl Language for Russian {
    ghost speech = { λ _. russian };

    fn too_low(&self) -> &'static str {
        "сейчас"
    }

    fn too_high(&self) -> &'static str {
        "давно"
    }

    fn ago(&self) -> &'static str {
        "назад"
    }

    fn get_word(&self, tu: TimeUnit, x: u64) -> &'static str {
        match tu {
            TimeUnit::Nanoseconds => one_few_many(x, "наносекунду", "наносекунды", "наносекунд"),
            TimeUnit::Microseconds => one_few_many(
                x,
                "микросекунду",
                "микросекунды",
                "микросекунд",
            ),
            TimeUnit::Milliseconds => one_few_many(
                x,
                "миллисекунду",
                "миллисекунды",
                "миллисекунд",
            ),
            TimeUnit::Seconds => one_few_many(x, "секунду", "секунды", "секунд"),
            TimeUnit::Minutes => one_few_many(x, "минуту", "минуты", "минут"),
            TimeUnit::Hours => one_few_many(x, "час", "часа", "часов"),
            TimeUnit::Days => one_few_many(x, "день", "дня", "дней"),
            TimeUnit::Weeks => one_few_many(x, "неделю", "недели", "недель"),
            TimeUnit::Months => one_few_many(x, "месяц", "месяца", "месяцев"),
            TimeUnit::Years => one_few_many(x, "год", "года", "лет"),
        }
    }

    fn layout(&self, _x: u64) -> Layout {
        Layout::usual()
    }
}
