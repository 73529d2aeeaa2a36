ghost use Rattle.tongues.specs.SlavicLanguages.{belarusian};

use crate::counted::one_few_many;
use crate::language::{Language, Layout};
use crate::unit::TimeUnit;

/// Belarusian.
#[derive(Clone, Copy, Default)]
pub struct Belarusian;

impl Language for Belarusian {
    ghost speech = { λ _. belarusian };

    fn too_low(&self) -> &'static str {
        "зараз"
    }

    fn too_high(&self) -> &'static str {
        "даўно"
    }

    fn ago(&self) -> &'static str {
        "таму"
    }

    fn get_word(&self, tu: TimeUnit, x: u64) -> &'static str {
        match tu {
            TimeUnit::Nanoseconds => one_few_many(x, "нанасэкунду", "нанасэкунды", "нанасэкундаў"),
            TimeUnit::Microseconds => one_few_many(
                x,
                "мікрасэкунду",
                "мікрасэкунды",
                "мікрасэкундаў",
            ),
            TimeUnit::Milliseconds => one_few_many(x, "мілісэкунду", "мілісэкунды", "мілісэкундаў"),
            TimeUnit::Seconds => one_few_many(x, "сэкунду", "сэкунды", "сэкундаў"),
            TimeUnit::Minutes => one_few_many(x, "хвіліну", "хвіліны", "хвілін"),
            TimeUnit::Hours => one_few_many(x, "гадзіну", "гадзіны", "галзін"),
            TimeUnit::Days => one_few_many(x, "дзень", "дні", "дней"),
            TimeUnit::Weeks => one_few_many(x, "тыдзень", "тыдні", "тыдняў"),
            TimeUnit::Months => one_few_many(x, "месяц", "месяца", "месяцаў"),
            TimeUnit::Years => one_few_many(x, "год", "гады", "гадоў"),
        }
    }

    fn layout(&self, _x: u64) -> Layout {
        Layout::usual()
    }
}
