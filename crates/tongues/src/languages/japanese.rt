ghost use Rattle.tongues.specs.AsianLanguages.{japanese};

use crate::language::{Language, Layout};
use crate::unit::TimeUnit;

/// Japanese.
#[derive(Clone, Copy, Default)]
pub struct Japanese;

impl Language for Japanese {
    ghost speech = { λ _. japanese };

    fn too_low(&self) -> &'static str {
        "今"
    }

    fn too_high(&self) -> &'static str {
        "後"
    }

    fn ago(&self) -> &'static str {
        "前"
    }

    fn get_word(&self, tu: TimeUnit, _x: u64) -> &'static str {
        match tu {
            TimeUnit::Nanoseconds => "ナノ秒",
            TimeUnit::Microseconds => "マイクロ秒",
            TimeUnit::Milliseconds => "ミリ秒",
            TimeUnit::Seconds => "秒",
            TimeUnit::Minutes => "分",
            TimeUnit::Hours => "時間",
            TimeUnit::Days => "日",
            TimeUnit::Weeks => "週間",
            TimeUnit::Months => "月",
            TimeUnit::Years => "年",
        }
    }

    fn layout(&self, _x: u64) -> Layout {
        Layout {
            space_near_ago: "",
            between_chunks: "",
            between_value_and_word: "",
            ..Layout::usual()
        }
    }
}
