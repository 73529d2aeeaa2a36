ghost use Rattle.tongues.specs.AsianLanguages.{korean};

use crate::language::{Language, Layout};
use crate::unit::TimeUnit;

/// Korean.
#[derive(Clone, Copy, Default)]
pub struct Korean;

impl Language for Korean {
    ghost speech = { λ _. korean };

    fn too_low(&self) -> &'static str {
        "방금"
    }

    fn too_high(&self) -> &'static str {
        "오래전"
    }

    fn ago(&self) -> &'static str {
        "전"
    }

    fn get_word(&self, tu: TimeUnit, _x: u64) -> &'static str {
        match tu {
            TimeUnit::Nanoseconds => "나노초",
            TimeUnit::Microseconds => "마이크로초",
            TimeUnit::Milliseconds => "밀리초",
            TimeUnit::Seconds => "초",
            TimeUnit::Minutes => "분",
            TimeUnit::Hours => "시간",
            TimeUnit::Days => "일",
            TimeUnit::Weeks => "주",
            TimeUnit::Months => "개월",
            TimeUnit::Years => "년",
        }
    }

    fn layout(&self, _x: u64) -> Layout {
        Layout {
            between_value_and_word: "",
            ..Layout::usual()
        }
    }
}
