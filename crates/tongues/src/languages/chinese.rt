ghost use Rattle.tongues.specs.AsianLanguages.{chinese};

use crate::language::{Language, Layout};
use crate::unit::TimeUnit;

/// Chinese.
#[derive(Clone, Copy, Default)]
pub struct Chinese;

impl Language for Chinese {
    ghost speech = { λ _. chinese };

    fn too_low(&self) -> &'static str {
        "刚刚"
    }

    fn too_high(&self) -> &'static str {
        "大于"
    }

    fn ago(&self) -> &'static str {
        "之前"
    }

    fn get_word(&self, tu: TimeUnit, _x: u64) -> &'static str {
        match tu {
            TimeUnit::Nanoseconds => "纳秒",
            TimeUnit::Microseconds => "微秒",
            TimeUnit::Milliseconds => "毫秒",
            TimeUnit::Seconds => "秒",
            TimeUnit::Minutes => "分",
            TimeUnit::Hours => "小时",
            TimeUnit::Days => "天",
            TimeUnit::Weeks => "周",
            TimeUnit::Months => "月",
            TimeUnit::Years => "年",
        }
    }

    fn layout(&self, _x: u64) -> Layout {
        Layout::usual()
    }
}
