ghost use Rattle.tongues.specs.AsianLanguages.{thai};

use crate::language::{Language, Layout};
use crate::unit::TimeUnit;

/// Thai.
#[derive(Clone, Copy, Default)]
pub struct Thai;

impl Language for Thai {
    ghost speech = { λ _. thai };

    fn too_low(&self) -> &'static str {
        "ตอนนี้"
    }

    fn too_high(&self) -> &'static str {
        "นานมาแล้ว"
    }

    fn ago(&self) -> &'static str {
        "ที่แล้ว"
    }

    fn get_word(&self, tu: TimeUnit, _x: u64) -> &'static str {
        match tu {
            TimeUnit::Nanoseconds => "นาโนวินาที",
            TimeUnit::Microseconds => "ไมโครวินาที",
            TimeUnit::Milliseconds => "มิลลิวินาที",
            TimeUnit::Seconds => "วินาที",
            TimeUnit::Minutes => "นาที",
            TimeUnit::Hours => "ชั่วโมง",
            TimeUnit::Days => "วัน",
            TimeUnit::Weeks => "สัปดาห์",
            TimeUnit::Months => "เดือน",
            TimeUnit::Years => "ปี",
        }
    }

    fn layout(&self, _x: u64) -> Layout {
        Layout {
            space_near_ago: "",
            ..Layout::usual()
        }
    }
}
