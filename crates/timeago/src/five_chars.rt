ghost use Rattle.std.specs.Prelude.{◌≡◌, ◌+◌, ◌/◌, ◌<◌, ◌++◌, IfOk};
ghost use Rattle.std.specs.String.{string_bytes};
ghost use Rattle.std.specs.Duration.{as_nanos};
ghost use Rattle.timeago.specs.FiveChars.{five_chars, two_digits, IsFiveChars};

use crate::pieces::digit;
use std::alloc::{AllocError, Global};
use std::time::Duration;

/// The distance in five characters, as `07min`: its whole seconds in the biggest unit that they
/// hold, cut. ` now ` stands below one second, and ` OLD ` past 99 years.
pub fn format_5chars(alloc: Global, d: Duration) -> Result<String, AllocError>
    ensures text { IfOk result (λ text. string_bytes text ≡ five_chars (as_nanos d / 1000000000)) }
    ensures five { IfOk result (λ text. IsFiveChars (string_bytes text)) }
{
    let secs = d.as_secs();
    match secs {
        0 => String::from_str(alloc, " now "),
        1..60 => count_and_unit(alloc, secs, "sec"),
        60..3_600 => count_and_unit(alloc, secs / 60, "min"),
        3_600..86_400 => count_and_unit(alloc, secs / 3_600, "hou"),
        86_400..2_628_003 => count_and_unit(alloc, secs / 86_400, "day"),
        2_628_003..31_536_036 => count_and_unit(alloc, secs / 2_628_003, "Mon"),
        31_536_036..=3_122_067_564 => count_and_unit(alloc, secs / 31_536_036, "Yea"),
        _ => String::from_str(alloc, " OLD "),
    }
}

fn count_and_unit(alloc: Global, count: u64, unit: &str) -> Result<String, AllocError>
    requires { count < 100 }
    ensures { IfOk result (λ text. string_bytes text ≡ two_digits count ++ unit.now) }
{
    let mut text = String::with_capacity(alloc, 5)?;
    text.push(digit(count / 10))?;
    text.push(digit(count % 10))?;
    text.push_str(unit)?;
    Ok(text)
}
