ghost use Rattle.std.specs.Prelude.{IfOk};
ghost use Rattle.std.specs.String.{string_bytes};
ghost use Rattle.std.specs.Duration.{as_nanos};
ghost use Rattle.timeago.specs.Styles.{IsStyled};

use crate::five_chars::format_5chars;
use crate::formatter::Formatter;
use std::alloc::{AllocError, Global};
use std::time::Duration;
use tongues::TimeUnit;

/// How `format` tells a distance.
#[derive(Clone, Copy)]
pub enum Style {
    /// One count from nanoseconds to years, as `2 years ago`.
    LONG,
    /// One count from seconds to years, and `just now` below a second.
    HUMAN,
    /// Five characters, as `02Yea`.
    SHORT,
}

/// The distance in English, in the style.
pub fn format(alloc: Global, d: Duration, style: Style) -> Result<String, AllocError>
    ensures { IfOk result (λ text. IsStyled style (as_nanos d) (string_bytes text)) }
{
    match style {
        Style::LONG => {
            let mut formatter = Formatter::new();
            formatter.min_unit(TimeUnit::Nanoseconds);
            formatter.convert(alloc, d)
        }
        Style::HUMAN => {
            let mut formatter = Formatter::new();
            formatter.too_low("just now");
            formatter.convert(alloc, d)
        }
        Style::SHORT => format_5chars(alloc, d),
    }
}
