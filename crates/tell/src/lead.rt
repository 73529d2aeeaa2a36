//! How far a moment is from a base.
ghost use Rattle.std.specs.Prelude.{◌≡◌, ◌<◌, ℤ, int_lt, pos, unsigned_abs, ◌+ℤ◌, ◌-ℤ◌, ◌*ℤ◌, ◌<ℤ◌, ◌≤ℤ◌, ◌+◌, ◌*◌};
ghost use Rattle.std.specs.Duration.{as_nanos};
ghost use Rattle.civil.specs.Clock.{IsWallSecond};
ghost use Rattle.tell.specs.Moments.{IsBase};
ghost use Rattle.tell.specs.Tales.{lead};
ghost use Rattle.tell.specs.Inside.MomentView.{IsInCalendar};

use crate::fields::Fields;
use crate::moment::Moment;
use std::time::Duration;

/// A distance from a base, and on which side of it.
#[derive(Clone, Copy)]
pub struct Lead {
    /// Whether the moment is after the base.
    pub ahead: bool,
    pub distance: Duration,
}

const NANOS: u32 = 1_000_000_000;

// A second and less than a thousand million nanoseconds.
fn carried(second: i64, nanos: u32) -> (i64, u32)
    requires second { IsWallSecond second }
    requires nanos { nanos < 2000000000 }
    ensures lead { (base : ℤ) → lead base result.0 result.1 ≡ lead base second nanos }
    ensures fraction { result.1 < 1000000000 }
    ensures low { second ≤ℤ result.0 }
    ensures high { result.0 ≤ℤ (second +ℤ pos 1) }
{
    if nanos < NANOS {
        (second, nanos)
    } else {
        (second + 1, nanos - NANOS)
    }
}

// So many seconds less some nanoseconds.
fn less(seconds: i64, nanos: u32) -> Duration
    requires some { pos 0 <ℤ seconds }
    requires nanos { nanos < 1000000000 }
    ensures { as_nanos result + nanos ≡ 1000000000 * unsigned_abs seconds }
{
    if nanos == 0 {
        Duration::new(seconds as u64, 0)
    } else {
        Duration::new(seconds as u64 - 1, NANOS - nanos)
    }
}

// The distance to a second that is not before the base, and its nanoseconds.
fn forward(base: i64, second: i64, nanos: u32) -> Lead
    requires base { IsBase base }
    requires second { IsWallSecond (second -ℤ pos 1) }
    requires order { base ≤ℤ second }
    requires nanos { nanos < 1000000000 }
    ensures ahead { result.ahead ≡ int_lt (pos 0) (lead base second nanos) }
    ensures distance { as_nanos result.distance ≡ unsigned_abs (lead base second nanos) }
{
    Lead {
        ahead: base < second || nanos > 0,
        distance: Duration::new((second - base) as u64, nanos),
    }
}

// The distance back to a second before the base, and its nanoseconds.
fn back(base: i64, second: i64, nanos: u32) -> Lead
    requires base { IsBase base }
    requires second { IsWallSecond second }
    requires order { second <ℤ base }
    requires nanos { nanos < 1000000000 }
    ensures ahead { result.ahead ≡ int_lt (pos 0) (lead base second nanos) }
    ensures distance { as_nanos result.distance ≡ unsigned_abs (lead base second nanos) }
{
    Lead {
        ahead: false,
        distance: less(base - second, nanos),
    }
}

/// How far a moment is from the base of a line.
pub fn lead_from(fields: &Fields<'_>, moment: &Moment) -> Lead
    requires base { IsBase fields.now.base }
    requires moment { IsInCalendar moment.now }
    ensures ahead { result.ahead
        ≡ int_lt (pos 0) (lead fields.now.base moment.now.second moment.now.nanos) }
    ensures distance { as_nanos result.distance
        ≡ unsigned_abs (lead fields.now.base moment.now.second moment.now.nanos) }
{
    let (second, nanos) = carried(moment.second, moment.nanos);
    if fields.base <= second {
        forward(fields.base, second, nanos)
    } else {
        back(fields.base, second, nanos)
    }
}
