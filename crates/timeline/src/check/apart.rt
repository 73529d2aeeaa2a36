//! Entries that lie days apart, as nearly all do: their seconds alone show that they keep the laws.
ghost use Rattle.std.specs.Prelude.{◌≡◌, ◌+◌, ◌<◌, ◌≤◌, ◌↔◌, IsTrue, nat_lt, nat_le, length, pos, ◌+ℤ◌, ◌<ℤ◌, ◌≤ℤ◌};
ghost use Rattle.timeline.specs.Inside.EntryLaws.{InPart};
ghost use Rattle.timeline.specs.Inside.Apart.{IsApart, IsEnd, last_end};

use super::{is_in_part, is_late};
use crate::data::ZoneData;

/// Two days before a second; of one of the first two days of all, a second of the last two days.
fn two_days_before(second: i64) -> i64
    ensures { result <ℤ last_end → second ≡ result +ℤ pos 172800 }
{
    second.wrapping_sub(172_800)
}

/// An entry whose second less two days is below this one lies two days or more before the second that the table is to end
/// before, if there is one. Where an offset is a day or more, none is below it.
pub fn shown_end(zone: &ZoneData, limit: Option<i64>) -> i64
    ensures { IsEnd zone.now limit result }
{
    if !zone.has_small_offsets() {
        return i64::MIN;
    }
    match limit {
        Some(limit) => limit.checked_sub(345_599).unwrap_or(i64::MIN),
        None => i64::MAX - 172_799,
    }
}

fn lies_between(low: i64, second: i64, end: i64) -> bool
    ensures { IsTrue result ↔ ((low ≤ℤ second) × (second <ℤ end)) }
{
    second < end && low <= second
}

/// Whether a second lies two days or more after another one, and less two days before an end.
pub fn lie_days_apart(previous: i64, second: i64, end: i64) -> bool
    requires { end ≤ℤ last_end }
    ensures { IsTrue result → IsApart previous second × (second <ℤ (end +ℤ pos 172800)) }
{
    lies_between(previous, two_days_before(second), end)
}

/// Whether the nth entry of a table, whose second this is, lies in its part.
fn lies_in_part(zone: &ZoneData, n: usize, second: i64) -> bool
    requires { n < length zone.now.table }
    ensures { IsTrue result
        → InPart (nat_lt n zone.now.early)
        (nat_le (length zone.now.table) (n + zone.now.late)) second }
{
    is_in_part(
        n < zone.early(),
        is_late(zone.len(), n, zone.late()),
        second,
    )
}

/// Whether the nth entry of a table shows by its second that it lies in its part, two days or more
/// after the one before it, and before an end. One that does not may keep the laws too.
pub fn shows_laws(zone: &ZoneData, n: usize, previous: i64, second: i64, end: i64) -> bool
    requires within { n < length zone.now.table }
    requires wraps { end ≤ℤ last_end }
    ensures { IsTrue result
        → InPart (nat_lt n zone.now.early)
        (nat_le (length zone.now.table) (n + zone.now.late)) second
        × (IsApart previous second × (second <ℤ (end +ℤ pos 172800))) }
{
    lie_days_apart(previous, second, end) && lies_in_part(zone, n, second)
}
