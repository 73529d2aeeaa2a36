//! Where a zone places a wall time.
ghost use Rattle.std.specs.Prelude.{◌≡◌, ◌↔◌, ℤ, pos, ◌-ℤ◌, IsSome, IfSome, IfNone};
ghost use Rattle.civil.specs.Clock.{IsWallSecond};
ghost use Rattle.civil.specs.Times.{wall_of, nanos_of};
ghost use Rattle.zoned.specs.Days.{day_number, date_offset};
ghost use Rattle.zoned.specs.Moment.{second_of, fraction_of, offset_of};
ghost use Rattle.zoned.specs.CivilAnswers.{mapped_map, civil_map, first_offset, AllCivil, AllMapped, IsCivil};
ghost use Rattle.zoned.specs.Answers.{AreMoments};
ghost use Rattle.zoned.specs.Placing.{IsPlaced};

use crate::date::Date;
use crate::datetime::DateTime;
use crate::offset::{Civil, CivilOffset, MappedLocalTime, Offset, TimeZone};
use civil::{NaiveDate, NaiveDateTime};

// The moment that a wall time is at an offset.
fn moment_at<Tz: TimeZone>(wall: &NaiveDateTime, offset: Tz::Offset) -> Option<DateTime<Tz>>
    ensures some { IsSome result ↔ IsWallSecond (wall_of wall.now -ℤ Tz.Offset.seconds offset) }
    ensures second { IfSome result
        (λ d. second_of d ≡ wall_of wall.now -ℤ Tz.Offset.seconds offset) }
    ensures fraction { IfSome result (λ d. fraction_of d ≡ nanos_of wall.now) }
    ensures offset { IfSome result (λ d. offset_of d ≡ offset) }
{
    let utc = wall.moved(-(offset.fix().local_minus_utc() as i64))?;
    Some(DateTime::from_naive_utc_and_offset(utc, offset))
}

// The moments that a wall time is at its offsets; there are none also where one leaves the calendar.
pub(crate) fn moments<Tz: TimeZone>(
    wall: &NaiveDateTime,
    offsets: MappedLocalTime<Tz::Offset>,
) -> MappedLocalTime<DateTime<Tz>>
    ensures moments { AreMoments (wall_of wall.now) (mapped_map Tz.Offset.seconds offsets)
        (mapped_map second_of result) }
    ensures fraction { AllMapped (λ d. fraction_of d ≡ nanos_of wall.now) result }
    ensures offsets { AllMapped
        (λ d. Tz.Offset.seconds (offset_of d) ≡ wall_of wall.now -ℤ second_of d) result }
    ensures zone { (zone : Tz) → AllMapped (λ o. Tz.zone_of o ≡ zone) offsets
        → AllMapped (λ d. Tz.zone_of (offset_of d) ≡ zone) result }
{
    match offsets {
        MappedLocalTime::None => MappedLocalTime::None,
        MappedLocalTime::Single(offset) => match moment_at::<Tz>(wall, offset) {
            Some(moment) => MappedLocalTime::Single(moment),
            None => MappedLocalTime::None,
        },
        MappedLocalTime::Ambiguous(before, after) => {
            match (moment_at::<Tz>(wall, before), moment_at::<Tz>(wall, after)) {
                (Some(first), Some(second)) => MappedLocalTime::Ambiguous(first, second),
                _ => MappedLocalTime::None,
            }
        }
    }
}

// A day with each of its offsets.
pub(crate) fn days<Tz: TimeZone>(
    day: &NaiveDate,
    offsets: MappedLocalTime<Tz::Offset>,
) -> MappedLocalTime<Date<Tz>>
    ensures days { AllMapped (λ d. day_number d ≡ day.now) result }
    ensures offsets { mapped_map (λ d. Tz.Offset.seconds (date_offset d)) result
        ≡ mapped_map Tz.Offset.seconds offsets }
    ensures zone { (zone : Tz) → AllMapped (λ o. Tz.zone_of o ≡ zone) offsets
        → AllMapped (λ d. Tz.zone_of (date_offset d) ≡ zone) result }
{
    match offsets {
        MappedLocalTime::None => MappedLocalTime::None,
        MappedLocalTime::Single(offset) => { MappedLocalTime::Single(Date::from_utc(*day, offset)) }
        MappedLocalTime::Ambiguous(before, after) => MappedLocalTime::Ambiguous(
            Date::from_utc(*day, before),
            Date::from_utc(*day, after),
        ),
    }
}

// The moment of a time in UTC by the zone's answer for the wall time that it was found from. Only where the clock is put forward
// the zone is asked again: else the offset of the answer is the one there.
fn moment_by<Tz: Civil>(
    zone: &Tz,
    utc: NaiveDateTime,
    answer: CivilOffset<Tz::Offset>,
) -> DateTime<Tz>
    ensures second { second_of result ≡ wall_of utc }
    ensures fraction { fraction_of result ≡ nanos_of utc }
    ensures zone { AllCivil (λ o. Tz.zone_of o ≡ zone.now) answer
        → Tz.zone_of (offset_of result) ≡ zone.now }
    ensures offset { (w : ℤ) → Tz.sound zone.now
        → IsCivil (Tz.off zone.now) w (civil_map Tz.Offset.seconds answer)
        → wall_of utc ≡ w -ℤ Tz.Offset.seconds (first_offset answer)
        → Tz.Offset.seconds (offset_of result) ≡ Tz.off zone.now (second_of result) }
{
    match answer {
        CivilOffset::Single(offset) => DateTime::from_naive_utc_and_offset(utc, offset),
        CivilOffset::Ambiguous { before, .. } => DateTime::from_naive_utc_and_offset(utc, before),
        CivilOffset::Gap { .. } => zone.from_utc_datetime(&utc),
    }
}

/// The moment at which a zone places a wall time, with the zone's offset there.
///
/// In a sound zone that is the one second that shows the wall time, the first of two, or, where the clock is put forward over
/// it, the wall time less the offset before that. It is `None` exactly where that second is outside the calendar.
pub fn placed<Tz: Civil>(zone: &Tz, wall: &NaiveDateTime) -> Option<DateTime<Tz>>
    ensures placed { Tz.sound zone.now
        → IfSome result (λ d. IsPlaced (Tz.off zone.now) (wall_of wall.now) (second_of d)) }
    ensures outside { IfNone result
        ((s : ℤ) × (Tz.sound zone.now → IsPlaced (Tz.off zone.now) (wall_of wall.now) s)
        × (IsWallSecond s → ⊥)) }
    ensures fraction { IfSome result (λ d. fraction_of d ≡ nanos_of wall.now) }
    ensures zone { IfSome result (λ d. Tz.zone_of (offset_of d) ≡ zone.now) }
    ensures offset { Tz.sound zone.now → IfSome result
        (λ d. Tz.Offset.seconds (offset_of d) ≡ Tz.off zone.now (second_of d)) }
{
    let answer = zone.civil(wall);
    let before = answer.first();
    match wall.moved(-(before.fix().local_minus_utc() as i64)) {
        Some(utc) => Some(moment_by(zone, utc, answer)),
        None => None,
    }
}

/// The moment of a wall time with an offset of so many seconds, in the zone, with the zone's offset there.
///
/// It is `None` exactly where its second is outside the calendar.
pub fn placed_at_offset<Tz: TimeZone>(
    zone: &Tz,
    wall: &NaiveDateTime,
    secs: i64,
) -> Option<DateTime<Tz>>
    ensures some { IsSome result ↔ IsWallSecond (wall_of wall.now -ℤ secs) }
    ensures second { IfSome result (λ d. second_of d ≡ wall_of wall.now -ℤ secs) }
    ensures fraction { IfSome result (λ d. fraction_of d ≡ nanos_of wall.now) }
    ensures zone { IfSome result (λ d. Tz.zone_of (offset_of d) ≡ zone.now) }
{
    let second = wall.wall_second().checked_sub(secs)?;
    let utc = NaiveDateTime::from_wall_second(second, wall.nanosecond())?;
    Some(zone.from_utc_datetime(&utc))
}
