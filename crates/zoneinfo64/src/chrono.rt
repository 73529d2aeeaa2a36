//! A zone of a bundle as a zone of `zoned`.
ghost use Rattle.std.specs.Prelude.{◌≡◌, ℤ, pos, ◌*ℤ◌};
ghost use Rattle.zoned.specs.CivilAnswers.{AllCivil, IsCivil, civil_map, mapped_of};
ghost use Rattle.zoned.specs.Moment.{seconds_east};
ghost use Rattle.zoneinfo64.specs.OffsetView.{offset_told, zone_told, seconds_told, cut_to_day};
ghost use Rattle.zoneinfo64.specs.Inside.CivilView.{civil_of};
ghost use Rattle.zoneinfo64.specs.ZoneOffsets.{zone_off, zone_local, IsSound};

use crate::below::laws_below;
use crate::zone::Zone;
use civil::{NaiveDate, NaiveDateTime};
use timeline::{Offset, PossibleOffset, UtcOffset};
use zoned::{Civil, CivilOffset, FixedOffset, MappedLocalTime, TimeZone};

/// An offset of a zone of a bundle, which names the zone.
#[derive(Clone, Copy)]
pub struct ChronoOffset<'a> {
    offset: Offset,
    zone: Zone<'a>,
}

impl<'a> ChronoOffset<'a> {
    ghost use Rattle.zoneinfo64.specs.OffsetView.{offset_told};

    /// The offset as the zone tells it, of any size.
    pub fn utc_offset(&self) -> UtcOffset
        ensures { result ≡ (offset_told self.now).offset }
    {
        self.offset.offset
    }

    /// Whether it is one of daylight time.
    pub fn rule_applies(&self) -> bool
        ensures { result ≡ (offset_told self.now).rule_applies }
    {
        self.offset.rule_applies
    }
}

impl zoned::Offset for ChronoOffset<'_> {
    ghost use Rattle.zoneinfo64.specs.OffsetView.{seconds_told};

    ghost seconds = { seconds_told };

    /// The offset without its zone; one of a day or more, which only a zone that is not lawful has, is cut to 86,399 seconds.
    fn fix(&self) -> FixedOffset {
        fixed_at(self.offset.offset.seconds())
    }
}

// The offset of so many seconds east of UTC, cut to less than a day.
fn fixed_at(seconds: i32) -> FixedOffset
    ensures { seconds_east result ≡ cut_to_day seconds }
{
    FixedOffset::east_opt(seconds.clamp(-86_399, 86_399)).unwrap()
}

// An offset that names its zone.
fn told<'a>(zone: &Zone<'a>, offset: &Offset) -> ChronoOffset<'a>
    ensures zone { zone_told result ≡ zone.now }
    ensures offset { offset_told result ≡ offset.now }
{
    ChronoOffset {
        offset: *offset,
        zone: *zone,
    }
}

// The answer of a zone's look-up, with offsets that name the zone.
fn named<'a>(zone: &Zone<'a>, answer: &PossibleOffset) -> CivilOffset<ChronoOffset<'a>>
    ensures zone { AllCivil (λ o. zone_told o ≡ zone.now) result }
    ensures offsets { civil_map offset_told result ≡ civil_of answer.now }
{
    match answer {
        PossibleOffset::Single(offset) => CivilOffset::Single(told(zone, offset)),
        PossibleOffset::Ambiguous { before, after, .. } => CivilOffset::Ambiguous {
            before: told(zone, before),
            after: told(zone, after),
        },
        PossibleOffset::None { before, after, .. } => CivilOffset::Gap {
            before: told(zone, before),
            after: told(zone, after),
        },
    }
}

// The answer without the offsets of a gap.
fn mapped<O: Copy>(answer: &CivilOffset<O>) -> MappedLocalTime<O>
    ensures { result ≡ mapped_of answer.now }
{
    match answer {
        CivilOffset::Single(offset) => MappedLocalTime::Single(*offset),
        CivilOffset::Ambiguous { before, after } => MappedLocalTime::Ambiguous(*before, *after),
        CivilOffset::Gap { .. } => MappedLocalTime::None,
    }
}

// The offsets of a wall second.
fn at_wall<'a>(zone: &Zone<'a>, wall: i64) -> CivilOffset<ChronoOffset<'a>>
    ensures zone { AllCivil (λ o. zone_told o ≡ zone.now) result }
    ensures counts { IsSound zone.now
        → IsCivil (zone_off zone.now) wall (civil_map seconds_told result) }
    ensures local { IsSound zone.now
        → zone_local zone.now wall ≡ mapped_of (civil_map seconds_told result) }
{
    laws_below();
    let answer = zone.offsets_of_wall(wall);
    named(zone, &answer)
}

// The offset at a second.
fn at_second<'a>(zone: &Zone<'a>, second: i64) -> ChronoOffset<'a>
    ensures zone { zone_told result ≡ zone.now }
    ensures value { IsSound zone.now → seconds_told result ≡ zone_off zone.now second }
{
    laws_below();
    let offset = zone.for_timestamp(second);
    told(zone, &offset)
}

// The second at which a day begins.
fn midnight(day: &NaiveDate) -> i64
    ensures { result ≡ pos 86400 *ℤ day.now }
{
    86_400 * day.day_number()
}

impl<'a> TimeZone for Zone<'a> {
    ghost use Rattle.zoneinfo64.specs.OffsetView.{zone_told};
    ghost use Rattle.zoneinfo64.specs.ZoneOffsets.{zone_off, zone_local, IsSound};

    type Offset = ChronoOffset<'a>;

    ghost off = { zone_off };

    ghost local = { zone_local };

    ghost sound = { IsSound };

    ghost zone_of = { zone_told };

    fn from_offset(offset: &ChronoOffset<'a>) -> Zone<'a> {
        offset.zone
    }

    fn offset_from_local_date(&self, day: &NaiveDate) -> MappedLocalTime<ChronoOffset<'a>> {
        mapped(&at_wall(self, midnight(day)))
    }

    fn offset_from_local_datetime(
        &self,
        wall: &NaiveDateTime,
    ) -> MappedLocalTime<ChronoOffset<'a>> {
        mapped(&at_wall(self, wall.wall_second()))
    }

    fn offset_from_utc_date(&self, utc: &NaiveDate) -> ChronoOffset<'a> {
        at_second(self, midnight(utc))
    }

    fn offset_from_utc_datetime(&self, utc: &NaiveDateTime) -> ChronoOffset<'a> {
        at_second(self, utc.wall_second())
    }
}

impl<'a> Civil for Zone<'a> {
    fn civil(&self, wall: &NaiveDateTime) -> CivilOffset<ChronoOffset<'a>> {
        at_wall(self, wall.wall_second())
    }
}
