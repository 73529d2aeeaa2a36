ghost use Rattle.std.specs.Prelude.{◌≡◌, ℤ, pos, ◌-ℤ◌, ◌*ℤ◌};
ghost use Rattle.civil.specs.Times.{wall_of, nanos_of};
ghost use Rattle.zoned.specs.Days.{day_number, date_offset};
ghost use Rattle.zoned.specs.Moment.{seconds_east, second_of, fraction_of, offset_of};
ghost use Rattle.zoned.specs.CivilAnswers.{IsCivil, mapped_of, civil_map, mapped_map, first_offset, AllCivil, AllMapped};
ghost use Rattle.zoned.specs.Answers.{single_of, earliest_of, latest_of, AreMoments};
ghost use Rattle.zoned.specs.declared.offset.MappedLocalTime.{MappedLocalTime};

use crate::date::Date;
use crate::datetime::DateTime;
use crate::fixed::FixedOffset;
use crate::placing::{days, moments};
use civil::{NaiveDate, NaiveDateTime};

/// What a wall time has in a zone: no value, one, or an earlier and a later one.
#[derive(Clone, Copy, PartialEq, Eq, Hash)]
pub enum MappedLocalTime<T> {
    None,
    Single(T),
    Ambiguous(T, T),
}

impl<T: Drop> MappedLocalTime<T> {
    /// The value of `Single`; `None` exactly for the others.
    pub fn single(self) -> Option<T>
        ensures { result ≡ single_of self }
    {
        match self {
            MappedLocalTime::Single(value) => Some(value),
            _ => None,
        }
    }

    /// The first value; `None` exactly for `None`.
    pub fn earliest(self) -> Option<T>
        ensures { result ≡ earliest_of self }
    {
        match self {
            MappedLocalTime::None => None,
            MappedLocalTime::Single(value) => Some(value),
            MappedLocalTime::Ambiguous(first, _) => Some(first),
        }
    }

    /// The last value; `None` exactly for `None`.
    pub fn latest(self) -> Option<T>
        ensures { result ≡ latest_of self }
    {
        match self {
            MappedLocalTime::None => None,
            MappedLocalTime::Single(value) => Some(value),
            MappedLocalTime::Ambiguous(_, last) => Some(last),
        }
    }
}

/// The offsets of a wall time, on both sides of a transition also where the clock is put forward over it.
#[derive(Clone, Copy)]
pub enum CivilOffset<O> {
    /// One second shows the wall time.
    Single(O),
    /// Two seconds show it.
    Ambiguous { before: O, after: O },
    /// No second shows it.
    Gap { before: O, after: O },
}

impl<O: Copy> CivilOffset<O> {
    /// The offset by which the wall time is placed: the one, the first of two, or the one before the gap.
    pub fn first(self) -> O
        ensures { result ≡ first_offset self }
    {
        match self {
            CivilOffset::Single(offset) => offset,
            CivilOffset::Ambiguous { before, .. } => before,
            CivilOffset::Gap { before, .. } => before,
        }
    }
}

/// An offset, which names its zone.
pub trait Offset: Copy {
    /// The seconds east of UTC.
    ghost seconds: { Self → ℤ };

    /// The same offset without its zone.
    fn fix(&self) -> FixedOffset
        ensures { seconds_east result ≡ seconds self.now };
}

/// A time zone.
///
/// What is said of offsets holds in a sound zone; in another one the calls return, and the offset still names the zone.
pub trait TimeZone: Copy {
    type Offset: Offset;

    /// The offset at a second.
    ghost off: { Self → ℤ → ℤ };

    /// The offsets of a wall second.
    ghost local: { Self → ℤ → MappedLocalTime ℤ };

    /// Whether the zone keeps the law.
    ghost sound: { Self → Type 0 };

    /// The zone of an offset.
    ghost zone_of: { Self.Offset → Self };

    /// The zone of an offset.
    fn from_offset(offset: &Self::Offset) -> Self
        ensures { result ≡ zone_of offset.now };

    /// The offsets at midnight of a day.
    fn offset_from_local_date(&self, day: &NaiveDate) -> MappedLocalTime<Self::Offset>
        ensures zone { AllMapped (λ o. zone_of o ≡ self.now) result }
        ensures value { sound self.now
            → mapped_map Self.Offset.seconds result ≡ Self.local self.now (pos 86400 *ℤ day.now) };

    /// The offsets of a wall time.
    fn offset_from_local_datetime(&self, wall: &NaiveDateTime) -> MappedLocalTime<Self::Offset>
        ensures zone { AllMapped (λ o. zone_of o ≡ self.now) result }
        ensures value { sound self.now
            → mapped_map Self.Offset.seconds result ≡ Self.local self.now (wall_of wall.now) };

    /// The offset at midnight of a day in UTC.
    fn offset_from_utc_date(&self, utc: &NaiveDate) -> Self::Offset
        ensures zone { zone_of result ≡ self.now }
        ensures value { sound self.now
            → Self.Offset.seconds result ≡ off self.now (pos 86400 *ℤ utc.now) };

    /// The offset at a time in UTC.
    fn offset_from_utc_datetime(&self, utc: &NaiveDateTime) -> Self::Offset
        ensures zone { zone_of result ≡ self.now }
        ensures value { sound self.now
            → Self.Offset.seconds result ≡ off self.now (wall_of utc.now) };

    /// The day with each offset that the zone has at its midnight: none where the clock is put forward over midnight, and an
    /// earlier and a later one where it is put back over it. `Utc` has 2000-01-01 once.
    final fn from_local_date(&self, day: &NaiveDate) -> MappedLocalTime<Date<Self>>
        ensures days { AllMapped (λ d. day_number d ≡ day.now) result }
        ensures zone { AllMapped (λ d. zone_of (date_offset d) ≡ self.now) result }
        ensures offsets { sound self.now
            → mapped_map (λ d. Self.Offset.seconds (date_offset d)) result
            ≡ Self.local self.now (pos 86400 *ℤ day.now) }
    {
        days::<Self>(day, self.offset_from_local_date(day))
    }

    /// The day with the zone's offset at its midnight in UTC. 2000-01-01 at +01:00 is `2000-01-01+01:00`.
    final fn from_utc_date(&self, utc: &NaiveDate) -> Date<Self>
        ensures day { day_number result ≡ utc.now }
        ensures zone { zone_of (date_offset result) ≡ self.now }
        ensures offset { sound self.now
            → Self.Offset.seconds (date_offset result) ≡ off self.now (pos 86400 *ℤ utc.now) }
    {
        Date::from_utc(*utc, self.offset_from_utc_date(utc))
    }

    /// The moments of a wall time; there are none also where one leaves the calendar.
    final fn from_local_datetime(&self, wall: &NaiveDateTime) -> MappedLocalTime<DateTime<Self>>
        ensures zone { AllMapped (λ d. zone_of (offset_of d) ≡ self.now) result }
        ensures fraction { AllMapped (λ d. fraction_of d ≡ nanos_of wall.now) result }
        ensures offsets { AllMapped
            (λ d. Self.Offset.seconds (offset_of d) ≡ wall_of wall.now -ℤ second_of d) result }
        ensures moments { sound self.now
            → AreMoments (wall_of wall.now) (Self.local self.now (wall_of wall.now))
            (mapped_map second_of result) }
    {
        moments::<Self>(wall, self.offset_from_local_datetime(wall))
    }

    /// The moment of a time in UTC.
    final fn from_utc_datetime(&self, utc: &NaiveDateTime) -> DateTime<Self>
        ensures second { second_of result ≡ wall_of utc.now }
        ensures fraction { fraction_of result ≡ nanos_of utc.now }
        ensures zone { zone_of (offset_of result) ≡ self.now }
        ensures offset { sound self.now
            → Self.Offset.seconds (offset_of result) ≡ off self.now (second_of result) }
    {
        DateTime::from_naive_utc_and_offset(*utc, self.offset_from_utc_datetime(utc))
    }
}

/// A zone that also tells the offsets on the two sides of a gap.
///
/// In a sound zone its answer counts the seconds that show the wall time.
pub trait Civil: TimeZone {
    /// The offsets of a wall time.
    fn civil(&self, wall: &NaiveDateTime) -> CivilOffset<Self::Offset>
        ensures zone { AllCivil (λ o. Self.zone_of o ≡ self.now) result }
        ensures counts { Self.sound self.now
            → IsCivil (Self.off self.now) (wall_of wall.now)
            (civil_map Self.Offset.seconds result) }
        ensures local { Self.sound self.now
            → Self.local self.now (wall_of wall.now)
            ≡ mapped_of (civil_map Self.Offset.seconds result) };
}
