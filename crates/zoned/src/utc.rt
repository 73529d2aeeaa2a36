ghost use Rattle.std.specs.Prelude.{ℤ, pos};

use crate::fixed::FixedOffset;
use crate::offset::{Civil, CivilOffset, MappedLocalTime, Offset, TimeZone};
use civil::{NaiveDate, NaiveDateTime};
use std::fmt;

/// The zone with no offset, and that offset.
#[derive(Clone, Copy, PartialEq, Eq, Hash)]
pub struct Utc;

impl Offset for Utc {
    ghost seconds = { λ _. pos 0 };

    fn fix(&self) -> FixedOffset {
        FixedOffset::zero()
    }
}

impl TimeZone for Utc {
    ghost use Rattle.std.specs.Prelude.{pos};
    ghost use Rattle.zoned.specs.declared.offset.MappedLocalTime.TheVariants as Mapped;

    type Offset = Utc;

    ghost off = { λ _ _. pos 0 };

    ghost local = { λ _ _. Mapped.Single (pos 0) };

    ghost sound = { λ _. Unit {0} };

    ghost zone_of = { λ offset. offset };

    fn from_offset(offset: &Utc) -> Utc {
        *offset
    }

    fn offset_from_local_date(&self, _day: &NaiveDate) -> MappedLocalTime<Utc> {
        MappedLocalTime::Single(*self)
    }

    fn offset_from_local_datetime(&self, _wall: &NaiveDateTime) -> MappedLocalTime<Utc> {
        MappedLocalTime::Single(*self)
    }

    fn offset_from_utc_date(&self, _utc: &NaiveDate) -> Utc {
        *self
    }

    fn offset_from_utc_datetime(&self, _utc: &NaiveDateTime) -> Utc {
        *self
    }
}

impl Civil for Utc {
    fn civil(&self, _wall: &NaiveDateTime) -> CivilOffset<Utc> {
        CivilOffset::Single(*self)
    }
}

impl fmt::Display for Utc {
    ghost use Rattle.std.specs.Prelude.{Some, codes};

    ghost output = { λ _. Some (codes "UTC") };

    fn fmt<W: fmt::Write>(&self, f: &mut fmt::Formatter<W>) -> fmt::Result {
        write!(f, "UTC")
    }
}

impl fmt::Debug for Utc {
    ghost use Rattle.std.specs.Prelude.{Some, codes};

    ghost debug_output = { λ _. Some (codes "Z") };

    fn fmt<W: fmt::Write>(&self, f: &mut fmt::Formatter<W>) -> fmt::Result {
        write!(f, "Z")
    }
}
