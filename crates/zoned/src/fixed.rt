ghost use Rattle.std.specs.Prelude.{◌≡◌, ◌↔◌, ℤ, pos, neg_ℤ, IsSome, IfSome};
ghost use Rattle.zoned.specs.Offsets.{IsOffset};
ghost use Rattle.zoned.specs.Texts.{offset_sign};

use crate::offset::{Civil, CivilOffset, MappedLocalTime, Offset, TimeZone};
use civil::{NaiveDate, NaiveDateTime};
use std::fmt;

/// An offset of less than a day, in whole seconds east of UTC; as a zone, it holds at every second.
#[derive(Clone, Copy, PartialEq, Eq, Hash)]
pub struct FixedOffset {
    seconds: i32,
    ghost in_day: { IsOffset seconds },
}

impl FixedOffset {
    ghost use Rattle.zoned.specs.Moment.{seconds_east};

    /// So many seconds east of UTC; `None` exactly where they are 86,400 or more to either side.
    pub fn east_opt(secs: i32) -> Option<FixedOffset>
        ensures some { IsSome result ↔ IsOffset secs }
        ensures value { IfSome result (λ offset. seconds_east offset ≡ secs) }
    {
        if secs <= -86_400 || secs >= 86_400 {
            return None;
        }
        Some(FixedOffset { seconds: secs })
    }

    /// So many seconds west of UTC; `None` exactly where they are 86,400 or more to either side.
    pub fn west_opt(secs: i32) -> Option<FixedOffset>
        ensures some { IsSome result ↔ IsOffset (neg_ℤ secs) }
        ensures value { IfSome result (λ offset. seconds_east offset ≡ neg_ℤ secs) }
    {
        if secs <= -86_400 || secs >= 86_400 {
            return None;
        }
        Some(FixedOffset { seconds: -secs })
    }

    // No offset.
    pub(crate) fn zero() -> FixedOffset
        ensures { seconds_east result ≡ pos 0 }
    {
        FixedOffset { seconds: 0 }
    }

    /// The wall time less UTC, in seconds.
    pub fn local_minus_utc(&self) -> i32
        ensures value { result ≡ seconds_east self.now }
        ensures bound { IsOffset result }
    {
        self.seconds
    }
}

impl Offset for FixedOffset {
    ghost use Rattle.zoned.specs.Moment.{seconds_east};

    ghost seconds = { seconds_east };

    fn fix(&self) -> FixedOffset {
        *self
    }
}

impl TimeZone for FixedOffset {
    ghost use Rattle.zoned.specs.Moment.{seconds_east};
    ghost use Rattle.zoned.specs.declared.offset.MappedLocalTime.TheVariants as Mapped;

    type Offset = FixedOffset;

    ghost off = { λ zone _. seconds_east zone };

    ghost local = { λ zone _. Mapped.Single (seconds_east zone) };

    ghost sound = { λ _. Unit {0} };

    ghost zone_of = { λ offset. offset };

    fn from_offset(offset: &FixedOffset) -> FixedOffset {
        *offset
    }

    fn offset_from_local_date(&self, _day: &NaiveDate) -> MappedLocalTime<FixedOffset> {
        MappedLocalTime::Single(*self)
    }

    fn offset_from_local_datetime(&self, _wall: &NaiveDateTime) -> MappedLocalTime<FixedOffset> {
        MappedLocalTime::Single(*self)
    }

    fn offset_from_utc_date(&self, _utc: &NaiveDate) -> FixedOffset {
        *self
    }

    fn offset_from_utc_datetime(&self, _utc: &NaiveDateTime) -> FixedOffset {
        *self
    }
}

impl Civil for FixedOffset {
    fn civil(&self, _wall: &NaiveDateTime) -> CivilOffset<FixedOffset> {
        CivilOffset::Single(*self)
    }
}

// The sign of an offset.
fn sign_of(seconds: i32) -> &'static str
    ensures { result.now ≡ offset_sign seconds }
{
    if seconds < 0 { "-" } else { "+" }
}

impl fmt::Display for FixedOffset {
    ghost use Rattle.std.specs.Prelude.{Some};
    ghost use Rattle.zoned.specs.Moment.{seconds_east};
    ghost use Rattle.zoned.specs.Texts.{offset_text};

    ghost output = { λ offset. Some (offset_text (seconds_east offset)) };

    fn fmt<W: fmt::Write>(&self, f: &mut fmt::Formatter<W>) -> fmt::Result {
        let sign = sign_of(self.seconds);
        let size = self.seconds.unsigned_abs();
        let (hour, minute, second) = (size / 3600, size / 60 % 60, size % 60);
        if second == 0 {
            write!(
                f,
                "{sign}{}{}:{}{}",
                hour / 10,
                hour % 10,
                minute / 10,
                minute % 10
            )
        } else {
            write!(
                f,
                "{sign}{}{}:{}{}:{}{}",
                hour / 10,
                hour % 10,
                minute / 10,
                minute % 10,
                second / 10,
                second % 10
            )
        }
    }
}

impl fmt::Debug for FixedOffset {
    ghost use Rattle.std.specs.Prelude.{Some};
    ghost use Rattle.zoned.specs.Moment.{seconds_east};
    ghost use Rattle.zoned.specs.Texts.{offset_text};

    ghost debug_output = { λ offset. Some (offset_text (seconds_east offset)) };

    fn fmt<W: fmt::Write>(&self, f: &mut fmt::Formatter<W>) -> fmt::Result {
        let offset = *self;
        write!(f, "{offset}")
    }
}
