//! Distances from one moment to another.
ghost use Rattle.std.specs.Prelude.{◌≡◌, ◌-ℤ◌, ◌<ℤ◌, ◌≤ℤ◌, unsigned_abs, IfOk, codes};
ghost use Rattle.std.specs.String.{string_bytes};
ghost use Rattle.zoned.specs.Moment.{nanos_since_epoch};
ghost use Rattle.timeago.specs.Words.{IsWords};
ghost use Rattle.timeago.specs.Within.{TellsWithin};
ghost use Rattle.timeago.specs.Formatters.{settings_of, language_of};

use crate::formatter::Formatter;
use std::alloc::{AllocError, Global};
use tongues::Language;
use zoned::{DateTime, TimeZone};

impl<L: Language> Formatter<L> {
    /// The words of the time from one moment to another, whatever their zones, as [`convert`](Formatter::convert) tells them;
    /// `???` exactly where `to` is before `from`.
    ///
    /// Nanoseconds of 1,000,000,000 and more count at their value: a leap second is the second after it. The only error is want
    /// of memory.
    ///
    /// From 2013-12-19 15:00 to 2013-12-23 17:00, in English and with two counts, it is `4 days 2 hours ago`.
    pub fn convert_chrono<Tz1: TimeZone, Tz2: TimeZone>(
        &self,
        alloc: Global,
        from: DateTime<Tz1>,
        to: DateTime<Tz2>,
    ) -> Result<String, AllocError>
        ensures unknown { nanos_since_epoch to <ℤ nanos_since_epoch from
            → IfOk result (λ text. string_bytes text ≡ codes "???") }
        ensures words { nanos_since_epoch from ≤ℤ nanos_since_epoch to → IfOk result (λ text.
            IsWords (L.speech (language_of self.now)) (settings_of self.now)
            (unsigned_abs (nanos_since_epoch to -ℤ nanos_since_epoch from)) (string_bytes text)) }
        ensures bound { nanos_since_epoch from ≤ℤ nanos_since_epoch to → IfOk result (λ text.
            TellsWithin (L.speech (language_of self.now)) (settings_of self.now)
            (unsigned_abs (nanos_since_epoch to -ℤ nanos_since_epoch from)) (string_bytes text)) }
    {
        match to.signed_duration_since(from).to_std() {
            Ok(distance) => self.convert(alloc, distance),
            Err(_) => String::from_str(alloc, "???"),
        }
    }
}
