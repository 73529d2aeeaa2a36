//! The moment that a phrase means in a zone.
ghost use Rattle.std.specs.Prelude.{◌≡◌, ◌↔◌, false, IsTrue, IfOk, IfSome};
ghost use Rattle.timeline.specs.Laws.{IsLawful};
ghost use Rattle.zoned.specs.Offsets.{IsOffset};
ghost use Rattle.zoneinfo64.specs.ZoneView.{plain_zone};
ghost use Rattle.interim.specs.Grammar.{parts_of};
ghost use Rattle.interim.specs.Meaning.{MeansIn};
ghost use Rattle.interim.specs.Refusal.{AnswersPhrase, civil_days, civil_seconds};
ghost use Rattle.interim.specs.Tokens.{phrase_tokens};
ghost use Rattle.tell.specs.Moments.{IsBase};
ghost use Rattle.tell.specs.Inside.MomentView.{ResolvesTo, IsInCalendar, moment_view};
ghost use Rattle.tell.specs.Inside.LocatedView.{second_in, nanos_in, zone_in};

use crate::located::Located;
use civil::NaiveDateTime;
use interim::laws::sound_zones_mean;
use interim::{DateResult, Dialect, parse_date_string};
use timeline::laws::offsets_are_small;
use zoned::Civil;
use zoneinfo64::Zone;

/// A second with its nanoseconds, and the zone's offset there, in seconds east of UTC.
#[derive(Clone, Copy)]
pub struct Moment {
    pub second: i64,
    pub nanos: u32,
    pub offset: i32,
}

const FIRST_BASE: i64 = -377_705_116_800;

const LAST_BASE: i64 = 253_402_300_799;

/// Whether a second lies in the years -9999 to 9999.
pub fn is_base(base: i64) -> bool
    ensures { IsTrue result ↔ IsBase base }
{
    FIRST_BASE <= base && base <= LAST_BASE
}

// The base as a moment of the zone, which is not asked: a base is far inside the calendar, and so is its wall time.
fn base_in<Tz: Civil>(zone: &Tz, base: i64) -> Located<Tz>
    requires base { IsBase base }
    requires small { Tz.sound zone.now → IsOffset (Tz.off zone.now base) }
    ensures second { second_in result ≡ base }
    ensures nanos { nanos_in result ≡ 0 }
    ensures zone { zone_in result ≡ zone.now }
{
    match NaiveDateTime::from_wall_second(base, 0) {
        Some(utc) => Located::inside(zone, utc),
        None => unreachable!(),
    }
}

// The moment that a phrase means in a sound zone from a base, or the phrase's fault.
fn resolved<Tz: Civil>(zone: &Tz, base: i64, phrase: &str, dialect: Dialect) -> DateResult<Moment>
    requires base { IsBase base }
    requires small { Tz.sound zone.now → IsOffset (Tz.off zone.now base) }
    ensures said { Tz.sound zone.now
        → AnswersPhrase false moment_view (parts_of dialect (phrase_tokens phrase.now))
        (MeansIn (Tz.off zone.now) civil_days civil_seconds (base, 0) dialect) result }
    ensures offset { Tz.sound zone.now → IfOk result (λ m. m.offset ≡ Tz.off zone.now m.second) }
    ensures bound { IfOk result IsInCalendar }
{
    sound_zones_mean::<Tz>();
    match parse_date_string(phrase, base_in(zone, base), dialect) {
        Ok(moment) => Ok(Moment {
            second: moment.second(),
            nanos: moment.nanos(),
            offset: moment.seconds_east(),
        }),
        Err(fault) => Err(fault),
    }
}

/// The moment that a phrase means in a lawful zone from a base, or the phrase's fault.
pub fn moment_of<'a>(
    zone: Zone<'a>,
    base: i64,
    phrase: &str,
    dialect: Dialect,
) -> DateResult<Moment>
    requires { IsBase base }
    ensures said { IfSome (plain_zone zone.entry) (λ z. IsLawful z
        → ResolvesTo z dialect base phrase.now result) }
    ensures bound { IfOk result IsInCalendar }
{
    offsets_are_small();
    resolved(&zone, base, phrase, dialect)
}
