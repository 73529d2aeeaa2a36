//! Moments of a zone whose offset there may not be known yet: the zone is asked for it once, where it is wanted.
ghost use Rattle.std.specs.Prelude.{◌≡◌, ◌<◌, ◌↔◌, ◌+ℤ◌, ◌-ℤ◌, IsTrue, IsSome, IfSome};
ghost use Rattle.std.specs.Option.{ForSome};
ghost use Rattle.civil.specs.Clock.{IsWallSecond};
ghost use Rattle.civil.specs.Times.{wall_of, nanos_of};
ghost use Rattle.zoned.specs.Offsets.{IsOffset};

use civil::{NaiveDate, NaiveDateTime, NaiveTime};
use interim::datetime::{DateTime, Refused};
use zoned::{Civil, Offset};

// A time in UTC, its zone, and the zone's seconds east of UTC there, where they are known. `inside` says that the wall time there
// is known to be one of the calendar.
#[derive(Drop)]
pub struct Located<Tz: Civil> {
    utc: NaiveDateTime,
    zone: Tz,
    east: Option<i32>,
    inside: bool,
    ghost in_day: { ForSome east IsOffset },
    ghost kept: { Tz.sound zone → ForSome east (λ seconds. seconds ≡ Tz.off zone (wall_of utc)) },
    ghost shown: { IsTrue inside → Tz.sound zone
        → IsWallSecond (wall_of utc +ℤ Tz.off zone (wall_of utc)) },
}

// The time in UTC of a wall time with an offset of so many seconds; none exactly where its second is outside the calendar.
fn written(wall: &NaiveDateTime, secs: i64) -> Option<NaiveDateTime>
    ensures some { IsSome result ↔ IsWallSecond (wall_of wall.now -ℤ secs) }
    ensures wall { IfSome result (λ utc. wall_of utc ≡ wall_of wall.now -ℤ secs) }
    ensures nanos { IfSome result (λ utc. nanos_of utc ≡ nanos_of wall.now) }
{
    let second = wall.wall_second().checked_sub(secs)?;
    NaiveDateTime::from_wall_second(second, wall.nanosecond())
}

impl<Tz: Civil> Located<Tz> {
    ghost use Rattle.tell.specs.Inside.LocatedView.{second_in, nanos_in, zone_in};

    /// The moment of a time in UTC. The zone is not asked.
    pub fn at(zone: &Tz, utc: NaiveDateTime) -> Located<Tz>
        ensures second { second_in result ≡ wall_of utc }
        ensures nanos { nanos_in result ≡ nanos_of utc }
        ensures zone { zone_in result ≡ zone.now }
    {
        Located {
            utc,
            zone: *zone,
            east: None,
            inside: false,
        }
    }

    /// The same, of a time in UTC whose wall time in a sound zone is one of the calendar.
    pub fn inside(zone: &Tz, utc: NaiveDateTime) -> Located<Tz>
        requires { Tz.sound zone.now
            → IsWallSecond (wall_of utc +ℤ Tz.off zone.now (wall_of utc)) }
        ensures second { second_in result ≡ wall_of utc }
        ensures nanos { nanos_in result ≡ nanos_of utc }
        ensures zone { zone_in result ≡ zone.now }
    {
        Located {
            utc,
            zone: *zone,
            east: None,
            inside: true,
        }
    }

    /// The seconds since 1970-01-01 00:00:00 UTC.
    pub fn second(&self) -> i64
        ensures value { result ≡ second_in self.now }
        ensures bound { IsWallSecond result }
    {
        self.utc.wall_second()
    }

    /// The nanoseconds since that second.
    pub fn nanos(&self) -> u32
        ensures value { result ≡ nanos_in self.now }
        ensures bound { result < 2000000000 }
    {
        self.utc.nanosecond()
    }

    /// The zone's seconds east of UTC there.
    pub fn seconds_east(&self) -> i32
        ensures value { Tz.sound (zone_in self.now)
            → result ≡ Tz.off (zone_in self.now) (second_in self.now) }
        ensures bound { IsOffset result }
    {
        match self.east {
            Some(seconds) => seconds,
            None => {
                let offset = self.zone.offset_from_utc_datetime(&self.utc);
                offset.fix().local_minus_utc()
            }
        }
    }
}

impl<Tz: Civil> DateTime for Located<Tz> {
    ghost use Rattle.std.specs.Prelude.{false};
    ghost use Rattle.interim.specs.Refusal.{civil_seconds};
    ghost use Rattle.interim.specs.Meaning.{ShowsIf, PlacesIf};
    ghost use Rattle.tell.specs.Inside.LocatedView.{second_in, nanos_in, zone_in};

    type TimeZone = Tz;

    type Date = NaiveDate;

    type Time = NaiveTime;

    ghost moment = { λ d. (second_in d, nanos_in d) };

    ghost zone = { zone_in };

    ghost seconds = { civil_seconds };

    ghost may_show = { λ zone s f w. ShowsIf (Tz.sound zone) (Tz.off zone) s f w };

    ghost may_place = { λ zone w f s. PlacesIf (Tz.sound zone) (Tz.off zone) w f s };

    ghost memory = { false };

    fn new(tz: Tz, date: NaiveDate, time: NaiveTime) -> Result<Located<Tz>, Refused> {
        match zoned::placed(&tz, &date.and_time(time)) {
            Some(moment) => Ok(Located {
                utc: moment.naive_utc(),
                zone: tz,
                east: Some(moment.offset().fix().local_minus_utc()),
                inside: false,
            }),
            None => Err(Refused::OutOfRange),
        }
    }

    fn zone_if_inside(&self) -> Option<Tz> {
        if self.inside { Some(self.zone) } else { None }
    }

    fn split(self) -> Result<(Tz, NaiveDate, NaiveTime), Refused> {
        match self.utc.moved(self.seconds_east() as i64) {
            Some(wall) => Ok((self.zone, wall.date(), wall.time())),
            None => Err(Refused::OutOfRange),
        }
    }

    fn at_offset(
        tz: Tz,
        date: NaiveDate,
        time: NaiveTime,
        secs: i64,
    ) -> Result<Located<Tz>, Refused> {
        match written(&date.and_time(time), secs) {
            Some(utc) => Ok(Located::at(&tz, utc)),
            None => Err(Refused::OutOfRange),
        }
    }

    fn offset_seconds(self, secs: i64) -> Result<Located<Tz>, Refused> {
        match self.utc.moved(secs) {
            Some(utc) => Ok(Located::at(&self.zone, utc)),
            None => Err(Refused::OutOfRange),
        }
    }

    ghost date_wants = { λ wants. wants };

    ghost time_wants = { λ wants. wants };
}
