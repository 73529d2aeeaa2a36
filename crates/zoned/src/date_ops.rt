//! Days moved by operators, changed part by part, and written.
ghost use Rattle.std.specs.Prelude.{◌≡◌, ◌↔◌, ℤ, pos, ◌+ℤ◌, ◌-ℤ◌, ◌*ℤ◌, int_div, IsSome, IfSome, IsTrue};
ghost use Rattle.civil.specs.CivilDates.{IsDay};
ghost use Rattle.civil.specs.Delta.{day_nanos};

use crate::date::Date;
use crate::offset::TimeZone;
use civil::{Datelike, IsoWeek, NaiveDate, TimeDelta, Weekday};
use std::fmt;
use std::ops::{Add, AddAssign, Sub, SubAssign};

/// The day moved as by [`checked_add_signed`](Date::checked_add_signed), which has to have an answer.
impl<Tz: TimeZone> Add<TimeDelta> for Date<Tz> {
    ghost use Rattle.zoned.specs.Days.{day_number, date_offset};

    type Output = Date<Tz>;

    ghost can_add = { λ d n. IsDay (day_number d +ℤ int_div n (pos 86400000000000)) };

    ghost add_gives = { λ d n r.
        (day_number r ≡ day_number d +ℤ int_div n (pos 86400000000000))
        × (date_offset r ≡ date_offset d) };

    fn add(self, rhs: TimeDelta) -> Date<Tz> {
        self.checked_add_signed(rhs).unwrap()
    }
}

/// As `+`.
impl<Tz: TimeZone> AddAssign<TimeDelta> for Date<Tz> {
    ghost use Rattle.zoned.specs.Days.{day_number, date_offset};

    ghost can_add_assign = { λ d n. IsDay (day_number d +ℤ int_div n (pos 86400000000000)) };

    ghost add_assign_gives = { λ d n r.
        (day_number r ≡ day_number d +ℤ int_div n (pos 86400000000000))
        × (date_offset r ≡ date_offset d) };

    fn add_assign(&mut self, rhs: TimeDelta) {
        *self = self.checked_add_signed(rhs).unwrap();
    }
}

/// The day moved back as by [`checked_sub_signed`](Date::checked_sub_signed), which has to have an answer.
impl<Tz: TimeZone> Sub<TimeDelta> for Date<Tz> {
    ghost use Rattle.zoned.specs.Days.{day_number, date_offset};

    type Output = Date<Tz>;

    ghost can_sub = { λ d n. IsDay (day_number d -ℤ int_div n (pos 86400000000000)) };

    ghost sub_gives = { λ d n r.
        (day_number r ≡ day_number d -ℤ int_div n (pos 86400000000000))
        × (date_offset r ≡ date_offset d) };

    fn sub(self, rhs: TimeDelta) -> Date<Tz> {
        self.checked_sub_signed(rhs).unwrap()
    }
}

/// As `-` of a length of time.
impl<Tz: TimeZone> SubAssign<TimeDelta> for Date<Tz> {
    ghost use Rattle.zoned.specs.Days.{day_number, date_offset};

    ghost can_sub_assign = { λ d n. IsDay (day_number d -ℤ int_div n (pos 86400000000000)) };

    ghost sub_assign_gives = { λ d n r.
        (day_number r ≡ day_number d -ℤ int_div n (pos 86400000000000))
        × (date_offset r ≡ date_offset d) };

    fn sub_assign(&mut self, rhs: TimeDelta) {
        *self = self.checked_sub_signed(rhs).unwrap();
    }
}

/// The days from another day to this one, as [`signed_duration_since`](Date::signed_duration_since).
impl<Tz: TimeZone> Sub<Date<Tz>> for Date<Tz> {
    ghost use Rattle.zoned.specs.Days.{day_number};

    type Output = TimeDelta;

    ghost sub_gives = { λ d e r. r ≡ day_nanos (day_number d -ℤ day_number e) };

    fn sub(self, rhs: Date<Tz>) -> TimeDelta {
        self.signed_duration_since(rhs)
    }
}

impl<Tz: TimeZone> Date<Tz> {
    ghost use Rattle.zoned.specs.Days.{day_number, date_offset};
    ghost use Rattle.zoned.specs.Answers.{is_single};
    ghost use Rattle.zoned.specs.declared.offset.MappedLocalTime.TheVariants as Mapped;

    // The day in this day's zone, where the zone has one offset at its midnight.
    fn on_day(&self, date: NaiveDate) -> Option<Date<Tz>>
        ensures single { Tz.sound (Tz.zone_of (date_offset self.now))
            → IsSome result
            ↔ IsTrue
            (is_single (Tz.local (Tz.zone_of (date_offset self.now)) (pos 86400 *ℤ date))) }
        ensures day { IfSome result (λ d. day_number d ≡ date) }
        ensures offset { let zone = Tz.zone_of (date_offset self.now) in
            Tz.sound zone
            → IfSome result
            (λ d. Tz.local zone (pos 86400 *ℤ day_number d)
            ≡ Mapped.Single (Tz.Offset.seconds (date_offset d))) }
        ensures zone { IfSome result
            (λ d. Tz.zone_of (date_offset d) ≡ Tz.zone_of (date_offset self.now)) }
    {
        self.timezone().from_local_date(&date).single()
    }
}

/// The parts are those of the day. A setter answers the changed day with the zone's offset at its midnight; `None` exactly
/// where the calendar has no such day, or the zone has no offset at its midnight or two. 2018-04-01 with day 31 is none.
impl<Tz: TimeZone> Datelike for Date<Tz> {
    ghost use Rattle.zoned.specs.Days.{day_number, date_offset};
    ghost use Rattle.zoned.specs.Answers.{is_single};
    ghost use Rattle.zoned.specs.declared.offset.MappedLocalTime.TheVariants as Mapped;

    ghost number = { λ d. day_number d };

    ghost settled = { λ d. Tz.sound (Tz.zone_of (date_offset d)) };

    ghost takes = { λ d day.
        IsTrue (is_single (Tz.local (Tz.zone_of (date_offset d)) (pos 86400 *ℤ day))) };

    ghost keeps = { λ d e. let zone = Tz.zone_of (date_offset d) in
        (Tz.zone_of (date_offset e) ≡ zone)
        × (Tz.sound zone → Tz.local zone (pos 86400 *ℤ day_number e)
        ≡ Mapped.Single (Tz.Offset.seconds (date_offset e))) };

    fn year(&self) -> i32 {
        self.naive_utc().year()
    }

    fn month(&self) -> u32 {
        self.naive_utc().month()
    }

    fn day(&self) -> u32 {
        self.naive_utc().day()
    }

    fn ordinal(&self) -> u32 {
        self.naive_utc().ordinal()
    }

    fn weekday(&self) -> Weekday {
        self.naive_utc().weekday()
    }

    fn iso_week(&self) -> IsoWeek {
        self.naive_utc().iso_week()
    }

    fn with_year(&self, year: i32) -> Option<Date<Tz>> {
        match self.naive_utc().with_year(year) {
            Some(date) => self.on_day(date),
            None => None,
        }
    }

    fn with_month(&self, month: u32) -> Option<Date<Tz>> {
        match self.naive_utc().with_month(month) {
            Some(date) => self.on_day(date),
            None => None,
        }
    }

    fn with_day(&self, day: u32) -> Option<Date<Tz>> {
        match self.naive_utc().with_day(day) {
            Some(date) => self.on_day(date),
            None => None,
        }
    }

    fn with_ordinal(&self, ordinal: u32) -> Option<Date<Tz>> {
        match self.naive_utc().with_ordinal(ordinal) {
            Some(date) => self.on_day(date),
            None => None,
        }
    }
}

/// The date, and behind it the offset as it is displayed: `2000-01-01+01:00`, `2000-01-06UTC`.
impl<Tz: TimeZone> fmt::Display for Date<Tz>
where
    Tz::Offset: fmt::Display,
{
    ghost use Rattle.std.specs.Prelude.{Some};
    ghost use Rattle.std.specs.Fmt.{◌++?◌};
    ghost use Rattle.civil.specs.Dates.{date_text};
    ghost use Rattle.zoned.specs.Days.{day_number, date_offset};

    ghost output = { λ d. Some (date_text (day_number d)) ++? Tz.Offset.output (date_offset d) };

    fn fmt<W: fmt::Write>(&self, f: &mut fmt::Formatter<W>) -> fmt::Result {
        let date = self.naive_utc();
        let offset = *self.offset();
        write!(f, "{date}{offset}")
    }
}

/// The date, and behind it the offset as it is debugged: `2000-01-06Z`.
impl<Tz: TimeZone> fmt::Debug for Date<Tz>
where
    Tz::Offset: fmt::Debug,
{
    ghost use Rattle.std.specs.Prelude.{Some};
    ghost use Rattle.std.specs.Fmt.{◌++?◌};
    ghost use Rattle.civil.specs.Dates.{date_text};
    ghost use Rattle.zoned.specs.Days.{day_number, date_offset};

    ghost debug_output = { λ d. Some (date_text (day_number d))
        ++? Tz.Offset.debug_output (date_offset d) };

    fn fmt<W: fmt::Write>(&self, f: &mut fmt::Formatter<W>) -> fmt::Result {
        let date = self.naive_utc();
        let offset = *self.offset();
        write!(f, "{date:?}{offset:?}")
    }
}
