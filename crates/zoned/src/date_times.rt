//! Clock times on a day, in its zone.
ghost use Rattle.std.specs.Prelude.{◌≡◌, ◌*◌, ℤ, pos, ◌+ℤ◌, ◌-ℤ◌, ◌*ℤ◌, IsSome, IfSome, option_map};
ghost use Rattle.civil.specs.Calendar.{wall_second};
ghost use Rattle.civil.specs.Clock.{IsClock, IsFraction};
ghost use Rattle.civil.specs.Times.{second_of_day, nanos_of_time};

use crate::date::Date;
use crate::datetime::DateTime;
use crate::offset::TimeZone;
use civil::NaiveTime;

impl<Tz: TimeZone> Date<Tz> {
    ghost use Rattle.zoned.specs.Answers.{IsOneMoment, HasOneMoment};
    ghost use Rattle.zoned.specs.Days.{day_number, date_offset};
    ghost use Rattle.zoned.specs.Moment.{second_of, fraction_of, offset_of};

    /// The moment of a clock time on this day, with the zone's offset for it; `None` exactly where the zone has no offset for
    /// it or two, or where the moment leaves the calendar.
    ///
    /// At +01:00 on 2000-01-01, 00:00:00 is second 946,681,200 since 1970-01-01 00:00:00 UTC.
    pub fn and_time(&self, time: NaiveTime) -> Option<DateTime<Tz>>
        ensures moment { let zone = Tz.zone_of (date_offset self.now) in
            let wall = pos 86400 *ℤ day_number self.now +ℤ pos (second_of_day time) in
            Tz.sound zone → IsOneMoment wall (Tz.local zone wall) (option_map second_of result) }
        ensures fraction { IfSome result (λ d. fraction_of d ≡ nanos_of_time time) }
        ensures offset { IfSome result
            (λ d. Tz.Offset.seconds (offset_of d)
            ≡ pos 86400 *ℤ day_number self.now +ℤ pos (second_of_day time) -ℤ second_of d) }
        ensures zone { IfSome result
            (λ d. Tz.zone_of (offset_of d) ≡ Tz.zone_of (date_offset self.now)) }
    {
        let wall = self.naive_utc().and_time(time);
        self.timezone().from_local_datetime(&wall).single()
    }

    /// [`and_time`](Date::and_time) of this hour, minute and second; `None` also where the hour is past 23, or the minute or
    /// the second past 59.
    ///
    /// In UTC on 2018-04-01, 12:00:00 is second 1,522,584,000, and 24:00:00 is none.
    pub fn and_hms_opt(&self, hour: u32, min: u32, sec: u32) -> Option<DateTime<Tz>>
        ensures clock { IfSome result (λ _. IsClock hour min sec) }
        ensures moment { let zone = Tz.zone_of (date_offset self.now) in
            let wall = wall_second (day_number self.now) hour min sec in
            Tz.sound zone → IsClock hour min sec
            → IsOneMoment wall (Tz.local zone wall) (option_map second_of result) }
        ensures fraction { IfSome result (λ d. fraction_of d ≡ 0) }
        ensures offset { IfSome result
            (λ d. Tz.Offset.seconds (offset_of d)
            ≡ wall_second (day_number self.now) hour min sec -ℤ second_of d) }
        ensures zone { IfSome result
            (λ d. Tz.zone_of (offset_of d) ≡ Tz.zone_of (date_offset self.now)) }
    {
        match NaiveTime::from_hms_opt(hour, min, sec) {
            Some(time) => self.and_time(time),
            None => None,
        }
    }

    /// [`and_time`](Date::and_time) of this hour, minute, second and millisecond; `None` also where no clock shows them. From
    /// 1,000 on they are those of a leap second, after second 59 alone: 23:59:59 and 1,999 is one.
    pub fn and_hms_milli_opt(
        &self,
        hour: u32,
        min: u32,
        sec: u32,
        milli: u32,
    ) -> Option<DateTime<Tz>>
        ensures clock { IfSome result
            (λ _. IsClock hour min sec × IsFraction sec (1000000 * milli)) }
        ensures moment { let zone = Tz.zone_of (date_offset self.now) in
            let wall = wall_second (day_number self.now) hour min sec in
            Tz.sound zone → IsClock hour min sec → IsFraction sec (1000000 * milli)
            → IsOneMoment wall (Tz.local zone wall) (option_map second_of result) }
        ensures fraction { IfSome result (λ d. fraction_of d ≡ 1000000 * milli) }
        ensures offset { IfSome result
            (λ d. Tz.Offset.seconds (offset_of d)
            ≡ wall_second (day_number self.now) hour min sec -ℤ second_of d) }
        ensures zone { IfSome result
            (λ d. Tz.zone_of (offset_of d) ≡ Tz.zone_of (date_offset self.now)) }
    {
        match NaiveTime::from_hms_milli_opt(hour, min, sec, milli) {
            Some(time) => self.and_time(time),
            None => None,
        }
    }

    /// [`and_time`](Date::and_time) of this hour, minute, second and microsecond; `None` also where no clock shows them. From
    /// 1,000,000 on they are those of a leap second, after second 59 alone: 23:59:59 and 1,999,999 is one.
    pub fn and_hms_micro_opt(
        &self,
        hour: u32,
        min: u32,
        sec: u32,
        micro: u32,
    ) -> Option<DateTime<Tz>>
        ensures clock { IfSome result (λ _. IsClock hour min sec × IsFraction sec (1000 * micro)) }
        ensures moment { let zone = Tz.zone_of (date_offset self.now) in
            let wall = wall_second (day_number self.now) hour min sec in
            Tz.sound zone → IsClock hour min sec → IsFraction sec (1000 * micro)
            → IsOneMoment wall (Tz.local zone wall) (option_map second_of result) }
        ensures fraction { IfSome result (λ d. fraction_of d ≡ 1000 * micro) }
        ensures offset { IfSome result
            (λ d. Tz.Offset.seconds (offset_of d)
            ≡ wall_second (day_number self.now) hour min sec -ℤ second_of d) }
        ensures zone { IfSome result
            (λ d. Tz.zone_of (offset_of d) ≡ Tz.zone_of (date_offset self.now)) }
    {
        match NaiveTime::from_hms_micro_opt(hour, min, sec, micro) {
            Some(time) => self.and_time(time),
            None => None,
        }
    }

    /// [`and_time`](Date::and_time) of this hour, minute, second and nanosecond; `None` also where no clock shows them. From
    /// 1,000,000,000 on they are those of a leap second, after second 59 alone: 23:59:59 and 1,999,999,999 is one.
    pub fn and_hms_nano_opt(&self, hour: u32, min: u32, sec: u32, nano: u32) -> Option<DateTime<Tz>>
        ensures clock { IfSome result (λ _. IsClock hour min sec × IsFraction sec nano) }
        ensures moment { let zone = Tz.zone_of (date_offset self.now) in
            let wall = wall_second (day_number self.now) hour min sec in
            Tz.sound zone → IsClock hour min sec → IsFraction sec nano
            → IsOneMoment wall (Tz.local zone wall) (option_map second_of result) }
        ensures fraction { IfSome result (λ d. fraction_of d ≡ nano) }
        ensures offset { IfSome result
            (λ d. Tz.Offset.seconds (offset_of d)
            ≡ wall_second (day_number self.now) hour min sec -ℤ second_of d) }
        ensures zone { IfSome result
            (λ d. Tz.zone_of (offset_of d) ≡ Tz.zone_of (date_offset self.now)) }
    {
        match NaiveTime::from_hms_nano_opt(hour, min, sec, nano) {
            Some(time) => self.and_time(time),
            None => None,
        }
    }

    /// The value of [`and_hms_opt`](Date::and_hms_opt). There has to be one: a clock shows this time, the zone keeps its law and has
    /// one offset for it, and the moment is in the calendar.
    pub fn and_hms(&self, hour: u32, min: u32, sec: u32) -> DateTime<Tz>
        requires sound { Tz.sound (Tz.zone_of (date_offset self.now)) }
        requires clock { IsClock hour min sec }
        requires moment { let zone = Tz.zone_of (date_offset self.now) in
            let wall = wall_second (day_number self.now) hour min sec in
            HasOneMoment wall (Tz.local zone wall) }
        ensures moment { let zone = Tz.zone_of (date_offset self.now) in
            let wall = wall_second (day_number self.now) hour min sec in
            IsOneMoment wall (Tz.local zone wall) (Some (second_of result)) }
        ensures fraction { fraction_of result ≡ 0 }
        ensures offset { Tz.Offset.seconds (offset_of result)
            ≡ wall_second (day_number self.now) hour min sec -ℤ second_of result }
        ensures zone { Tz.zone_of (offset_of result) ≡ Tz.zone_of (date_offset self.now) }
    {
        self.and_hms_opt(hour, min, sec).unwrap()
    }

    /// The value of [`and_hms_milli_opt`](Date::and_hms_milli_opt). There has to be one: a clock shows this time, the zone keeps its law and has
    /// one offset for it, and the moment is in the calendar.
    pub fn and_hms_milli(&self, hour: u32, min: u32, sec: u32, milli: u32) -> DateTime<Tz>
        requires sound { Tz.sound (Tz.zone_of (date_offset self.now)) }
        requires clock { IsClock hour min sec }
        requires fraction { IsFraction sec (1000000 * milli) }
        requires moment { let zone = Tz.zone_of (date_offset self.now) in
            let wall = wall_second (day_number self.now) hour min sec in
            HasOneMoment wall (Tz.local zone wall) }
        ensures moment { let zone = Tz.zone_of (date_offset self.now) in
            let wall = wall_second (day_number self.now) hour min sec in
            IsOneMoment wall (Tz.local zone wall) (Some (second_of result)) }
        ensures fraction { fraction_of result ≡ 1000000 * milli }
        ensures offset { Tz.Offset.seconds (offset_of result)
            ≡ wall_second (day_number self.now) hour min sec -ℤ second_of result }
        ensures zone { Tz.zone_of (offset_of result) ≡ Tz.zone_of (date_offset self.now) }
    {
        self.and_hms_milli_opt(hour, min, sec, milli).unwrap()
    }

    /// The value of [`and_hms_micro_opt`](Date::and_hms_micro_opt). There has to be one: a clock shows this time, the zone keeps its law and has
    /// one offset for it, and the moment is in the calendar.
    pub fn and_hms_micro(&self, hour: u32, min: u32, sec: u32, micro: u32) -> DateTime<Tz>
        requires sound { Tz.sound (Tz.zone_of (date_offset self.now)) }
        requires clock { IsClock hour min sec }
        requires fraction { IsFraction sec (1000 * micro) }
        requires moment { let zone = Tz.zone_of (date_offset self.now) in
            let wall = wall_second (day_number self.now) hour min sec in
            HasOneMoment wall (Tz.local zone wall) }
        ensures moment { let zone = Tz.zone_of (date_offset self.now) in
            let wall = wall_second (day_number self.now) hour min sec in
            IsOneMoment wall (Tz.local zone wall) (Some (second_of result)) }
        ensures fraction { fraction_of result ≡ 1000 * micro }
        ensures offset { Tz.Offset.seconds (offset_of result)
            ≡ wall_second (day_number self.now) hour min sec -ℤ second_of result }
        ensures zone { Tz.zone_of (offset_of result) ≡ Tz.zone_of (date_offset self.now) }
    {
        self.and_hms_micro_opt(hour, min, sec, micro).unwrap()
    }

    /// The value of [`and_hms_nano_opt`](Date::and_hms_nano_opt). There has to be one: a clock shows this time, the zone keeps its law and has
    /// one offset for it, and the moment is in the calendar.
    pub fn and_hms_nano(&self, hour: u32, min: u32, sec: u32, nano: u32) -> DateTime<Tz>
        requires sound { Tz.sound (Tz.zone_of (date_offset self.now)) }
        requires clock { IsClock hour min sec }
        requires fraction { IsFraction sec nano }
        requires moment { let zone = Tz.zone_of (date_offset self.now) in
            let wall = wall_second (day_number self.now) hour min sec in
            HasOneMoment wall (Tz.local zone wall) }
        ensures moment { let zone = Tz.zone_of (date_offset self.now) in
            let wall = wall_second (day_number self.now) hour min sec in
            IsOneMoment wall (Tz.local zone wall) (Some (second_of result)) }
        ensures fraction { fraction_of result ≡ nano }
        ensures offset { Tz.Offset.seconds (offset_of result)
            ≡ wall_second (day_number self.now) hour min sec -ℤ second_of result }
        ensures zone { Tz.zone_of (offset_of result) ≡ Tz.zone_of (date_offset self.now) }
    {
        self.and_hms_nano_opt(hour, min, sec, nano).unwrap()
    }
}
