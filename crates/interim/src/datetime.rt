//! What phrases are resolved over: dates, times of a day, and moments in a zone.
ghost use Rattle.std.specs.Prelude.{◌≡◌, ℕ, ℤ, pos, negsuc, ◌+ℤ◌, ◌≤ℤ◌, Bool, false, IsTrue, Some, None, IsSome, IfSome, IfOk, IsErrOf};
ghost use Rattle.std.specs.Ordering.{int_cmp};
ghost use Rattle.civil.specs.Calendar.{weekday_of};
ghost use Rattle.civil.specs.Months.{months_on};
ghost use Rattle.interim.specs.Refusal.{Gives, Answers, Ends, is_within, within};
ghost use Rattle.interim.specs.Walls.{Wall};
ghost use Rattle.interim.specs.DatesAndTimes.{IsDateOn, date_at, time_at, time_cmp, with_micros};
ghost use Rattle.interim.specs.Meaning.{IsWallAt, Lands, moment_at};
ghost use Rattle.interim.specs.Aims.{aim};

/// Why a date or a moment is refused.
#[derive(Clone, Copy, PartialEq, Eq, Debug)]
pub enum Refused {
    /// A date does not exist, a time field that counts is too large, or the day or the second leaves the backend's calendar.
    OutOfRange,
    /// Memory could not be found.
    Memory,
}

/// A day of a calendar.
pub trait Date: Copy + PartialOrd {
    /// The day number.
    ghost number: { Self → ℤ };

    /// The first and the last day of the calendar.
    ghost calendar: { Ends };

    /// Whether calls may want memory.
    ghost memory: { Bool };

    /// The date of this year, month and day of the month.
    fn from_ymd(year: i32, month: u32, day: u32) -> Result<Self, Refused>
        ensures { Gives memory (λ d. Self.number d) result (date_at calendar year month day) };

    /// The date moved by so many months, cut to the last day of the month.
    fn offset_months(self, months: i32) -> Result<Self, Refused>
        ensures { (y : ℤ) × (m : ℕ) × (d : ℕ) × IsDateOn (number self) y m d
            × Gives memory (λ r. Self.number r) result
            (within calendar (months_on y m d months)) };

    /// The date moved by so many days.
    fn offset_days(self, days: i64) -> Result<Self, Refused>
        ensures { Gives memory (λ d. Self.number d) result
            (within calendar (number self +ℤ days)) };

    /// The year. It, the year before and the year after are years of 32 bits.
    fn year(&self) -> i32
        ensures year { (m : ℕ) × (d : ℕ) × IsDateOn (number self.now) result m d }
        ensures low { negsuc 2147483646 ≤ℤ result }
        ensures high { result ≤ℤ pos 2147483646 };

    /// The day of the week, with Monday 0.
    fn weekday(&self) -> u8
        ensures { pos result ≡ weekday_of (number self.now) };

    /// Dates are ordered as their day numbers.
    ghost ordered: { (a b : Self) → Self.partial_cmp a b ≡ Some (int_cmp (number a) (number b)) };
}

/// A time of a day.
pub trait Time: Copy + PartialOrd {
    /// The second of the day and its nanoseconds.
    ghost time: { Self → ℕ × ℕ };

    /// Whether calls may want memory.
    ghost memory: { Bool };

    /// The time of this hour, minute and second.
    fn from_hms(h: u32, m: u32, s: u32) -> Result<Self, Refused>
        ensures { Gives memory (λ t. Self.time t) result (time_at h m s) };

    /// The same second with so many microseconds; refused at 1,000,000 and more.
    fn with_micros(self, ms: u32) -> Result<Self, Refused>
        ensures { Gives memory (λ t. Self.time t) result (with_micros ms (time self)) };

    /// Times are ordered by their second, then their nanoseconds.
    ghost ordered: { (a b : Self) → Self.partial_cmp a b ≡ Some (time_cmp (time a) (time b)) };
}

/// A moment in a zone.
pub trait DateTime: Sized + Drop {
    type TimeZone: Drop;

    type Date: Date;

    type Time: Time;

    /// The second and its nanoseconds.
    ghost moment: { Self → ℤ × ℕ };

    /// The zone.
    ghost zone: { Self → Self.TimeZone };

    /// The first and the last second of the calendar.
    ghost seconds: { Ends };

    /// The wall seconds that a zone may show at a second with its nanoseconds.
    ghost may_show: { Self.TimeZone → ℤ → ℕ → ℤ → Type 0 };

    /// The seconds at which a zone may place a wall second with its nanoseconds.
    ghost may_place: { Self.TimeZone → ℤ → ℕ → ℤ → Type 0 };

    /// Whether calls may want memory.
    ghost memory: { Bool };

    /// The moment at which the zone places the time on the date.
    fn new(tz: Self::TimeZone, date: Self::Date, time: Self::Time) -> Result<Self, Refused>
        ensures moment { Answers memory (λ d. Self.moment d) result
            (Lands (may_place tz) seconds
            (Some (aim None (Self.Date.number date) (Self.Time.time time)))) }
        ensures zone { IfOk result (λ d. Self.zone d ≡ tz) };

    /// The zone, where it is known that its wall time at the moment is one of the calendar; `None` says nothing.
    ///
    /// A backend that knows this without asking the zone tells it, and the rest need not.
    fn zone_if_inside(&self) -> Option<Self::TimeZone>
        ensures zone { IfSome result (λ tz. tz ≡ Self.zone self.now) }
        ensures some { IsSome result
            → (wall : Wall) × IsWallAt (may_show (Self.zone self.now)) (moment self.now) wall
            × IsTrue (is_within Self.Date.calendar wall.day) }
    {
        None
    }

    /// The zone, the date and the time that the zone shows at the moment.
    fn split(self) -> Result<(Self::TimeZone, Self::Date, Self::Time), Refused>
        ensures zone { IfOk result (λ parts. parts.0 ≡ Self.zone self) }
        ensures wall { IfOk result (λ parts.
            IsWallAt (may_show (Self.zone self)) (moment self)
            (record { day = Self.Date.number parts.1; time = Self.Time.time parts.2 })) }
        ensures bound { IfOk result (λ parts.
            IsTrue (is_within Self.Date.calendar (Self.Date.number parts.1))) }
        ensures outside { IsErrOf result Refused.OutOfRange →
            (wall : Wall) × IsWallAt (may_show (Self.zone self)) (moment self) wall
            × (is_within Self.Date.calendar wall.day ≡ false) }
        ensures wants { IsErrOf result Refused.Memory → IsTrue memory };

    /// The moment of the time on the date less so many seconds, in the zone.
    fn at_offset(
        tz: Self::TimeZone,
        date: Self::Date,
        time: Self::Time,
        secs: i64,
    ) -> Result<Self, Refused>
        ensures moment { Answers memory (λ d. Self.moment d) result
            (Lands (may_place tz) seconds
            (Some (aim (Some secs) (Self.Date.number date) (Self.Time.time time)))) }
        ensures zone { IfOk result (λ d. Self.zone d ≡ tz) };

    /// The moment so many seconds later, in its zone.
    fn offset_seconds(self, secs: i64) -> Result<Self, Refused>
        ensures moment { Gives memory (λ d. Self.moment d) result
            (moment_at seconds ((moment self).0 +ℤ secs) (moment self).1) }
        ensures zone { IfOk result (λ d. Self.zone d ≡ Self.zone self) };

    /// Where a call on its dates or times may want memory, one on it may.
    ghost date_wants: { IsTrue Self.Date.memory → IsTrue memory };

    ghost time_wants: { IsTrue Self.Time.memory → IsTrue memory };
}
