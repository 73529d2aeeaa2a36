//! What the parts of a phrase mean, over any backend.
ghost use Rattle.std.specs.Prelude.{◌≡◌, ◌-◌, ◌/◌, ◌%◌, ℕ, ℤ, pos, ◌+ℤ◌, ◌*ℤ◌, ◌≤ℤ◌, negsuc, Option, Some, IfOk, option_and_then};
ghost use Rattle.std.specs.declared.cmp.Ordering.{Ordering};
ghost use Rattle.std.specs.Ordering.{is_eq};
ghost use Rattle.interim.specs.Grammar.{parts_of};
ghost use Rattle.interim.specs.Tokens.{phrase_tokens};
ghost use Rattle.interim.specs.Refusal.{Gives, Answers, AnswersPhrase, within};
ghost use Rattle.interim.specs.Aims.{Aim, clock_on, clock_or, clock_time, midnight};
ghost use Rattle.interim.specs.Walls.{Wall, month_day, sought, step_by};
ghost use Rattle.interim.specs.DatesAndTimes.{IsDateOn, date_at};
ghost use Rattle.interim.specs.NamedDates.{IsNamed, deciding_time, own_weekday, week_day, weeks_more, weeks_on};
ghost use Rattle.interim.specs.PartMeanings.{LeadsTo};
ghost use Rattle.interim.specs.Inside.Resolving.{IsFromWall, refusal_of};
ghost use Rattle.interim.specs.Meaning.{Lands, Means};

use crate::datetime::{Date, DateTime, Refused, Time};
use crate::errors::{DateError, DateResult};
use crate::parser::parts_of;
use crate::types::{
    AbsDate, ByName, DateSpec, DateTimeSpec, Dialect, Direction, Interval, TimeSpec,
};
use std::cmp::Ordering;

#[cfg(test)]
mod tests;

impl AbsDate {
    /// The date; refused exactly where it does not exist, or the backend's calendar lacks it.
    pub fn into_date<D: Date>(self) -> Result<D, Refused>
        ensures { Gives D.memory (λ d. D.number d) result
            (date_at D.calendar self.year self.month self.day) }
    {
        D::from_ymd(self.year, self.month, self.day)
    }
}

// The time of the day that a clock time tells; its whole days are left out.
fn time_of<T: Time>(clock: TimeSpec) -> Result<T, Refused>
    ensures { Gives T.memory (λ t. T.time t) result (clock_time clock) }
{
    let time = T::from_hms(clock.hour % 24, clock.min, clock.sec)?;
    if clock.microsec == 0 {
        return Ok(time);
    }
    time.with_micros(clock.microsec)
}

impl TimeSpec {
    /// The moment of the clock time on a date; each 24 hours move the date on by a day.
    pub fn into_date_time<Dt: DateTime>(
        self,
        tz: Dt::TimeZone,
        date: Dt::Date,
    ) -> Result<Dt, Refused>
        ensures moment { Answers Dt.memory (λ d. Dt.moment d) result
            (Lands (Dt.may_place tz) Dt.seconds
            (clock_on Dt.Date.calendar self (Dt.Date.number date))) }
        ensures zone { IfOk result (λ d. Dt.zone d ≡ tz) }
    {
        let time = time_of::<Dt::Time>(self)?;
        let day = date.offset_days((self.hour / 24) as i64)?;
        match self.offset {
            None => Dt::new(tz, day, time),
            Some(secs) => Dt::at_offset(tz, day, time, secs),
        }
    }
}

// The clock time on the date, or else this time of it.
fn clock_or_time<Dt: DateTime>(
    tz: Dt::TimeZone,
    date: Dt::Date,
    time: Dt::Time,
    clock: Option<TimeSpec>,
) -> Result<Dt, Refused>
    ensures moment { Answers Dt.memory (λ d. Dt.moment d) result
        (Lands (Dt.may_place tz) Dt.seconds
        (clock_or Dt.Date.calendar (Dt.Time.time time) clock (Dt.Date.number date))) }
    ensures zone { IfOk result (λ d. Dt.zone d ≡ tz) }
{
    match clock {
        None => Dt::new(tz, date, time),
        Some(clock) => clock.into_date_time(tz, date),
    }
}

// The clock time on the date, or else midnight.
fn clock_or_midnight<Dt: DateTime>(
    tz: Dt::TimeZone,
    date: Dt::Date,
    clock: Option<TimeSpec>,
) -> Result<Dt, Refused>
    ensures moment { Answers Dt.memory (λ d. Dt.moment d) result
        (Lands (Dt.may_place tz) Dt.seconds
        (clock_or Dt.Date.calendar midnight clock (Dt.Date.number date))) }
    ensures zone { IfOk result (λ d. Dt.zone d ≡ tz) }
{
    match clock {
        None => {
            let time = Dt::Time::from_hms(0, 0, 0)?;
            Dt::new(tz, date, time)
        }
        Some(clock) => clock.into_date_time(tz, date),
    }
}

// One back with `Last` from what is after the base, and one on with `Next` from what is before it.
fn step<T: Copy + PartialOrd>(direction: Direction, found: T, base: T) -> i32
    ensures value { (order : Ordering) → T.partial_cmp found base ≡ Some order →
        result ≡ step_by direction order }
    ensures low { negsuc 0 ≤ℤ result }
    ensures high { result ≤ℤ pos 1 }
{
    match (direction, found.partial_cmp(&base)) {
        (Direction::Last, Some(Ordering::Greater)) => -1,
        (Direction::Next, Some(Ordering::Less)) => 1,
        _ => 0,
    }
}

// Whether neither of two is before the other.
fn is_same<T: Copy + PartialOrd>(found: T, base: T) -> bool
    ensures { (order : Ordering) → T.partial_cmp found base ≡ Some order → result ≡ is_eq order }
{
    matches!(found.partial_cmp(&base), Some(Ordering::Equal))
}

// The day of the month in the base's year, or a year back or on.
fn month_day<D: Date>(base: D, month: u32, day: u32, direction: Direction) -> Result<D, Refused>
    ensures { (y : ℤ) × (m : ℕ) × (d : ℕ) × IsDateOn (D.number base) y m d
        × Gives D.memory (λ r. D.number r) result
        (month_day D.calendar (D.number base) y month day direction) }
{
    let year = base.year();
    let date = D::from_ymd(year, month, day)?;
    D::from_ymd(year + step(direction, date, base), month, day)
}

// The date so many weeks later.
fn weeks_on<D: Date>(date: D, weeks: i32) -> Result<D, Refused>
    ensures { Gives D.memory (λ d. D.number d) result (weeks_on D.calendar weeks (D.number date)) }
{
    date.offset_days(7 * weeks as i64)
}

// A weekday without a direction is the next one.
fn sought(direction: Direction) -> Direction
    ensures { result ≡ sought direction }
{
    match direction {
        Direction::Last => Direction::Last,
        Direction::Next | Direction::Here => Direction::Next,
    }
}

// A written `next` is in `Uk` a week later.
fn weeks_more(dialect: Dialect, direction: Direction) -> i32
    ensures { result ≡ weeks_more dialect direction }
{
    match (dialect, direction) {
        (Dialect::Uk, Direction::Next) => 1,
        _ => 0,
    }
}

// The time that decides on the base's own weekday.
fn deciding_time<T: Time>(clock: Option<TimeSpec>) -> Result<T, Refused>
    ensures { Gives T.memory (λ t. T.time t) result (deciding_time clock) }
{
    match clock {
        None => T::from_hms(0, 0, 0),
        Some(clock) => T::from_hms(clock.hour, clock.min, clock.sec),
    }
}

// The day, or on the base's own weekday perhaps a week back or on, as the clock time decides.
fn own_weekday<Dt: DateTime>(
    base: Dt::Date,
    time: Dt::Time,
    direction: Direction,
    clock: Option<TimeSpec>,
    named: Dt::Date,
    day: Dt::Date,
) -> Result<Dt::Date, Refused>
    ensures { Gives Dt.memory (λ d. Dt.Date.number d) result
        (own_weekday Dt.Date.calendar
        (record { day = Dt.Date.number base; time = Dt.Time.time time })
        direction clock (Dt.Date.number named) (Dt.Date.number day)) }
{
    if !is_same(named, base) {
        return Ok(day);
    }
    let decides = deciding_time::<Dt::Time>(clock)?;
    weeks_on(day, step(direction, decides, time))
}

// The weekday of the base's week, or a week back or on.
fn week_day<Dt: DateTime>(
    base: Dt::Date,
    time: Dt::Time,
    dialect: Dialect,
    weekday: u8,
    direction: Direction,
    clock: Option<TimeSpec>,
) -> Result<Dt::Date, Refused>
    ensures { Gives Dt.memory (λ d. Dt.Date.number d) result
        (week_day Dt.Date.calendar
        (record { day = Dt.Date.number base; time = Dt.Time.time time })
        dialect weekday direction clock) }
{
    let sought = sought(direction);
    let named = base.offset_days(weekday as i64 - base.weekday() as i64)?;
    let sided = weeks_on(named, step(sought, named, base))?;
    let decided = own_weekday::<Dt>(base, time, sought, clock, named, sided)?;
    weeks_on(decided, weeks_more(dialect, direction))
}

// The day that a name means.
fn named_day<Dt: DateTime>(
    name: ByName,
    base: Dt::Date,
    time: Dt::Time,
    clock: Option<TimeSpec>,
    dialect: Dialect,
    direction: Direction,
) -> Result<Dt::Date, Refused>
    ensures { (found : Option ℤ)
        × IsNamed Dt.Date.calendar
        (record { day = Dt.Date.number base; time = Dt.Time.time time })
        dialect clock name direction found
        × Gives Dt.memory (λ d. Dt.Date.number d) result found }
{
    match name {
        ByName::WeekDay(weekday) => week_day::<Dt>(base, time, dialect, weekday, direction, clock),
        ByName::MonthName(month) => month_day(base, month, 1, direction),
        ByName::DayMonth { day, month } => month_day(base, month, day, direction),
    }
}

// The clock time on the date that is written out, or else midnight.
fn on_date<Dt: DateTime>(
    tz: Dt::TimeZone,
    written: AbsDate,
    clock: Option<TimeSpec>,
) -> Result<Dt, Refused>
    ensures moment { Answers Dt.memory (λ d. Dt.moment d) result (λ r.
        (found : Option Aim)
        × (found ≡ option_and_then (clock_or Dt.Date.calendar midnight clock)
        (date_at Dt.Date.calendar written.year written.month written.day))
        × Lands (Dt.may_place tz) Dt.seconds found r) }
    ensures zone { IfOk result (λ d. Dt.zone d ≡ tz) }
{
    let day = written.into_date()?;
    clock_or_midnight(tz, day, clock)
}

// The moment of a date part, that is no interval of seconds, from the base's wall time.
fn from_wall<Dt: DateTime>(
    tz: Dt::TimeZone,
    date: Dt::Date,
    time: Dt::Time,
    spec: DateSpec,
    clock: Option<TimeSpec>,
    dialect: Dialect,
) -> Result<Dt, Refused>
    requires { IsFromWall spec }
    ensures moment { Answers Dt.memory (λ d. Dt.moment d) result (λ r.
        (found : Option Aim)
        × LeadsTo Dt.Date.calendar
        (record { day = Dt.Date.number date; time = Dt.Time.time time })
        dialect spec clock found
        × Lands (Dt.may_place tz) Dt.seconds found r) }
    ensures zone { IfOk result (λ d. Dt.zone d ≡ tz) }
{
    match spec {
        DateSpec::Absolute(written) => on_date(tz, written, clock),
        DateSpec::Relative(Interval::Seconds(_)) => unreachable!(),
        DateSpec::Relative(Interval::Days(count)) => {
            let day = date.offset_days(count as i64)?;
            clock_or_time(tz, day, time, clock)
        }
        DateSpec::Relative(Interval::Months(count)) => {
            let day = date.offset_months(count)?;
            clock_or_midnight(tz, day, clock)
        }
        DateSpec::FromName(name, direction) => {
            let day = named_day::<Dt>(name, date, time, clock, dialect, direction)?;
            clock_or_midnight(tz, day, clock)
        }
    }
}

// The same from the base, which is split.
fn from_base<Dt: DateTime>(
    base: Dt,
    spec: DateSpec,
    clock: Option<TimeSpec>,
    dialect: Dialect,
) -> Result<Dt, Refused>
    requires { IsFromWall spec }
    ensures moment { Answers Dt.memory (λ d. Dt.moment d) result
        (Means (Dt.may_show (Dt.zone base)) (Dt.may_place (Dt.zone base))
        Dt.Date.calendar Dt.seconds (Dt.moment base) dialect (Some spec) clock) }
    ensures zone { IfOk result (λ d. Dt.zone d ≡ Dt.zone base) }
{
    let (tz, date, time) = base.split()?;
    from_wall(tz, date, time, spec, clock, dialect)
}

// The moment of a date that is written out. It needs of the base that its wall time is one of the calendar: only where this is
// not known is the base split.
fn written_out<Dt: DateTime>(
    base: Dt,
    written: AbsDate,
    clock: Option<TimeSpec>,
    dialect: Dialect,
) -> Result<Dt, Refused>
    ensures moment { Answers Dt.memory (λ d. Dt.moment d) result
        (Means (Dt.may_show (Dt.zone base)) (Dt.may_place (Dt.zone base))
        Dt.Date.calendar Dt.seconds (Dt.moment base) dialect
        (Some (DateSpec.Absolute written)) clock) }
    ensures zone { IfOk result (λ d. Dt.zone d ≡ Dt.zone base) }
{
    match base.zone_if_inside() {
        Some(tz) => on_date(tz, written, clock),
        None => from_base(base, DateSpec::Absolute(written), clock, dialect),
    }
}

impl DateSpec {
    /// The moment that the date means from the base, with the clock time.
    ///
    /// Without one it is midnight; but days keep the base's time, and seconds move the base and leave a clock time out.
    pub fn into_date_time<Dt: DateTime>(
        self,
        base: Dt,
        ts: Option<TimeSpec>,
        dialect: Dialect,
    ) -> Result<Dt, Refused>
        ensures moment { Answers Dt.memory (λ d. Dt.moment d) result
            (Means (Dt.may_show (Dt.zone base)) (Dt.may_place (Dt.zone base))
            Dt.Date.calendar Dt.seconds (Dt.moment base) dialect (Some self) ts) }
        ensures zone { IfOk result (λ d. Dt.zone d ≡ Dt.zone base) }
    {
        if let DateSpec::Relative(Interval::Seconds(count)) = self {
            return base.offset_seconds(count as i64);
        }
        if let DateSpec::Absolute(written) = self {
            return written_out(base, written, ts, dialect);
        }
        from_base(base, self, ts, dialect)
    }
}

impl ByName {
    /// The moment of the day that the name means from the base, at the clock time or midnight.
    pub fn into_date_time<Dt: DateTime>(
        self,
        base: Dt,
        ts: Option<TimeSpec>,
        dialect: Dialect,
        direct: Direction,
    ) -> Result<Dt, Refused>
        ensures moment { Answers Dt.memory (λ d. Dt.moment d) result
            (Means (Dt.may_show (Dt.zone base)) (Dt.may_place (Dt.zone base))
            Dt.Date.calendar Dt.seconds (Dt.moment base) dialect
            (Some (DateSpec.FromName self direct)) ts) }
        ensures zone { IfOk result (λ d. Dt.zone d ≡ Dt.zone base) }
    {
        DateSpec::FromName(self, direct).into_date_time(base, ts, dialect)
    }
}

// The moment of the parts of a phrase.
fn resolved<Dt: DateTime>(parts: DateTimeSpec, base: Dt, dialect: Dialect) -> Result<Dt, Refused>
    ensures moment { Answers Dt.memory (λ d. Dt.moment d) result
        (Means (Dt.may_show (Dt.zone base)) (Dt.may_place (Dt.zone base))
        Dt.Date.calendar Dt.seconds (Dt.moment base) dialect parts.date parts.time) }
    ensures zone { IfOk result (λ d. Dt.zone d ≡ Dt.zone base) }
{
    if let Some(date) = parts.date {
        return date.into_date_time(base, parts.time, dialect);
    }
    let (tz, date, _) = base.split()?;
    match parts.time {
        Some(clock) => clock.into_date_time(tz, date),
        None => Err(Refused::OutOfRange),
    }
}

// A refusal of a phrase that was read: it is the date's where there is one, and else the time's.
fn refusal(refused: Refused, date: Option<DateSpec>) -> DateError
    ensures { result ≡ refusal_of refused date }
{
    match (refused, date) {
        (Refused::Memory, _) => DateError::Memory,
        (Refused::OutOfRange, Some(_)) => DateError::MissingDate,
        (Refused::OutOfRange, None) => DateError::MissingTime,
    }
}

/// The moment that a phrase means from a base.
///
/// A phrase is refused by its first fault; one that is read, and has no meaning, as `MissingDate` where it has a date part, and
/// as `MissingTime` else. `Memory` comes only from a backend that may want memory.
pub fn parse_date_string<Dt: DateTime>(s: &str, now: Dt, dialect: Dialect) -> DateResult<Dt>
    ensures meaning { AnswersPhrase Dt.memory (λ d. Dt.moment d)
        (parts_of dialect (phrase_tokens s.now))
        (Means (Dt.may_show (Dt.zone now)) (Dt.may_place (Dt.zone now))
        Dt.Date.calendar Dt.seconds (Dt.moment now) dialect)
        result }
    ensures zone { IfOk result (λ d. Dt.zone d ≡ Dt.zone now) }
{
    let parts = parts_of(s, dialect)?;
    match resolved(parts, now, dialect) {
        Ok(moment) => Ok(moment),
        Err(refused) => Err(refusal(refused, parts.date)),
    }
}
