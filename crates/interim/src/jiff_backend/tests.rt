use crate::datetime::{Date, DateTime, Refused, Time};
use crate::{DateError, Dialect, parse_date_string};
use jiff::tz::{Offset, TimeZone};
use jiff::{Timestamp, Zoned, civil};
use std::test::Fail;

// The moment of a base in a zone.
fn base_in<'a>(second: i64, zone: TimeZone<'a>) -> Result<Zoned<'a>, Fail> {
    let instant = Timestamp::from_second(second).ok().ok_or("no base")?;
    Ok(instant.to_zoned(zone))
}

// The zone of a text, or that of +02:00.
fn zone_of(text: &str) -> Option<TimeZone<'static>> {
    if text.is_empty() {
        return Some(TimeZone::fixed(Offset::from_seconds(7200).ok()?));
    }
    TimeZone::posix(text).ok()
}

// The second and the offset that a phrase means from noon less an hour at +02:00.
fn told(phrase: &str, zone: &str) -> Result<Result<(i64, i32), DateError>, Fail> {
    let zone = zone_of(zone).ok_or("no zone")?;
    let base = base_in(1_521_622_800, zone)?;
    let moment = parse_date_string(phrase, base, Dialect::Uk);
    Ok(moment.map(|moment| (moment.timestamp().as_second(), moment.offset().seconds())))
}

// The clock of central Europe goes from 2:00 to 3:00 on 2018-03-25, and from 3:00 to 2:00 on 2018-10-28.
const EUROPE: &str = "CET-1CEST,M3.5.0,M10.5.0/3";

// What is told of more phrases at +02:00 stands in `vectors`.
const TOLD: [(&str, &str, Result<(i64, i32), DateError>); 8] = [
    ("2 hours", "", Ok((1_521_630_000, 7200))),
    ("9999-12-31", "", Ok((253_402_207_200, 7200))),
    ("9999 years", "", Err(DateError::MissingDate)),
    ("9999-12-31 00:00:01", "", Err(DateError::MissingDate)),
    ("2018-02-29", "", Err(DateError::MissingDate)),
    ("12:75", "", Err(DateError::MissingTime)),
    ("2018-03-25 02:30", EUROPE, Ok((1_521_941_400, 7200))),
    ("2018-10-28 02:30", EUROPE, Ok((1_540_686_600, 7200))),
];

#[test]
fn phrases_are_placed_or_refused(rt: HostRuntime) -> Result<(), Fail> {
    for (phrase, zone, wanted) in TOLD {
        let moment = told(phrase, zone)?;
        assert_eq!(rt; moment, wanted, "{phrase}");
    }
    Ok(())
}

// A year, a month and a day.
type Day = (i32, u32, u32);

fn date((year, month, day): Day) -> Result<civil::Date, Refused> {
    <civil::Date as Date>::from_ymd(year, month, day)
}

// The date so many days, and then so many months, after a day.
fn moved(day: Day, days: i64, months: i32) -> Result<(i16, i8, i8), Refused> {
    let date = date(day)?.offset_days(days)?.offset_months(months)?;
    Ok((civil::Date::year(date), date.month(), date.day()))
}

// Of 29 February 2018 and 1900 have none.
const NO_DATES: [Day; 11] = [
    (2018, 0, 1),
    (2018, 13, 1),
    (2018, 257, 1),
    (2018, 1, 0),
    (2018, 1, 32),
    (2018, 4, 31),
    (2018, 2, 29),
    (1900, 2, 29),
    (i32::MAX, 1, 1),
    (-10000, 12, 31),
    (10000, 1, 1),
];

const FIRST: Day = (-9999, 1, 1);

const LAST: Day = (9999, 12, 31);

// The first day is 4,371,587 days before 1970-01-01, and the last 2,932,896 days after it.
const MOVED: [(Day, i64, i32, Result<(i16, i8, i8), Refused>); 13] = [
    ((2018, 1, 31), 0, 1, Ok((2018, 2, 28))),
    ((2000, 2, 29), 1, 0, Ok((2000, 3, 1))),
    ((2018, 3, 1), -1, 0, Ok((2018, 2, 28))),
    (FIRST, 7_304_483, 0, Ok((9999, 12, 31))),
    (LAST, -7_304_483, 0, Ok((-9999, 1, 1))),
    (FIRST, -1, 0, Err(Refused::OutOfRange)),
    (LAST, 1, 0, Err(Refused::OutOfRange)),
    (FIRST, i64::MIN, 0, Err(Refused::OutOfRange)),
    (LAST, i64::MAX, 0, Err(Refused::OutOfRange)),
    (FIRST, 0, 239_987, Ok((9999, 12, 1))),
    (LAST, 0, -239_987, Ok((-9999, 1, 31))),
    (FIRST, 0, -1, Err(Refused::OutOfRange)),
    (LAST, 0, 1, Err(Refused::OutOfRange)),
];

#[test]
fn dates_move_or_are_refused(rt: HostRuntime) {
    for day in NO_DATES {
        assert_eq!(rt; date(day), Err(Refused::OutOfRange), "{day:?}");
    }
    for (day, days, months, wanted) in MOVED {
        assert_eq!(rt; moved(day, days, months), wanted, "{day:?} {days} {months}");
    }
}

// The hour and the nanoseconds of an hour with so many microseconds.
fn micros_after(hour: u32, micros: u32) -> Result<(i8, i32), Refused> {
    let time = <civil::Time as Time>::from_hms(hour, 0, 0)?.with_micros(micros)?;
    Ok((time.hour(), time.subsec_nanosecond()))
}

// The second, with its nanoseconds, so many seconds after a second.
fn later(second: i64, secs: i64) -> Result<Result<(i64, i32), Refused>, Fail> {
    let moved = base_in(second, TimeZone::UTC)?.offset_seconds(secs);
    Ok(moved.map(|moment| (moment.timestamp().as_second(), moment.subsec_nanosecond())))
}

// An hour, a minute and a second.
type Clock = (u32, u32, u32);

// The second at which a time on a date, less so many seconds, is a moment.
fn fixed_at(day: Day, (hour, min, sec): Clock, secs: i64) -> Result<i64, Refused> {
    let date = date(day)?;
    let time = <civil::Time as Time>::from_hms(hour, min, sec)?;
    let moment = <Zoned<'static> as DateTime>::at_offset(TimeZone::UTC, date, time, secs)?;
    Ok(moment.timestamp().as_second())
}

// The first instant is -9999-01-02T01:59:59Z, and the last second begins at 9999-12-30T22:00:00Z.
const EARLIEST: i64 = -377_705_023_201;

const LATEST: i64 = 253_402_207_200;

const LATER: [(i64, i64, Result<(i64, i32), Refused>); 6] = [
    (EARLIEST, 631_107_230_401, Ok((LATEST, 0))),
    (LATEST, -631_107_230_401, Ok((EARLIEST, 0))),
    (EARLIEST, -1, Err(Refused::OutOfRange)),
    (LATEST, 1, Err(Refused::OutOfRange)),
    (EARLIEST, i64::MIN, Err(Refused::OutOfRange)),
    (LATEST, i64::MAX, Err(Refused::OutOfRange)),
];

const EARLY: (Day, Clock) = ((-9999, 1, 2), (1, 59, 59));

const LATE: (Day, Clock) = ((9999, 12, 30), (22, 0, 0));

const FIXED: [((Day, Clock), i64, Result<i64, Refused>); 6] = [
    (EARLY, 0, Ok(EARLIEST)),
    (EARLY, 1, Err(Refused::OutOfRange)),
    (EARLY, i64::MAX, Err(Refused::OutOfRange)),
    (LATE, 0, Ok(LATEST)),
    (LATE, -1, Err(Refused::OutOfRange)),
    (LATE, i64::MIN, Err(Refused::OutOfRange)),
];

#[test]
fn instants_end_near_the_last_days(rt: HostRuntime) -> Result<(), Fail> {
    assert_eq!(rt; micros_after(20, 5), Ok((20, 5_000)));
    for (second, secs, wanted) in LATER {
        let moment = later(second, secs)?;
        assert_eq!(rt; moment, wanted, "{second} {secs}");
    }
    for ((day, clock), secs, wanted) in FIXED {
        assert_eq!(rt; fixed_at(day, clock, secs), wanted, "{day:?} {secs}");
    }
    Ok(())
}
