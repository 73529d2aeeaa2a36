//! Phrases that are read as their parts, or refused. What is expected is written by hand from the grammar's tables; `vectors` has
//! more phrases, and a row for each text that can be expected.
use crate::{
    AbsDate, ByName, DateError, DateParser, DateSpec, Dialect, Direction, Expected, Interval, Span,
    TimeSpec, parse_duration,
};
use std::alloc::Global;
use std::ops::Mul;
use std::test::Fail;

mod fronts;
mod tables;

// A date part as plain values, to compare.
#[derive(Clone, Copy, Debug, PartialEq, Eq)]
enum Date {
    No,
    Day(i32, u32, u32),
    Moved(Interval),
    Weekday(u8, Direction),
    Month(u32, Direction),
    DayMonth(u32, u32, Direction),
}

fn date_of(date: Option<DateSpec>) -> Date {
    match date {
        None => Date::No,
        Some(DateSpec::Absolute(AbsDate { year, month, day })) => Date::Day(year, month, day),
        Some(DateSpec::Relative(interval)) => Date::Moved(interval),
        Some(DateSpec::FromName(ByName::WeekDay(n), to)) => Date::Weekday(n, to),
        Some(DateSpec::FromName(ByName::MonthName(n), to)) => Date::Month(n, to),
        Some(DateSpec::FromName(ByName::DayMonth { day, month }, to)) => {
            Date::DayMonth(day, month, to)
        }
    }
}

type Time = Option<(u32, u32, u32, u32, Option<i64>)>;

fn time_of(time: Option<TimeSpec>) -> Time {
    let time = time?;
    Some((time.hour, time.min, time.sec, time.microsec, time.offset))
}

// The parts of a phrase.
fn parts_of(phrase: &str, dialect: Dialect) -> Result<(Date, Time), DateError> {
    let parts = DateParser::new(phrase).parse(dialect)?;
    Ok((date_of(parts.date), time_of(parts.time)))
}

// The fault where something is expected in place of the token at these bytes, or of the end.
fn fault_at(expected: Expected, place: Option<(usize, usize)>) -> DateError {
    match place {
        Some((start, end)) => DateError::ExpectedToken(expected, Span { start, end }),
        None => DateError::EndOfText(expected),
    }
}

// What is expected in place of which bytes, or of the end.
const FAULTS: [(&str, Expected, Option<(usize, usize)>); 16] = [
    (" \t\n\x0c", Expected::EmptyDate, None),
    ("two days ago", Expected::Identifier, Some((0, 3))),
    ("- 5", Expected::DurationWord, None),
    ("last 5", Expected::DayOrMonth, None),
    ("5 sat", Expected::MonthOrUnit, Some((2, 5))),
    ("junexxxxxxxxxxxxx", Expected::Identifier, Some((0, 17))),
    ("2018-3/1", Expected::Dash, Some((6, 7))),
    ("2018-3", Expected::Dash, None),
    ("10:00/2", Expected::ColonMark, Some((5, 6))),
    ("10:00+2", Expected::ColonMark, Some((5, 6))),
    ("friday 5.30 5", Expected::DotAmPm, Some((12, 13))),
    ("2 days 5 5", Expected::ColonOrDot, Some((9, 10))),
    ("2 days 5", Expected::ColonOrDot, None),
    ("friday 8 PMS", Expected::AmPm, Some((9, 12))),
    ("friday 8/", Expected::AmPmColonDot, Some((8, 9))),
    ("T", Expected::Identifier, Some((0, 1))),
];

#[test]
fn faults(rt: HostRuntime) {
    assert_eq!(rt; parts_of("é", Dialect::Uk), Err(DateError::MissingDate));
    for (phrase, expected, place) in FAULTS {
        let fault = Err(fault_at(expected, place));
        assert_eq!(rt; parts_of(phrase, Dialect::Uk), fault, "{phrase}");
    }
}

const PARTS: [(&str, Date, Time); 30] = [
    (
        "2018-03-23 20:00",
        Date::Day(2018, 3, 23),
        Some((20, 0, 0, 0, None)),
    ),
    (
        "2018-03-23T20:00",
        Date::Day(2018, 3, 23),
        Some((20, 0, 0, 0, None)),
    ),
    (
        "4 July 2018 12pm",
        Date::Day(2018, 7, 4),
        Some((12, 0, 0, 0, None)),
    ),
    (
        "July 4, 2018 12AM",
        Date::Day(2018, 7, 4),
        Some((0, 0, 0, 0, None)),
    ),
    (
        "2018-260-1 10:00",
        Date::Day(2018, 260, 1),
        Some((10, 0, 0, 0, None)),
    ),
    ("2018", Date::Day(2018, 1, 1), None),
    (
        "friday 8pm",
        Date::Weekday(4, Direction::Here),
        Some((20, 0, 0, 0, None)),
    ),
    ("next mon", Date::Weekday(0, Direction::Next), None),
    ("last june", Date::Month(6, Direction::Last), None),
    ("june friday", Date::Month(6, Direction::Here), None),
    (
        "last 8/11 9am",
        Date::DayMonth(8, 11, Direction::Last),
        Some((9, 0, 0, 0, None)),
    ),
    ("last 29/2", Date::DayMonth(29, 2, Direction::Last), None),
    ("4 July", Date::DayMonth(4, 7, Direction::Here), None),
    ("july 4", Date::DayMonth(4, 7, Direction::Here), None),
    ("6 months ago", Date::Moved(Interval::Months(-6)), None),
    (
        "2d 03:00",
        Date::Moved(Interval::Days(2)),
        Some((3, 0, 0, 0, None)),
    ),
    ("- 5 minutes", Date::Moved(Interval::Seconds(-300)), None),
    ("next week", Date::Moved(Interval::Days(7)), None),
    ("last year", Date::Moved(Interval::Months(-12)), None),
    ("this day", Date::Moved(Interval::Days(0)), None),
    ("next month", Date::Weekday(0, Direction::Next), None),
    ("5 monday", Date::Moved(Interval::Months(5)), None),
    (
        "TOMORROW 9am",
        Date::Moved(Interval::Days(1)),
        Some((9, 0, 0, 0, None)),
    ),
    ("yesterday", Date::Moved(Interval::Days(-1)), None),
    ("now", Date::Moved(Interval::Days(0)), None),
    ("now T", Date::Moved(Interval::Days(0)), None),
    ("7pm", Date::No, Some((19, 0, 0, 0, None))),
    ("12.30", Date::No, Some((12, 30, 0, 0, None))),
    ("junexxxxxxxxxxxx", Date::Month(6, Direction::Here), None),
    ("9999 years", Date::Moved(Interval::Months(119_988)), None),
];

#[test]
fn parts(rt: HostRuntime) {
    for (phrase, date, time) in PARTS {
        assert_eq!(rt; parts_of(phrase, Dialect::Uk), Ok((date, time)), "{phrase}");
    }
}

// Dates as each dialect reads them.
const DIALECTS: [(&str, Date, Date); 6] = [
    ("4/7/18", Date::Day(2018, 7, 4), Date::Day(2018, 4, 7)),
    ("4/7/40", Date::Day(2040, 7, 4), Date::Day(2040, 4, 7)),
    ("4/7/41", Date::Day(1941, 7, 4), Date::Day(1941, 4, 7)),
    ("4/7/99", Date::Day(1999, 7, 4), Date::Day(1999, 4, 7)),
    ("4/7/100", Date::Day(100, 7, 4), Date::Day(100, 4, 7)),
    (
        "next 4/7",
        Date::DayMonth(4, 7, Direction::Next),
        Date::DayMonth(7, 4, Direction::Next),
    ),
];

#[test]
fn dialects(rt: HostRuntime) {
    for (phrase, uk, us) in DIALECTS {
        let read = (parts_of(phrase, Dialect::Uk), parts_of(phrase, Dialect::Us));
        assert_eq!(rt; read, (Ok((uk, None)), Ok((us, None))), "{phrase}");
    }
}

const TIMES: [(&str, Time); 15] = [
    ("", None),
    ("T", None),
    ("T10:00", Some((10, 0, 0, 0, None))),
    ("25:00", Some((25, 0, 0, 0, None))),
    ("8pm", Some((20, 0, 0, 0, None))),
    ("8.00pm or so", Some((20, 0, 0, 0, None))),
    ("12.15am", Some((0, 15, 0, 0, None))),
    ("12:75", Some((12, 75, 0, 0, None))),
    ("20:00:00.5", Some((20, 0, 0, 5, None))),
    ("20:00:00.05", Some((20, 0, 0, 5, None))),
    ("08:20:30 +0400", Some((8, 20, 30, 0, Some(14_400)))),
    ("12:00:00 -07:00", Some((12, 0, 0, 0, Some(-25_200)))),
    ("12:00:00+9999", Some((12, 0, 0, 0, Some(362_340)))),
    ("12:00z", Some((12, 0, 0, 0, Some(0)))),
    ("12:00 pm", Some((12, 0, 0, 0, None))),
];

// The time part that a text is.
fn time_alone(text: &str) -> Result<Time, DateError> {
    Ok(time_of(DateParser::new(text).parse_time()?))
}

#[test]
fn times(rt: HostRuntime) {
    for (text, time) in TIMES {
        assert_eq!(rt; time_alone(text), Ok(time), "{text}");
    }
}

const DURATIONS: [(&str, Result<Interval, DateError>); 7] = [
    ("15m ago", Ok(Interval::Seconds(-900))),
    (
        "bananas",
        Err(DateError::ExpectedToken(Expected::Identifier, Span { start: 0, end: 7 })),
    ),
    ("2 days 15:00", Err(DateError::UnexpectedTime)),
    ("15:00", Err(DateError::UnexpectedTime)),
    ("2020-01-01", Err(DateError::UnexpectedAbsoluteDate)),
    ("2020-01-01 10:00", Err(DateError::UnexpectedTime)),
    ("tuesday", Err(DateError::UnexpectedDate)),
];

#[test]
fn durations(rt: HostRuntime) {
    for (text, wanted) in DURATIONS {
        assert_eq!(rt; parse_duration(text), wanted, "{text}");
    }
}

// What can be expected, as it is written.
const EXPECTED: [(Expected, &str); 16] = [
    (Expected::Number, "number"),
    (Expected::Dash, "'-'"),
    (Expected::DateWord, "date"),
    (Expected::Ago, "'ago'"),
    (Expected::EmptyDate, "empty date string"),
    (Expected::Identifier, "unsupported identifier"),
    (Expected::DurationWord, "duration"),
    (Expected::DayOrMonth, "day or month name"),
    (Expected::MonthOrUnit, "month or time unit"),
    (Expected::ColonMark, "':'"),
    (Expected::ZAmPm, "expected Z/am/pm"),
    (Expected::ZoneWord, "expected timezone"),
    (Expected::DotAmPm, "expected am/pm"),
    (Expected::ColonOrDot, ": or ."),
    (Expected::AmPm, "am/pm"),
    (Expected::AmPmColonDot, "am/pm, ':' or '.'"),
];

// Faults that expect nothing.
const OTHERS: [(DateError, &str); 6] = [
    (
        DateError::MissingDate,
        "date could not be parsed from input",
    ),
    (
        DateError::MissingTime,
        "time could not be parsed from input",
    ),
    (
        DateError::UnexpectedDate,
        "expected relative date, found a named date",
    ),
    (
        DateError::UnexpectedAbsoluteDate,
        "expected relative date, found an exact date",
    ),
    (DateError::UnexpectedTime, "expected duration, found time"),
    (DateError::Memory, "memory could not be found"),
];

// Whether a fault is written as this text between those two.
fn is_written(
    alloc: Global,
    fault: DateError,
    before: &str,
    text: &str,
    after: &str,
) -> Result<bool, Fail> {
    let written = fault.to_string(alloc)?;
    let Some(rest) = written.as_str().strip_prefix(before) else {
        return Ok(false);
    };
    Ok(rest.strip_suffix(after) == Some(text))
}

#[test]
fn texts(rt: HostRuntime) -> Result<(), Fail> {
    let forms = [
        (Some((9, 10)), " as position 9..10"),
        (None, " at the end of the input"),
    ];
    for (place, after) in forms {
        for (expected, text) in EXPECTED {
            let fault = fault_at(expected, place);
            let is_so = is_written(rt.alloc(), fault, "expected ", text, after)?;
            assert!(rt; is_so, "{text}{after}");
        }
    }
    for (error, text) in OTHERS {
        let is_so = is_written(rt.alloc(), error, "", text, "")?;
        assert!(rt; is_so, "{text}");
    }
    Ok(())
}

// A product through the bound of its operator.
fn product<T: Mul<i32, Output = T>>(interval: T, count: i32) -> T
    requires { T.can_mul interval count }
{
    interval * count
}

#[test]
fn interval_products(rt: HostRuntime) {
    assert_eq!(rt; product(Interval::Seconds(60), -5), Interval::Seconds(-300));
    assert_eq!(rt; product(Interval::Days(7), 2), Interval::Days(14));
    assert_eq!(rt; product(Interval::Months(12), 0), Interval::Months(0));
}
