//! Each front of a word that counts, in lower case, in upper case and with a capital, and in words of 16 and of 17 letters.
use super::{Date, Time, parts_of};
use crate::{DateError, Dialect, Direction, Expected, Interval, Span};
use std::alloc::Global;
use std::test::Fail;

const NAMES: [([&str; 3], Date); 19] = [
    (["jan", "JAN", "Jan"], Date::Month(1, Direction::Here)),
    (["feb", "FEB", "Feb"], Date::Month(2, Direction::Here)),
    (["mar", "MAR", "Mar"], Date::Month(3, Direction::Here)),
    (["apr", "APR", "Apr"], Date::Month(4, Direction::Here)),
    (["may", "MAY", "May"], Date::Month(5, Direction::Here)),
    (["jun", "JUN", "Jun"], Date::Month(6, Direction::Here)),
    (["jul", "JUL", "Jul"], Date::Month(7, Direction::Here)),
    (["aug", "AUG", "Aug"], Date::Month(8, Direction::Here)),
    (["sep", "SEP", "Sep"], Date::Month(9, Direction::Here)),
    (["oct", "OCT", "Oct"], Date::Month(10, Direction::Here)),
    (["nov", "NOV", "Nov"], Date::Month(11, Direction::Here)),
    (["dec", "DEC", "Dec"], Date::Month(12, Direction::Here)),
    (["mon", "MON", "Mon"], Date::Weekday(0, Direction::Here)),
    (["tue", "TUE", "Tue"], Date::Weekday(1, Direction::Here)),
    (["wed", "WED", "Wed"], Date::Weekday(2, Direction::Here)),
    (["thu", "THU", "Thu"], Date::Weekday(3, Direction::Here)),
    (["fri", "FRI", "Fri"], Date::Weekday(4, Direction::Here)),
    (["sat", "SAT", "Sat"], Date::Weekday(5, Direction::Here)),
    (["sun", "SUN", "Sun"], Date::Weekday(6, Direction::Here)),
];

const UNITS: [([&str; 3], Interval); 7] = [
    (["sec", "SEC", "Sec"], Interval::Seconds(2)),
    (["min", "MIN", "Min"], Interval::Seconds(120)),
    (["hou", "HOU", "Hou"], Interval::Seconds(7200)),
    (["day", "DAY", "Day"], Interval::Days(2)),
    (["wee", "WEE", "Wee"], Interval::Days(14)),
    (["mon", "MON", "Mon"], Interval::Months(2)),
    (["yea", "YEA", "Yea"], Interval::Months(24)),
];

const LETTERS: [([&str; 2], Interval); 6] = [
    (["s", "S"], Interval::Seconds(2)),
    (["m", "M"], Interval::Seconds(120)),
    (["h", "H"], Interval::Seconds(7200)),
    (["d", "D"], Interval::Days(2)),
    (["w", "W"], Interval::Days(14)),
    (["y", "Y"], Interval::Months(24)),
];

// What is read of a front of letters behind so many bytes, with further letters.
fn read(
    alloc: Global,
    before: &str,
    front: &str,
    more: &str,
) -> Result<Result<(Date, Time), DateError>, Fail> {
    let phrase = format!(in alloc; "{before}{front}{more}")?;
    Ok(parts_of(phrase.as_str(), Dialect::Uk))
}

// Further letters for a word of 16, and of 17.
const LONGEST: &str = "xxxxxxxxxxxxx";

const TOO_LONG: &str = "xxxxxxxxxxxxxx";

// Whether a front is read as this date alone, in words of 3 and of 16 letters, and a word of 17 is none.
fn is_front(
    alloc: Global,
    before: &str,
    front: &str,
    date: Date,
    fault: DateError,
) -> Result<bool, Fail> {
    let read = [
        read(alloc, before, front, "")?,
        read(alloc, before, front, LONGEST)?,
        read(alloc, before, front, TOO_LONG)?,
    ];
    Ok(read == [Ok((date, None)), Ok((date, None)), Err(fault)])
}

#[test]
fn months_and_weekdays(rt: HostRuntime) -> Result<(), Fail> {
    let fault = DateError::ExpectedToken(Expected::Identifier, Span { start: 0, end: 17 });
    for (forms, date) in NAMES {
        for front in forms {
            let is_so = is_front(rt.alloc(), "", front, date, fault)?;
            assert!(rt; is_so, "{front}");
        }
    }
    Ok(())
}

#[test]
fn units(rt: HostRuntime) -> Result<(), Fail> {
    let fault = DateError::ExpectedToken(Expected::MonthOrUnit, Span { start: 2, end: 19 });
    for (forms, interval) in UNITS {
        for front in forms {
            let is_so = is_front(rt.alloc(), "2 ", front, Date::Moved(interval), fault)?;
            assert!(rt; is_so, "{front}");
        }
    }
    for (forms, interval) in LETTERS {
        for letter in forms {
            let parts = read(rt.alloc(), "2", letter, "")?;
            assert_eq!(rt; parts, Ok((Date::Moved(interval), None)), "{letter}");
        }
    }
    Ok(())
}
