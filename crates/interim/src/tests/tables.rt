//! Each kind of token in each place of each row of the grammar's tables. What is expected is written by hand from the rules.
use super::{Date, parts_of};
use crate::{DateError, Dialect, Expected, Span};
use std::alloc::Global;
use std::test::Fail;

// The end, a number, nine words and seven marks.
const TOKENS: [&str; 18] = [
    "", "7", "may", "fri", "hour", "pm", "ago", "z", "T", "now", "next", "-", "/", ":", ".", ",",
    "+", "?",
];

// What each of them does where a time part may begin, where a number is needed that ends a date or a time, and where the
// phrase is complete.
const TIME: &str = "= K$ n n n n n n = n n n n n n n n n";

const DATE_NUMBER: &str = "n$ = n n n n n n n n n n n n n n n n";

const TIME_NUMBER: &str = "n$ # n n n n n n n n n n n n n n n n";

const DATE: &str = "= = = = = = = = = = = = = = = = = =";

const CLOCK: &str = "# # # # # # # # # # # # # # # # # #";

// What stands before the token; the date part that is read, which `=` has without a time and `#` with one; and what comes of
// each token: a date part with `-` or `T` for its time, a fault at the token, a fault `$` at the end, or a missing date.
const ROWS: [(&str, u8, &str); 53] = [
    (
        "",
        b'-',
        "e$ A- N- N- R- i i i i R- e$ e$ md md md md md md",
    ),
    ("- ", b'-', "e$ u$ n n n n n n n n n md md md md md md md"),
    (
        "next ",
        b'-',
        "e$ o$ N- N- R- i i i i i i md md md md md md md",
    ),
    ("june ", b'N', DATE),
    ("june 7 ", b'N', "= K$ n n n n n n = n n n n n n n$ n n"),
    ("june 7, ", b'A', DATE_NUMBER),
    ("june 7, 2018 ", b'A', TIME),
    ("june x ", b'N', TIME),
    ("friday ", b'N', TIME),
    ("hour ", b'R', TIME),
    ("now ", b'R', TIME),
    ("5 ", b'-', "A- d N- m R- -T m m m m m n$ n$ n$ n$ d d d"),
    ("- 5 ", b'-', "u$ d N- m R- -T m m m m m n$ n$ n$ n$ d d d"),
    (
        "next 5 ",
        b'-',
        "o$ d N- m R- -T m m m m m o$ n$ o$ o$ d d d",
    ),
    (
        "5 june ",
        b'-',
        "N- A- N- N- N- N- N- N- N- N- N- N- N- N- N- N- N- N-",
    ),
    ("5 june x ", b'N', TIME),
    ("5 june 2018 ", b'A', TIME),
    ("5 hours ", b'R', "= k$ a a a a = a a a a = = = = = = ="),
    (
        "next 5 hours ",
        b'R',
        "= k$ a a a a = a a a a = = = = = = =",
    ),
    ("- 5 hours ", b'R', TIME),
    ("5 hours ago ", b'R', TIME),
    ("5 hours / ", b'R', TIME),
    ("5 hours 7 ", b'R', "k$ k k k k k k k k k k k k n$ n$ k k k"),
    ("5 hours 7: ", b'R', TIME_NUMBER),
    ("5 hours 7. ", b'R', TIME_NUMBER),
    ("5pm ", b'-', CLOCK),
    ("2018- ", b'A', "n$ D$ n n n n n n n n n n n n n n n n"),
    ("2018-5 ", b'A', "D$ D D D D D D D D D D n$ D D D D D D"),
    ("2018-5- ", b'A', DATE_NUMBER),
    ("2018-5-7 ", b'A', TIME),
    ("5/ ", b'N', DATE_NUMBER),
    ("5/6 ", b'N', "= K$ n n n n n n = n n n n$ n n n n n"),
    ("5/6/ ", b'A', DATE_NUMBER),
    ("5/6/18 ", b'A', TIME),
    ("5: ", b'-', TIME_NUMBER),
    ("5. ", b'-', TIME_NUMBER),
    ("friday T ", b'N', "= K$ n n n n n n n n n n n n n n n n"),
    ("friday 7 ", b'N', "K$ K H H H # H H H H H K K n$ n$ K K K"),
    ("friday 7pm ", b'N', CLOCK),
    ("friday 7: ", b'N', TIME_NUMBER),
    ("friday 7:30 ", b'N', "# w z z z # z # z z z c c n$ c c c c"),
    ("friday 7:30: ", b'N', TIME_NUMBER),
    (
        "friday 7:30:15 ",
        b'N',
        "# w z z z # z # z z z n$ w w n$ w n$ w",
    ),
    ("friday 7:30:15. ", b'N', TIME_NUMBER),
    (
        "friday 7:30:15.5 ",
        b'N',
        "# w z z z # z # z z z n$ w w w w n$ w",
    ),
    ("friday 7:30:15+ ", b'N', TIME_NUMBER),
    (
        "friday 7:30:15+2 ",
        b'N',
        "# # # # # # # # # # # # # n$ # # # #",
    ),
    ("friday 7:30:15+2: ", b'N', TIME_NUMBER),
    ("friday 7:30:15- ", b'N', TIME_NUMBER),
    ("friday 7:30z ", b'N', CLOCK),
    ("friday 7:30pm ", b'N', CLOCK),
    ("friday 7. ", b'N', TIME_NUMBER),
    ("friday 7.30 ", b'N', "# p p p p # p p p p p p p p p p p p"),
];

fn expected_of(letter: u8) -> Expected {
    match letter {
        b'n' => Expected::Number,
        b'D' => Expected::Dash,
        b'd' => Expected::DateWord,
        b'a' => Expected::Ago,
        b'e' => Expected::EmptyDate,
        b'i' => Expected::Identifier,
        b'u' => Expected::DurationWord,
        b'o' => Expected::DayOrMonth,
        b'm' => Expected::MonthOrUnit,
        b'c' => Expected::ColonMark,
        b'z' => Expected::ZAmPm,
        b'w' => Expected::ZoneWord,
        b'p' => Expected::DotAmPm,
        b'k' => Expected::ColonOrDot,
        b'H' => Expected::AmPm,
        _ => Expected::AmPmColonDot,
    }
}

// What is wanted: a date part and whether there is a time, or a fault.
fn wanted(code: &str, date: u8, span: Span) -> Result<(u8, bool), DateError> {
    match code.as_bytes() {
        [b'='] => Ok((date, false)),
        [b'#'] => Ok((date, true)),
        [b'm', b'd'] => Err(DateError::MissingDate),
        [letter, b'$'] => Err(DateError::EndOfText(expected_of(*letter))),
        [letter, b'-'] => Ok((*letter, false)),
        [letter, b'T'] => Ok((*letter, true)),
        [letter] => Err(DateError::ExpectedToken(expected_of(*letter), span)),
        _ => Err(DateError::Memory),
    }
}

fn read(phrase: &str) -> Result<(u8, bool), DateError> {
    let (date, time) = parts_of(phrase, Dialect::Uk)?;
    let date = match date {
        Date::No => b'-',
        Date::Day(_, _, _) => b'A',
        Date::Moved(_) => b'R',
        Date::Weekday(_, _) | Date::Month(_, _) | Date::DayMonth(_, _, _) => b'N',
    };
    Ok((date, time.is_some()))
}

// Whether a token behind what stands before it is read as its code says.
fn is_read(alloc: Global, front: &str, token: &str, date: u8, code: &str) -> Result<bool, Fail> {
    let phrase = format!(in alloc; "{front}{token}")?;
    let (start, end) = (front.len(), phrase.len());
    Ok(read(phrase.as_str()) == wanted(code, date, Span { start, end }))
}

// The first token of a row that is read in another way.
fn first_wrong(
    alloc: Global,
    front: &str,
    date: u8,
    codes: &str,
) -> Result<Option<&'static str>, Fail> {
    for (code, token) in codes.split(' ').zip(TOKENS) {
        if !is_read(alloc, front, token, date, code)? {
            return Ok(Some(token));
        }
    }
    Ok(None)
}

#[test]
fn each_token_in_each_place(rt: HostRuntime) -> Result<(), Fail> {
    for (front, date, codes) in ROWS {
        assert_eq!(rt; codes.split(' ').count(), TOKENS.len(), "{front}");
        let wrong = first_wrong(rt.alloc(), front, date, codes)?;
        assert_eq!(rt; wrong, None, "{front}");
    }
    Ok(())
}
