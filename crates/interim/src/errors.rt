use std::error::Error;
use std::fmt;
use std::fmt::{Display, Formatter, Write};

/// The byte places of a token in its phrase: from `start` up to `end`.
#[derive(Clone, Copy, Debug, PartialEq, Eq)]
pub struct Span {
    pub start: usize,
    pub end: usize,
}

/// What should have come in place of a token, or of the end.
#[derive(Clone, Copy, Debug, PartialEq, Eq)]
pub enum Expected {
    Number,
    Dash,
    DateWord,
    Ago,
    EmptyDate,
    Identifier,
    DurationWord,
    DayOrMonth,
    MonthOrUnit,
    ColonMark,
    ZAmPm,
    ZoneWord,
    DotAmPm,
    ColonOrDot,
    AmPm,
    AmPmColonDot,
}

/// Why a phrase is refused.
#[derive(Clone, Copy, Debug, PartialEq, Eq)]
pub enum DateError {
    /// Something else was expected in place of the token at these bytes.
    ExpectedToken(Expected, Span),
    /// Something was expected, and the text has ended.
    EndOfText(Expected),
    /// The phrase begins with no date, or its date does not exist.
    MissingDate,
    /// The phrase has no date part, and its time does not exist.
    MissingTime,
    /// A named date where an interval was asked for.
    UnexpectedDate,
    /// An exact date where an interval was asked for.
    UnexpectedAbsoluteDate,
    /// A clock time where an interval was asked for.
    UnexpectedTime,
    /// Memory could not be found.
    Memory,
}

/// What a call that reads a phrase gives: its value, or why the phrase is refused.
pub type DateResult<T> = Result<T, DateError>;

impl Display for Expected {
    ghost use Rattle.std.specs.Prelude.{Some};
    ghost use Rattle.interim.specs.Texts.{expected_text};

    ghost output = { λ x. Some (expected_text x) };

    fn fmt<W: Write>(&self, f: &mut Formatter<W>) -> fmt::Result {
        f.write_str(match self {
            Expected::Number => "number",
            Expected::Dash => "'-'",
            Expected::DateWord => "date",
            Expected::Ago => "'ago'",
            Expected::EmptyDate => "empty date string",
            Expected::Identifier => "unsupported identifier",
            Expected::DurationWord => "duration",
            Expected::DayOrMonth => "day or month name",
            Expected::MonthOrUnit => "month or time unit",
            Expected::ColonMark => "':'",
            Expected::ZAmPm => "expected Z/am/pm",
            Expected::ZoneWord => "expected timezone",
            Expected::DotAmPm => "expected am/pm",
            Expected::ColonOrDot => ": or .",
            Expected::AmPm => "am/pm",
            Expected::AmPmColonDot => "am/pm, ':' or '.'",
        })
    }
}

impl Display for Span {
    ghost use Rattle.std.specs.Prelude.{Some};
    ghost use Rattle.interim.specs.Texts.{span_text};

    ghost output = { λ x. Some (span_text x) };

    fn fmt<W: Write>(&self, f: &mut Formatter<W>) -> fmt::Result {
        write!(f, "{}..{}", self.start, self.end)
    }
}

impl Display for DateError {
    ghost use Rattle.std.specs.Prelude.{Some};
    ghost use Rattle.interim.specs.Texts.{error_text};

    ghost output = { λ x. Some (error_text x) };

    fn fmt<W: Write>(&self, f: &mut Formatter<W>) -> fmt::Result {
        match self {
            DateError::ExpectedToken(what, span) => write!(f, "expected {what} as position {span}"),
            DateError::EndOfText(what) => write!(f, "expected {what} at the end of the input"),
            DateError::MissingDate => f.write_str("date could not be parsed from input"),
            DateError::MissingTime => f.write_str("time could not be parsed from input"),
            DateError::UnexpectedDate => f.write_str("expected relative date, found a named date"),
            DateError::UnexpectedAbsoluteDate => {
                f.write_str("expected relative date, found an exact date")
            }
            DateError::UnexpectedTime => f.write_str("expected duration, found time"),
            DateError::Memory => f.write_str("memory could not be found"),
        }
    }
}

impl Error for DateError {}
