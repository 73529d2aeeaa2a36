ghost use Rattle.std.specs.Prelude.{◌≡◌};
ghost use Rattle.interim.specs.Grammar.{parts_of, time_of, duration_of};
ghost use Rattle.interim.specs.Tokens.{phrase_tokens};

use crate::date_part::date_part;
use crate::errors::{DateError, DateResult};
use crate::lexer::Lexer;
use crate::plain::plain;
use crate::time_part::{ClockFront, time_part};
use crate::types::{DateSpec, DateTimeSpec, Dialect, Interval, TimeSpec};
use std::marker::Model;

/// A phrase that is to be read, seen as its tokens.
#[derive(Drop)]
pub struct DateParser<'a> {
    tokens: Lexer<'a>,
}

impl<'a> Model for DateParser<'a> {
    ghost use Rattle.std.specs.Prelude.{List};
    ghost use Rattle.interim.specs.TokenKinds.{Token};

    ghost Value = { List Token };

    ghost view = { λ p. p.tokens };
}

impl<'a> DateParser<'a> {
    /// A parser at the text's front.
    pub fn new(text: &'a str) -> DateParser<'a>
        ensures { result ≡ phrase_tokens text.now }
    {
        DateParser {
            tokens: Lexer::new(text.as_bytes()),
        }
    }

    /// The date part and the time part of the phrase, or its first fault.
    ///
    /// What follows a complete phrase is not read.
    #[tactic(auto, unfolding(crate::specs::Grammar::parts_of, crate::specs::Grammar::both_parts))]
    pub fn parse(self, dialect: Dialect) -> DateResult<DateTimeSpec>
        ensures { result ≡ parts_of dialect self.entry }
    {
        let mut tokens = self.tokens;
        let part = date_part(&mut tokens, dialect)?;
        let time = time_part(&mut tokens, part.clock)?;
        Ok(DateTimeSpec {
            date: part.date,
            time,
        })
    }

    /// The time part alone, from the text's front: none where the text is empty, or `T` alone.
    #[tactic(auto, unfolding(crate::specs::Grammar::time_of))]
    pub fn parse_time(self) -> DateResult<Option<TimeSpec>>
        ensures { result ≡ time_of self.entry }
    {
        let mut tokens = self.tokens;
        time_part(&mut tokens, ClockFront::Nothing)
    }
}

/// The parts of a phrase, or its first fault, as the parser answers; a phrase of a plain shape is read without tokens.
#[inline(always)]
pub fn parts_of(text: &str, dialect: Dialect) -> DateResult<DateTimeSpec>
    ensures { result ≡ parts_of dialect (phrase_tokens text.now) }
{
    match plain(text.as_bytes()) {
        Some(parts) => Ok(parts),
        None => DateParser::new(text).parse(dialect),
    }
}

/// The interval that a phrase names, as `15m ago`.
///
/// It is read as `Dialect::Uk`, and refused by its first fault; else as `UnexpectedTime` where it has a clock time, as
/// `UnexpectedAbsoluteDate` where it is an exact date, and as `UnexpectedDate` where it names a date.
#[tactic(auto, unfolding(crate::specs::Grammar::duration_of))]
pub fn parse_duration(s: &str) -> DateResult<Interval>
    ensures { result ≡ duration_of (phrase_tokens s.now) }
{
    let parts = DateParser::new(s).parse(Dialect::Uk)?;
    match parts {
        DateTimeSpec { time: Some(_), .. } => Err(DateError::UnexpectedTime),
        DateTimeSpec { date: None, .. } => Err(DateError::UnexpectedTime),
        DateTimeSpec {
            date: Some(DateSpec::Absolute(_)),
            ..
        } => Err(DateError::UnexpectedAbsoluteDate),
        DateTimeSpec {
            date: Some(DateSpec::FromName(_, _)),
            ..
        } => Err(DateError::UnexpectedDate),
        DateTimeSpec {
            date: Some(DateSpec::Relative(interval)),
            ..
        } => Ok(interval),
    }
}
