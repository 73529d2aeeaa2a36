ghost use Rattle.std.specs.Prelude.{◌≡◌};
ghost use Rattle.interim.specs.Parts.{clock, shifted as shifted_hour};
ghost use Rattle.interim.specs.Inside.Reading.{Reads};
ghost use Rattle.interim.specs.NextTokens.{next_token, after_token};
ghost use Rattle.interim.specs.TimePart as spec;

use crate::errors::{DateError, DateResult, Expected};
use crate::lexer::{Kind, Lexer};
use crate::types::TimeSpec;
use crate::words::{Half, half_of, is_z};

/// What the date part has read of the time part.
#[derive(Clone, Copy)]
pub enum ClockFront {
    Nothing,
    /// An hour that wants a colon or a dot.
    OpenHour(u16),
    /// An hour and a colon.
    FormalHour(u16),
    /// An hour and a dot.
    InformalHour(u16),
    /// A whole time: an hour with am or pm.
    LoneHour(u32),
}

/// The hour that am or pm makes of an hour.
pub fn shifted(half: Half, hour: u16) -> u32
    ensures { result ≡ shifted_hour half hour }
{
    match half {
        Half::Am if hour == 12 => 0,
        Half::Am => u32::from(hour),
        Half::Pm if hour == 12 => 12,
        Half::Pm => u32::from(hour) + 12,
    }
}

// Microseconds behind a second.
#[tactic(auto, unfolding(crate::specs::TimeEnds::fraction))]
fn fraction(tokens: &mut Lexer<'_>) -> DateResult<u32>
    ensures { Reads (spec.fraction tokens.old) result tokens.new }
{
    if tokens.follows_dot() {
        let n = tokens.number()?;
        return Ok(u32::from(n));
    }
    Ok(0)
}

fn offset_seconds(is_west: bool, hours: u16, minutes: u16) -> i64
    ensures { result ≡ spec.offset_seconds is_west hours minutes }
{
    let seconds = 60 * (i64::from(minutes) + 60 * i64::from(hours));
    if is_west { -seconds } else { seconds }
}

// An offset behind its sign.
#[tactic(auto, unfolding(crate::specs::TimeEnds::written_offset))]
fn written_offset(tokens: &mut Lexer<'_>, is_west: bool) -> DateResult<i64>
    ensures { Reads (spec.written_offset is_west tokens.old) result tokens.new }
{
    let hours = tokens.number()?;
    if tokens.follows_colon() {
        let minutes = tokens.number()?;
        return Ok(offset_seconds(is_west, hours, minutes));
    }
    Ok(offset_seconds(is_west, hours / 100, hours % 100))
}

// What closes a formal time, whose numbers have been read.
#[tactic(auto, unfolding(crate::specs::TimeEnds::closing))]
fn closing(
    tokens: &mut Lexer<'_>,
    hour: u16,
    min: u16,
    sec: u16,
    microsec: u32,
) -> DateResult<TimeSpec>
    ensures { Reads (spec.closing (clock hour min sec microsec)
        (next_token tokens.old) (after_token tokens.old))
        result tokens.new }
{
    let (min, sec) = (u32::from(min), u32::from(sec));
    let time = TimeSpec::new(u32::from(hour), min, sec, microsec);
    let Some(token) = tokens.peek() else {
        return Ok(time);
    };
    tokens.advance();
    match token.kind {
        Kind::Plus => Ok(time.with_offset(written_offset(tokens, false)?)),
        Kind::Dash => Ok(time.with_offset(written_offset(tokens, true)?)),
        Kind::Word(word) if is_z(word) => Ok(time.with_offset(0)),
        Kind::Word(word) => match half_of(word) {
            Some(half) => Ok(TimeSpec::new(shifted(half, hour), min, sec, microsec)),
            None => Err(DateError::ExpectedToken(Expected::ZAmPm, token.span)),
        },
        _ => Err(DateError::ExpectedToken(Expected::ZoneWord, token.span)),
    }
}

// What follows the minute of a formal time.
#[tactic(auto, unfolding(crate::specs::ClockTimes::after_minute))]
fn after_minute(tokens: &mut Lexer<'_>, hour: u16, min: u16) -> DateResult<TimeSpec>
    ensures { Reads (spec.after_minute hour min (next_token tokens.old) (after_token tokens.old))
        result tokens.new }
{
    let Some(token) = tokens.peek() else {
        return closing(tokens, hour, min, 0, 0);
    };
    match token.kind {
        Kind::Colon => {
            tokens.advance();
            let sec = tokens.number()?;
            let microsec = fraction(tokens)?;
            closing(tokens, hour, min, sec, microsec)
        }
        Kind::Word(_) | Kind::Number(_) => closing(tokens, hour, min, 0, 0),
        _ => Err(tokens.fault(Expected::ColonMark)),
    }
}

// A time behind its hour and a colon.
#[tactic(auto, unfolding(crate::specs::ClockTimes::formal))]
fn formal(tokens: &mut Lexer<'_>, hour: u16) -> DateResult<TimeSpec>
    ensures { Reads (spec.formal hour tokens.old) result tokens.new }
{
    let min = tokens.number()?;
    after_minute(tokens, hour, min)
}

// A time behind its hour and a dot.
#[tactic(auto, unfolding(crate::specs::ClockTimes::informal, crate::specs::ClockTimes::informal_close))]
fn informal(tokens: &mut Lexer<'_>, hour: u16) -> DateResult<TimeSpec>
    ensures { Reads (spec.informal hour tokens.old) result tokens.new }
{
    let min = tokens.number()?;
    let Some(token) = tokens.peek() else {
        return Ok(TimeSpec::new(u32::from(hour), u32::from(min), 0, 0));
    };
    if let Kind::Word(word) = token.kind
        && let Some(half) = half_of(word)
    {
        tokens.advance();
        return Ok(TimeSpec::new(shifted(half, hour), u32::from(min), 0, 0));
    }
    Err(tokens.fault(Expected::DotAmPm))
}

// A time behind an hour that wants a colon or a dot.
#[tactic(auto, unfolding(crate::specs::OpenHours::open_hour))]
fn open_hour(tokens: &mut Lexer<'_>, hour: u16) -> DateResult<TimeSpec>
    ensures { Reads (spec.open_hour hour (next_token tokens.old) (after_token tokens.old))
        result tokens.new }
{
    let Some(token) = tokens.peek() else {
        return Err(DateError::EndOfText(Expected::ColonOrDot));
    };
    tokens.advance();
    match token.kind {
        Kind::Colon => formal(tokens, hour),
        Kind::Dot => informal(tokens, hour),
        _ => Err(DateError::ExpectedToken(Expected::ColonOrDot, token.span)),
    }
}

// A time behind the hour of a time part.
#[tactic(auto, unfolding(crate::specs::OpenHours::after_hour))]
fn after_hour(tokens: &mut Lexer<'_>, hour: u16) -> DateResult<TimeSpec>
    ensures { Reads (spec.after_hour hour (next_token tokens.old) (after_token tokens.old))
        result tokens.new }
{
    let Some(token) = tokens.peek() else {
        return Err(DateError::EndOfText(Expected::AmPmColonDot));
    };
    tokens.advance();
    match token.kind {
        Kind::Colon => formal(tokens, hour),
        Kind::Dot => informal(tokens, hour),
        Kind::Word(word) => match half_of(word) {
            Some(half) => Ok(TimeSpec::new(shifted(half, hour), 0, 0, 0)),
            None => Err(DateError::ExpectedToken(Expected::AmPm, token.span)),
        },
        _ => Err(DateError::ExpectedToken(Expected::AmPmColonDot, token.span)),
    }
}

// A time part of which nothing was read.
#[tactic(auto, unfolding(crate::specs::TimePart::whole_time))]
fn whole_time(tokens: &mut Lexer<'_>) -> DateResult<Option<TimeSpec>>
    ensures { Reads (spec.whole_time tokens.old) result tokens.new }
{
    tokens.follows_capital_t();
    let Some(token) = tokens.peek() else {
        return Ok(None);
    };
    let Kind::Number(hour) = token.kind else {
        return Err(tokens.fault(Expected::Number));
    };
    tokens.advance();
    let time = after_hour(tokens, hour)?;
    Ok(Some(time))
}

/// The time part of a phrase, of which the date part may have read the front.
#[tactic(auto, unfolding(crate::specs::TimePart::time_part))]
pub fn time_part(tokens: &mut Lexer<'_>, front: ClockFront) -> DateResult<Option<TimeSpec>>
    ensures { Reads (spec.time_part front tokens.old) result tokens.new }
{
    let time = match front {
        ClockFront::Nothing => return whole_time(tokens),
        ClockFront::OpenHour(hour) => open_hour(tokens, hour)?,
        ClockFront::FormalHour(hour) => formal(tokens, hour)?,
        ClockFront::InformalHour(hour) => informal(tokens, hour)?,
        ClockFront::LoneHour(hour) => TimeSpec::new(hour, 0, 0, 0),
    };
    Ok(Some(time))
}
