ghost use Rattle.std.specs.Prelude.{◌≡◌, ◌≤◌, [], unsigned_abs};
ghost use Rattle.interim.specs.DatePart as spec;
ghost use Rattle.interim.specs.Intervals.{count_of, scaled};
ghost use Rattle.interim.specs.Parts.{full_year as year_meant};
ghost use Rattle.interim.specs.Inside.Seen.{seen};
ghost use Rattle.interim.specs.Inside.Reading.{Reads};
ghost use Rattle.interim.specs.NextTokens.{next_token, after_token};

use crate::errors::{DateError, DateResult, Expected};
use crate::lexer::{Kind, Lexer, Token};
use crate::time_part::{ClockFront, shifted};
use crate::types::{AbsDate, ByName, DateSpec, Dialect, Direction, Interval};
use crate::words::{day_of_word, direction_of, half_of, is_ago, month_of, unit_of, weekday_of};

/// What stands before the head of a phrase.
#[derive(Clone, Copy)]
pub enum Opening {
    Bare,
    Minus,
    Directed(Direction),
}

/// A date part, with what it has read of the time part.
#[derive(Clone, Copy)]
pub struct DatePart {
    pub date: Option<DateSpec>,
    pub clock: ClockFront,
}

fn dated(date: DateSpec) -> DatePart
    ensures { result ≡ spec.dated date }
{
    DatePart {
        date: Some(date),
        clock: ClockFront::Nothing,
    }
}

fn timed(clock: ClockFront) -> DatePart
    ensures { result ≡ spec.timed clock }
{
    DatePart { date: None, clock }
}

fn absolute(year: u16, month: u32, day: u32) -> DateSpec
    ensures { result ≡ spec.absolute year month day }
{
    DateSpec::Absolute(AbsDate {
        year: i32::from(year),
        month,
        day,
    })
}

fn day_and_month(day: u16, month: u32, direction: Direction) -> DateSpec
    ensures { result ≡ spec.day_and_month day month direction }
{
    let day = u32::from(day);
    DateSpec::FromName(ByName::DayMonth { day, month }, direction)
}

fn direction_in(opening: Opening) -> Direction
    ensures { result ≡ spec.direction_in opening }
{
    match opening {
        Opening::Bare | Opening::Minus => Direction::Here,
        Opening::Directed(direction) => direction,
    }
}

// A month at the head, and what may follow it: a day, a comma and a year.
#[tactic(auto, unfolding(crate::specs::WordHeads::month_head))]
fn month_head(tokens: &mut Lexer<'_>, month: u32, direction: Direction) -> DateResult<DatePart>
    ensures { Reads (spec.month_head month direction tokens.old) result tokens.new }
{
    let Some(day) = tokens.following_number() else {
        tokens.pass_over();
        let name = ByName::MonthName(month);
        return Ok(dated(DateSpec::FromName(name, direction)));
    };
    if tokens.follows_comma() {
        let year = tokens.number()?;
        return Ok(dated(absolute(year, month, u32::from(day))));
    }
    Ok(dated(day_and_month(day, month, direction)))
}

// So many of a unit.
pub fn times(unit: Interval, count: i32) -> Interval
    requires unit { unsigned_abs (count_of unit) ≤ 3600 }
    requires count { unsigned_abs count ≤ 65535 }
    ensures { result ≡ scaled unit count }
{
    unit * count
}

fn directed_count(direction: Direction) -> i32
    ensures count { result ≡ spec.directed_count direction }
    ensures bound { unsigned_abs result ≤ 1 }
{
    match direction {
        Direction::Next => 1,
        Direction::Last => -1,
        Direction::Here => 0,
    }
}

// A word at the head: a month, a day of the week or a unit.
#[tactic(auto, unfolding(crate::specs::WordHeads::word_head))]
fn word_head(
    tokens: &mut Lexer<'_>,
    direction: Direction,
    token: Token<'_>,
    word: &[u8],
) -> DateResult<DatePart>
    ensures { Reads (spec.word_head direction (seen token.entry) word.now tokens.old)
        result tokens.new }
{
    if let Some(month) = month_of(word) {
        return month_head(tokens, month, direction);
    }
    if let Some(weekday) = weekday_of(word) {
        return Ok(dated(DateSpec::FromName(ByName::WeekDay(weekday), direction)));
    }
    match unit_of(word) {
        Some(unit) => Ok(dated(DateSpec::Relative(times(unit, directed_count(direction))))),
        None => Err(DateError::ExpectedToken(Expected::Identifier, token.span)),
    }
}

// The end behind a number.
fn number_alone(opening: Opening, n: u16) -> DateResult<DatePart>
    ensures { Reads (spec.number_alone opening n []) result [] }
{
    match opening {
        Opening::Bare => Ok(dated(absolute(n, 1, 1))),
        Opening::Minus => Err(DateError::EndOfText(Expected::DurationWord)),
        Opening::Directed(_) => Err(DateError::EndOfText(Expected::DayOrMonth)),
    }
}

// A year with dashes, behind the first of them.
#[tactic(auto, unfolding(crate::specs::NumberedDates::dashed))]
fn dashed(tokens: &mut Lexer<'_>, year: u16) -> DateResult<DatePart>
    ensures { Reads (spec.dashed year tokens.old) result tokens.new }
{
    let month = tokens.number()?;
    tokens.dash()?;
    let day = tokens.number()?;
    Ok(dated(absolute(year, u32::from(month), u32::from(day))))
}

// A short year lies between 1941 and 2040.
fn full_year(year: u16) -> u16
    ensures { result ≡ year_meant year }
{
    match year {
        0..=40 => 2000 + year,
        41..=99 => 1900 + year,
        _ => year,
    }
}

// Day and month, or month and day, with slashes, behind the first of them.
#[tactic(auto, unfolding(crate::specs::NumberedDates::slashed))]
fn slashed(
    tokens: &mut Lexer<'_>,
    dialect: Dialect,
    direction: Direction,
    first: u16,
) -> DateResult<DatePart>
    ensures { Reads (spec.slashed dialect direction first tokens.old) result tokens.new }
{
    let second = tokens.number()?;
    let (day, month) = match dialect {
        Dialect::Uk => (first, second),
        Dialect::Us => (second, first),
    };
    if tokens.follows_slash() {
        let year = tokens.number()?;
        let date = absolute(full_year(year), u32::from(month), u32::from(day));
        return Ok(dated(date));
    }
    Ok(dated(day_and_month(day, u32::from(month), direction)))
}

// A day and a month, and what may follow them: a year.
#[tactic(auto, unfolding(crate::specs::CountedDates::day_month))]
fn day_month(
    tokens: &mut Lexer<'_>,
    day: u16,
    month: u32,
    direction: Direction,
) -> DateResult<DatePart>
    ensures { Reads (spec.day_month day month direction tokens.old) result tokens.new }
{
    if let Some(year) = tokens.following_number() {
        return Ok(dated(absolute(year, month, u32::from(day))));
    }
    tokens.pass_over();
    Ok(dated(day_and_month(day, month, direction)))
}

// A number of units, and what may follow it: `ago`, or an hour.
#[tactic(auto, unfolding(crate::specs::CountedDates::units_on))]
fn units_on(tokens: &mut Lexer<'_>, unit: Interval, n: u16) -> DateResult<DatePart>
    requires { unsigned_abs (count_of unit) ≤ 3600 }
    ensures { Reads (spec.units_on unit n tokens.old) result tokens.new }
{
    let count = i32::from(n);
    let on = DateSpec::Relative(times(unit, count));
    let Some(token) = tokens.peek() else {
        tokens.pass_over();
        return Ok(dated(on));
    };
    match token.kind {
        Kind::Word(word) => {
            tokens.advance();
            if !is_ago(word) {
                return Err(DateError::ExpectedToken(Expected::Ago, token.span));
            }
            Ok(dated(DateSpec::Relative(times(unit, -count))))
        }
        Kind::Number(hour) => {
            tokens.advance();
            Ok(DatePart {
                date: Some(on),
                clock: ClockFront::OpenHour(hour),
            })
        }
        _ => {
            tokens.pass_over();
            Ok(dated(on))
        }
    }
}

// A number of units; with a minus nothing may follow it.
fn units(tokens: &mut Lexer<'_>, opening: Opening, unit: Interval, n: u16) -> DateResult<DatePart>
    requires { unsigned_abs (count_of unit) ≤ 3600 }
    ensures { Reads (spec.units opening unit n tokens.old) result tokens.new }
{
    match opening {
        Opening::Minus => Ok(dated(DateSpec::Relative(times(unit, -i32::from(n))))),
        Opening::Bare | Opening::Directed(_) => units_on(tokens, unit, n),
    }
}

// A word behind a number: a month, a unit, am or pm.
#[tactic(auto, unfolding(crate::specs::NumberHeads::number_then_word))]
fn number_then_word(
    tokens: &mut Lexer<'_>,
    opening: Opening,
    n: u16,
    token: Token<'_>,
    word: &[u8],
) -> DateResult<DatePart>
    ensures { Reads (spec.number_then_word opening n (seen token.entry) word.now tokens.old)
        result tokens.new }
{
    if let Some(month) = month_of(word) {
        return day_month(tokens, n, month, direction_in(opening));
    }
    if let Some(unit) = unit_of(word) {
        return units(tokens, opening, unit, n);
    }
    match half_of(word) {
        Some(half) => Ok(timed(ClockFront::LoneHour(shifted(half, n)))),
        None => Err(DateError::ExpectedToken(Expected::MonthOrUnit, token.span)),
    }
}

// A number at the head, by the token behind it.
#[tactic(auto, unfolding(crate::specs::NumberHeads::number_head))]
fn number_head(
    tokens: &mut Lexer<'_>,
    dialect: Dialect,
    opening: Opening,
    n: u16,
) -> DateResult<DatePart>
    ensures { Reads (spec.number_head dialect opening n
        (next_token tokens.old) (after_token tokens.old))
        result tokens.new }
{
    let Some(token) = tokens.peek() else {
        return number_alone(opening, n);
    };
    tokens.advance();
    match (token.kind, opening) {
        (Kind::Word(word), _) => number_then_word(tokens, opening, n, token, word),
        (Kind::Slash, _) => slashed(tokens, dialect, direction_in(opening), n),
        (Kind::Colon | Kind::Dot | Kind::Dash, Opening::Directed(_)) => {
            Err(DateError::EndOfText(Expected::DayOrMonth))
        }
        (Kind::Colon, _) => Ok(timed(ClockFront::FormalHour(n))),
        (Kind::Dot, _) => Ok(timed(ClockFront::InformalHour(n))),
        (Kind::Dash, _) => dashed(tokens, n),
        _ => Err(DateError::ExpectedToken(Expected::DateWord, token.span)),
    }
}

// The head: a word, or a number.
#[tactic(auto, unfolding(crate::specs::DatePart::head))]
fn head(tokens: &mut Lexer<'_>, dialect: Dialect, opening: Opening) -> DateResult<DatePart>
    ensures { Reads (spec.head dialect opening (next_token tokens.old) (after_token tokens.old))
        result tokens.new }
{
    let Some(token) = tokens.peek() else {
        return Err(DateError::EndOfText(Expected::EmptyDate));
    };
    tokens.advance();
    match token.kind {
        Kind::Number(n) => number_head(tokens, dialect, opening, n),
        Kind::Word(word) => match opening {
            Opening::Minus => Err(DateError::ExpectedToken(Expected::Number, token.span)),
            _ => word_head(tokens, direction_in(opening), token, word),
        },
        _ => Err(DateError::MissingDate),
    }
}

// The date part from its first token: a minus, a word, or the head.
#[tactic(auto, unfolding(crate::specs::DatePart::first))]
fn first(tokens: &mut Lexer<'_>, dialect: Dialect) -> DateResult<DatePart>
    ensures { Reads (spec.first dialect (next_token tokens.old) (after_token tokens.old))
        result tokens.new }
{
    let Some(token) = tokens.peek() else {
        return head(tokens, dialect, Opening::Bare);
    };
    match token.kind {
        Kind::Dash => {
            tokens.advance();
            head(tokens, dialect, Opening::Minus)
        }
        Kind::Word(word) => {
            if let Some(days) = day_of_word(word) {
                tokens.advance();
                return Ok(dated(DateSpec::Relative(Interval::Days(days))));
            }
            if let Some(direction) = direction_of(word) {
                tokens.advance();
                return head(tokens, dialect, Opening::Directed(direction));
            }
            head(tokens, dialect, Opening::Bare)
        }
        _ => head(tokens, dialect, Opening::Bare),
    }
}

/// The date part of a phrase.
#[tactic(auto, unfolding(crate::specs::DatePart::date_part))]
pub fn date_part(tokens: &mut Lexer<'_>, dialect: Dialect) -> DateResult<DatePart>
    ensures { Reads (spec.date_part dialect tokens.old) result tokens.new }
{
    first(tokens, dialect)
}
