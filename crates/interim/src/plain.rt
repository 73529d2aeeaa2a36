//! Phrases of three plain shapes, of which no token is made.
ghost use Rattle.std.specs.Prelude.{◌≡◌, ◌<◌, [], ◌∷◌, Some, None, IsTrue, IfSome};
ghost use Rattle.interim.specs.Inside.ReadAs.{IsReadAs, half_text};
ghost use Rattle.interim.specs.PlainFormLaws.{IsReadAsNamed};
ghost use Rattle.std.specs.Char.{is_ascii_digit};
ghost use Rattle.interim.specs.Characters.{decimal_from};

use crate::date_part::times;
use crate::lexer::{letters, number};
use crate::time_part::shifted;
use crate::types::{
    AbsDate, ByName, DateSpec, DateTimeSpec, Dialect, Direction, Interval, TimeSpec,
};
use crate::words::{Half, month_of, unit_of, weekday_of};

// The number that two digits write.
#[inline(always)]
fn two(a: u8, b: u8) -> u32
    requires tens { IsTrue (is_ascii_digit a) }
    requires ones { IsTrue (is_ascii_digit b) }
    ensures value { result ≡ decimal_from 0 (a ∷ b ∷ []) }
    ensures bound { result < 100 }
{
    10 * u32::from(a - b'0') + u32::from(b - b'0')
}

// The date and the clock time of a phrase as `2018-03-23 20:00`, with as many digits; `None` says nothing.
#[inline(always)]
fn dashed(phrase: &[u8]) -> Option<(AbsDate, TimeSpec)>
    ensures { IfSome result (λ p. (dialect : Dialect) → IsReadAsNamed dialect phrase.now p.0 p.1) }
{
    let [
        y1 @ b'0'..=b'9',
        y2 @ b'0'..=b'9',
        y3 @ b'0'..=b'9',
        y4 @ b'0'..=b'9',
        b'-',
        m1 @ b'0'..=b'9',
        m2 @ b'0'..=b'9',
        b'-',
        d1 @ b'0'..=b'9',
        d2 @ b'0'..=b'9',
        b' ' | b'T',
        h1 @ b'0'..=b'9',
        h2 @ b'0'..=b'9',
        b':',
        n1 @ b'0'..=b'9',
        n2 @ b'0'..=b'9',
    ] = *phrase
    else {
        return None;
    };
    let date = AbsDate {
        year: (100 * two(y1, y2) + two(y3, y4)) as i32,
        month: two(m1, m2),
        day: two(d1, d2),
    };
    Some((date, TimeSpec::new(two(h1, h2), two(n1, n2), 0, 0)))
}

// The interval of a phrase as `2 days ago`; `None` says nothing.
#[inline(always)]
fn back(phrase: &[u8]) -> Option<Interval>
    ensures { IfSome result (λ interval.
        IsReadAs phrase.now (Some (DateSpec.Relative interval)) None) }
{
    let [.., b' ', b'a', b'g', b'o'] = phrase else {
        return None;
    };
    let [first @ b'0'..=b'9', after @ ..] = phrase else {
        return None;
    };
    let (n, len) = number(*first, after);
    let [b' ', rest @ ..] = &after[len..] else {
        return None;
    };
    let len = letters(rest);
    let [b' ', b'a', b'g', b'o'] = &rest[len..] else {
        return None;
    };
    let word = &rest[..len];
    if month_of(word).is_some() {
        return None;
    }
    let unit = unit_of(word)?;
    Some(times(unit, -i32::from(n)))
}

// The half of the day that is written as `am` or `pm`; `None` says nothing.
#[inline(always)]
fn half(text: &[u8]) -> Option<Half>
    ensures { IfSome result (λ half. text.now ≡ half_text half) }
{
    match text {
        [b'a', b'm'] => Some(Half::Am),
        [b'p', b'm'] => Some(Half::Pm),
        _ => None,
    }
}

// The weekday and the clock time of a phrase as `friday 8pm`; `None` says nothing.
#[inline(always)]
fn weekday(phrase: &[u8]) -> Option<(u8, TimeSpec)>
    ensures { IfSome result (λ p.
        IsReadAs phrase.now
        (Some (DateSpec.FromName (ByName.WeekDay p.0) Direction.Here)) (Some p.1)) }
{
    let [.., b'm'] = phrase else {
        return None;
    };
    let len = letters(phrase);
    let weekday = weekday_of(&phrase[..len])?;
    let [b' ', first @ b'0'..=b'9', after @ ..] = &phrase[len..] else {
        return None;
    };
    let (hour, len) = number(*first, after);
    let half = half(&after[len..])?;
    Some((weekday, TimeSpec::new(shifted(half, hour), 0, 0, 0)))
}

/// The parts of a phrase as `2018-03-23 20:00`, `2 days ago` or `friday 8pm`; `None` says nothing of the phrase.
#[inline(always)]
pub fn plain(phrase: &[u8]) -> Option<DateTimeSpec>
    ensures { IfSome result (λ parts. IsReadAs phrase.now parts.date parts.time) }
{
    if let Some((date, time)) = dashed(phrase) {
        return Some(DateTimeSpec {
            date: Some(DateSpec::Absolute(date)),
            time: Some(time),
        });
    }
    if let Some(interval) = back(phrase) {
        return Some(DateTimeSpec {
            date: Some(DateSpec::Relative(interval)),
            time: None,
        });
    }
    let (day, time) = weekday(phrase)?;
    let date = DateSpec::FromName(ByName::WeekDay(day), Direction::Here);
    Some(DateTimeSpec {
        date: Some(date),
        time: Some(time),
    })
}
