//! The dates of a yearly rule, from the eleven integers that a bundle has for it.
ghost use Rattle.std.specs.Prelude.{◌≡◌, ◌≤◌, option_map, unsigned_abs};
ghost use Rattle.timeline.specs.DateNumbers.{mode_number};
ghost use Rattle.timeline.specs.DateView.{plain_date, raw_of};
ghost use Rattle.timeline.specs.Ranges.{IsDateInRange};
ghost use Rattle.zoneinfo64.specs.RuleDates.{as_i32, longest_month, between, is_rule_day, is_date, date_from, date_rule};
ghost use Rattle.zoneinfo64.specs.RuleFields.{raw_rule};
ghost use Rattle.zoneinfo64.specs.Inside.DateWords.{by_dates};

use timeline::{DayRule, RuleDate, RuleDates, TimeMode};

/// 32 bits with their sign.
pub(crate) fn signed(word: u32) -> i32
    ensures { result ≡ as_i32 word }
{
    word.cast_signed()
}

/// The size of such a number.
fn size(word: u32) -> u32
    ensures { result ≡ unsigned_abs (as_i32 word) }
{
    signed(word).unsigned_abs()
}

fn between(low: i32, high: i32, word: u32) -> bool
    ensures { result ≡ between low high (as_i32 word) }
{
    let number = signed(word);
    low <= number && number <= high
}

/// The days that a month may have, January first.
fn longest_month(month: u32) -> u32
    ensures value { result ≡ longest_month month }
    ensures bound { result ≤ 31 }
{
    match month {
        1 => 29,
        3 | 5 | 8 | 10 => 30,
        _ => 31,
    }
}

/// Whether a weekday code allows a day of a month.
fn is_rule_day(month: u32, code: u32, day: u32) -> bool
    ensures { result ≡ is_rule_day month (as_i32 code) (as_i32 day) }
{
    let longest = longest_month(month);
    let code = signed(code);
    if code == 0 {
        between(1, longest.cast_signed(), day)
    } else if code > 0 {
        between(1, 5, day)
    } else {
        let size = size(day);
        1 <= size && size <= longest
    }
}

/// Whether five numbers are a date.
fn is_date(month: u32, day: u32, code: u32, seconds: u32, mode: u32) -> bool
    ensures { result
        ≡ is_date (as_i32 month) (as_i32 day) (as_i32 code) (as_i32 seconds) (as_i32 mode) }
{
    between(0, 11, month)
        && between(-7, 7, code)
        && between(0, 86_400, seconds)
        && between(0, 2, mode)
        && is_rule_day(size(month), code, day)
}

/// What the seconds of a date are counted by.
fn mode_of(word: u32) -> TimeMode
    requires { unsigned_abs (as_i32 word) ≤ 2 }
    ensures { mode_number result ≡ unsigned_abs (as_i32 word) }
{
    match size(word) {
        0 => TimeMode::Wall,
        1 => TimeMode::Standard,
        _ => TimeMode::Utc,
    }
}

fn date_from(month: u32, day: u32, code: u32, seconds: u32, mode: u32) -> RuleDate
    requires { IsDateInRange
        (date_from (as_i32 month) (as_i32 day) (as_i32 code) (as_i32 seconds) (as_i32 mode)) }
    ensures { plain_date result
        ≡ date_from (as_i32 month) (as_i32 day) (as_i32 code) (as_i32 seconds) (as_i32 mode) }
{
    RuleDate::new(
        size(month),
        signed(day),
        DayRule::of_code(signed(code)),
        size(seconds),
        mode_of(mode),
    )
}

/// A date from its five numbers.
fn date(month: u32, day: u32, code: u32, seconds: u32, mode: u32) -> Option<RuleDate>
    ensures { option_map plain_date result
        ≡ date_rule (as_i32 month) (as_i32 day) (as_i32 code) (as_i32 seconds) (as_i32 mode) }
{
    if is_date(month, day, code, seconds, mode) {
        Some(date_from(month, day, code, seconds, mode))
    } else {
        None
    }
}

fn dates_from(start: Option<RuleDate>, end: Option<RuleDate>, extra: u32) -> Option<RuleDates>
    ensures { option_map raw_of result
        ≡ by_dates (option_map plain_date start) (option_map plain_date end) (as_i32 extra) }
{
    let Some(start) = start else {
        return None;
    };
    let Some(end) = end else {
        return None;
    };
    Some(RuleDates::new(start, end, signed(extra)))
}

/// The rule of eleven integers: two dates and the extra offset.
pub fn dates(words: &[u32]) -> Option<RuleDates>
    ensures { option_map raw_of result ≡ raw_rule words.now }
{
    let [a, b, c, d, e, f, g, h, i, j, k] = words else {
        return None;
    };
    let start = date(*a, *b, *c, *d, *e);
    let end = date(*f, *g, *h, *i, *j);
    dates_from(start, end, *k)
}
