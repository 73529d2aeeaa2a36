ghost use Rattle.std.specs.Prelude.{◌≡◌, ◌∷◌, [], ◌≤◌, IfSome, unsigned_abs};
ghost use Rattle.std.specs.Str.{bytes_eq, str_to_ascii_lowercase};
ghost use Rattle.interim.specs.Intervals.{count_of};
ghost use Rattle.interim.specs.Words as words;

use crate::types::{Direction, Interval};

/// The half of the day that a clock time names.
#[derive(Clone, Copy)]
pub enum Half {
    Am,
    Pm,
}

// The longest word that is any of these.
const LONGEST: usize = 16;

fn same(word: &[u8], text: &[u8]) -> bool
    ensures { result ≡
        bytes_eq (str_to_ascii_lowercase word.now) (str_to_ascii_lowercase text.now) }
{
    word.eq_ignore_ascii_case(text)
}

fn month_from(a: u8, b: u8, c: u8) -> Option<u32>
    ensures { result ≡ words.month_from (a ∷ b ∷ c ∷ []) }
{
    match (a, b, c) {
        (b'j', b'a', b'n') => Some(1),
        (b'f', b'e', b'b') => Some(2),
        (b'm', b'a', b'r') => Some(3),
        (b'a', b'p', b'r') => Some(4),
        (b'm', b'a', b'y') => Some(5),
        (b'j', b'u', b'n') => Some(6),
        (b'j', b'u', b'l') => Some(7),
        (b'a', b'u', b'g') => Some(8),
        (b's', b'e', b'p') => Some(9),
        (b'o', b'c', b't') => Some(10),
        (b'n', b'o', b'v') => Some(11),
        (b'd', b'e', b'c') => Some(12),
        _ => None,
    }
}

fn weekday_from(a: u8, b: u8, c: u8) -> Option<u8>
    ensures { result ≡ words.weekday_from (a ∷ b ∷ c ∷ []) }
{
    match (a, b, c) {
        (b'm', b'o', b'n') => Some(0),
        (b't', b'u', b'e') => Some(1),
        (b'w', b'e', b'd') => Some(2),
        (b't', b'h', b'u') => Some(3),
        (b'f', b'r', b'i') => Some(4),
        (b's', b'a', b't') => Some(5),
        (b's', b'u', b'n') => Some(6),
        _ => None,
    }
}

/// The month that a word names by its first three letters, with January 1.
#[tactic(auto, unfolding(crate::specs::Words::month_of))]
pub fn month_of(word: &[u8]) -> Option<u32>
    ensures { result ≡ words.month_of word.now }
{
    if word.len() > LONGEST {
        return None;
    }
    let [a, b, c, ..] = word else {
        return None;
    };
    month_from(
        a.to_ascii_lowercase(),
        b.to_ascii_lowercase(),
        c.to_ascii_lowercase(),
    )
}

/// The day of the week that a word names by its first three letters, with Monday 0.
#[tactic(auto, unfolding(crate::specs::Words::weekday_of))]
pub fn weekday_of(word: &[u8]) -> Option<u8>
    ensures { result ≡ words.weekday_of word.now }
{
    if word.len() > LONGEST {
        return None;
    }
    let [a, b, c, ..] = word else {
        return None;
    };
    weekday_from(
        a.to_ascii_lowercase(),
        b.to_ascii_lowercase(),
        c.to_ascii_lowercase(),
    )
}

fn unit_letter(a: u8) -> Option<Interval>
    ensures unit { result ≡ words.unit_from (a ∷ []) }
    ensures bound { IfSome result (λ u. unsigned_abs (count_of u) ≤ 3600) }
{
    match a {
        b's' => Some(Interval::Seconds(1)),
        b'm' => Some(Interval::Seconds(60)),
        b'h' => Some(Interval::Seconds(3600)),
        b'd' => Some(Interval::Days(1)),
        b'w' => Some(Interval::Days(7)),
        b'y' => Some(Interval::Months(12)),
        _ => None,
    }
}

fn unit_pair(a: u8, b: u8) -> Option<Interval>
    ensures unit { result ≡ words.unit_from (a ∷ b ∷ []) }
    ensures bound { IfSome result (λ u. unsigned_abs (count_of u) ≤ 3600) }
{
    match (a, b) {
        (b's', b'e') => Some(Interval::Seconds(1)),
        (b'm', b'i') => Some(Interval::Seconds(60)),
        (b'h', b'o') => Some(Interval::Seconds(3600)),
        (b'd', b'a') => Some(Interval::Days(1)),
        (b'w', b'e') => Some(Interval::Days(7)),
        (b'm', b'o') => Some(Interval::Months(1)),
        (b'y', b'e') => Some(Interval::Months(12)),
        _ => None,
    }
}

/// The unit of time that a word names: by its one letter, or by its first two.
#[tactic(auto, unfolding(crate::specs::Words::unit_of))]
pub fn unit_of(word: &[u8]) -> Option<Interval>
    ensures unit { result ≡ words.unit_of word.now }
    ensures bound { IfSome result (λ u. unsigned_abs (count_of u) ≤ 3600) }
{
    if word.len() > LONGEST {
        return None;
    }
    match word {
        [] => None,
        [a] => unit_letter(a.to_ascii_lowercase()),
        [a, b, ..] => unit_pair(a.to_ascii_lowercase(), b.to_ascii_lowercase()),
    }
}

/// The day that a word names by its distance in days from the base's.
#[tactic(auto, unfolding(crate::specs::Words::day_of_word))]
pub fn day_of_word(word: &[u8]) -> Option<i32>
    ensures { result ≡ words.day_of_word word.now }
{
    let [first, ..] = word else {
        return None;
    };
    match first.to_ascii_lowercase() {
        b'n' if same(word, b"now") => Some(0),
        b't' if same(word, b"today") => Some(0),
        b't' if same(word, b"tomorrow") => Some(1),
        b'y' if same(word, b"yesterday") => Some(-1),
        _ => None,
    }
}

/// The direction that a word names.
#[tactic(auto, unfolding(crate::specs::Words::direction_of))]
pub fn direction_of(word: &[u8]) -> Option<Direction>
    ensures { result ≡ words.direction_of word.now }
{
    let [first, ..] = word else {
        return None;
    };
    match first.to_ascii_lowercase() {
        b'n' if same(word, b"next") => Some(Direction::Next),
        b'l' if same(word, b"last") => Some(Direction::Last),
        b't' if same(word, b"this") => Some(Direction::Here),
        _ => None,
    }
}

/// The half of the day that a word names.
#[tactic(auto, unfolding(crate::specs::Words::half_of))]
pub fn half_of(word: &[u8]) -> Option<Half>
    ensures { result ≡ words.half_of word.now }
{
    if same(word, b"am") {
        return Some(Half::Am);
    }
    if same(word, b"pm") {
        return Some(Half::Pm);
    }
    None
}

#[tactic(auto, unfolding(crate::specs::Words::is_ago))]
pub fn is_ago(word: &[u8]) -> bool
    ensures { result ≡ words.is_ago word.now }
{
    same(word, b"ago")
}

/// Whether a word is the time zone of offset 0.
#[tactic(auto, unfolding(crate::specs::Words::is_z))]
pub fn is_z(word: &[u8]) -> bool
    ensures { result ≡ words.is_z word.now }
{
    same(word, b"z")
}

/// Whether a word is the capital letter that stands between a date and a time.
#[tactic(auto, unfolding(crate::specs::Words::is_capital_t))]
pub fn is_capital_t(word: &[u8]) -> bool
    ensures { result ≡ words.is_capital_t word.now }
{
    matches!(word, [b'T'])
}
