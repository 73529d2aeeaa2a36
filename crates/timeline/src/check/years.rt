//! The first second of a year, and a year of each kind from 2000 to 2024.
ghost use Rattle.std.specs.Prelude.{◌≡◌, ◌<◌, pos, ◌≤ℤ◌};
ghost use Rattle.civil.specs.Calendar.{year_second, example_year};
ghost use Rattle.timeline.specs.Inside.RuleChecks.{kind_seconds};
ghost use Rattle.timeline.specs.Inside.Reach.{IsSecondInReach};

use civil::days_before_year;

/// The first second of a year.
pub fn first_second(year: i32) -> i64
    ensures value { result ≡ year_second year }
    ensures reach { IsSecondInReach result }
{
    86_400 * days_before_year(year)
}

// A year of each kind.
const EXAMPLES: [u16; 14] = [
    2001, 2002, 2003, 2009, 2010, 2005, 2006, 2024, 2008, 2020, 2004, 2016, 2000, 2012,
];

/// A year of a kind, from 2000 to 2024.
pub fn example_year(kind: u8) -> i32
    requires { kind < 14 }
    ensures value { result ≡ example_year kind }
    ensures low { pos 0 ≤ℤ result }
    ensures high { result ≤ℤ pos 65535 }
{
    EXAMPLES[kind as usize] as i32
}

/// The seconds of a year of a kind.
pub fn seconds_of_kind(kind: u8) -> i64
    ensures value { result ≡ kind_seconds kind }
    ensures low { pos 0 ≤ℤ result }
    ensures high { result ≤ℤ pos 31622400 }
{
    if kind < 7 { 31_536_000 } else { 31_622_400 }
}
