ghost use Rattle.std.specs.Prelude.{◌≡◌};
ghost use Rattle.civil.specs.CivilDates.{IsDay};
ghost use Rattle.civil.specs.Calendar.{thursday_of};
ghost use Rattle.civil.specs.Delta.{IsWithin};

use crate::calendar::year_of_day;
use crate::date::ordinal_in;

/// A week of ISO 8601: it begins on a Monday and belongs to the year of its Thursday, and week 1 holds the year's first
/// Thursday. The last days of the calendar are in week 1 of 262143.
///
/// Weeks are ordered, equal and hashed by year, then number.
#[derive(Clone, Copy, PartialEq, Eq, PartialOrd, Ord, Hash)]
pub struct IsoWeek {
    year: i32,
    week: u32,
}

impl IsoWeek {
    ghost use Rattle.civil.specs.Weeks.{week_year, week_number};

    /// The year that the week belongs to: 2020 for 2021-01-03.
    pub fn year(&self) -> i32
        ensures { result ≡ week_year self.now }
    {
        self.year
    }

    /// The number of the week in its year, from 1 to 53: 53 for 2021-01-03.
    pub fn week(&self) -> u32
        ensures { result ≡ week_number self.now }
    {
        self.week
    }
}

// The Thursday of a day's week, which is past the calendar's end for its last days.
#[tactic(auto, unfolding(crate::specs::Calendar::thursday_of))]
fn thursday_in(day: i64) -> i64
    requires { IsDay day }
    ensures value { result ≡ thursday_of day }
    ensures bound { IsWithin 96465300 result }
{
    day + 3 - (day + 3).rem_euclid(7)
}

impl IsoWeek {
    ghost use Rattle.civil.specs.Weeks.{IsWeekOf, week_year, week_number};

    // The week of a day.
    pub(crate) fn of_day(day: i64) -> IsoWeek
        requires { IsDay day }
        ensures { IsWeekOf day (week_year result) (week_number result) }
    {
        let thursday = thursday_in(day);
        match year_of_day(thursday) {
            Some(year) => IsoWeek {
                year,
                week: ordinal_in(year, thursday) as u32 / 7 + 1,
            },
            None => unreachable!(),
        }
    }
}
