//! How dates are written.
ghost use Rattle.std.specs.Prelude.{◌≡◌};
ghost use Rattle.civil.specs.Dates.{year_sign};

use crate::date::{NaiveDate, year_month_day};
use std::fmt;

// The sign of a year, which a year from 0 to 9999 has not.
fn sign_of(year: i32) -> &'static str
    ensures { result.now ≡ year_sign year }
{
    if year < 0 {
        "-"
    } else if year > 9999 {
        "+"
    } else {
        ""
    }
}

/// Year, month and day with dashes, month and day in two digits. A year from 0 to 9999 has four digits; another has a sign
/// and at least four: `2018-03-23`, `-0001-01-01`, `+10000-01-01`.
impl fmt::Display for NaiveDate {
    ghost use Rattle.std.specs.Prelude.{Some};
    ghost use Rattle.civil.specs.Dates.{date_text};

    ghost output = { λ day. Some (date_text day) };

    fn fmt<W: fmt::Write>(&self, f: &mut fmt::Formatter<W>) -> fmt::Result {
        let (year, month, day) = year_month_day(self.day_number());
        let sign = sign_of(year);
        let size = year.unsigned_abs();
        write!(
            f,
            "{sign}{}{}{}{}-{}{}-{}{}",
            size / 1000,
            size / 100 % 10,
            size % 100 / 10,
            size % 100 % 10,
            month / 10,
            month % 10,
            day / 10,
            day % 10
        )
    }
}

/// As it is displayed.
impl fmt::Debug for NaiveDate {
    ghost use Rattle.std.specs.Prelude.{Some};
    ghost use Rattle.civil.specs.Dates.{date_text};

    ghost debug_output = { λ day. Some (date_text day) };

    fn fmt<W: fmt::Write>(&self, f: &mut fmt::Formatter<W>) -> fmt::Result {
        let date = *self;
        write!(f, "{date}")
    }
}
