//! The proleptic Gregorian calendar with a year 0: dates, seen as the days since 1970-01-01.
#![tactic(auto)]

mod ages;
pub mod calendar;
pub mod date;
mod date_text;
pub mod datetime;
pub mod iso_week;
pub mod laws;
mod moves;
pub mod out_of_range;
#[cfg(test)]
mod tests;
pub mod time;
pub mod time_delta;
pub mod weekday;

pub use calendar::{days_before_month, days_before_year, year_kind, year_of_day};
pub use date::{Datelike, NaiveDate};
pub use datetime::NaiveDateTime;
pub use iso_week::IsoWeek;
pub use out_of_range::OutOfRange;
pub use time::NaiveTime;
pub use time_delta::{Duration, TimeDelta};
pub use weekday::Weekday;
