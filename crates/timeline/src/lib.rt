//! A time zone in time: its transitions by a table and by a yearly rule, what holds at a second, and the laws of zones.
#![tactic(auto)]

mod check;
mod data;
mod dates;
mod equal;
mod fault;
pub mod laws;
mod lookups;
mod offset;
mod rule;
mod seconds;
mod transitions;

pub use data::ZoneData;
pub use dates::{DayRule, PlacedDates, RuleDate, RuleDates, ZoneRule};
pub use fault::ZoneFault;
pub use offset::{Offset, PossibleOffset, Transition, UtcOffset};
pub use rule::TimeMode;
pub use seconds::Seconds;
