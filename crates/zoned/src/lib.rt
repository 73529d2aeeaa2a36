//! Zones, their offsets, and moments with the offset of a zone.
#![tactic(auto)]

pub mod date;
mod date_ops;
mod date_times;
pub mod datetime;
pub mod fixed;
pub mod laws;
pub mod offset;
pub mod placing;
#[cfg(test)]
mod tests;
pub mod utc;

pub use date::Date;
pub use datetime::DateTime;
pub use fixed::FixedOffset;
pub use offset::{Civil, CivilOffset, MappedLocalTime, Offset, TimeZone};
pub use placing::{placed, placed_at_offset};
pub use utc::Utc;
