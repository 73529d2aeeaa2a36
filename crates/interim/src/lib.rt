//! Dates in English words, read as the parts that they name.
#![tactic(auto)]

mod date_part;
pub mod datetime;
mod errors;
mod jiff_backend;
pub mod laws;
mod lexer;
mod parser;
mod plain;
mod resolve;
#[cfg(test)]
mod tests;
mod time_part;
mod types;
mod words;
mod zoned_backend;

pub use errors::{DateError, DateResult, Expected, Span};
pub use parser::{DateParser, parse_duration};
pub use resolve::parse_date_string;
pub use types::{AbsDate, ByName, DateSpec, DateTimeSpec, Dialect, Direction, Interval, TimeSpec};
