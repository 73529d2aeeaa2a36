//! Units of time, and what languages call them.
#![tactic(auto)]

mod any;
mod counted;
mod language;
pub mod languages;
pub mod laws;
#[cfg(test)]
mod tests;
mod unit;

pub use any::AnyLanguage;
pub use language::{BoxedLanguage, Language, Layout};
pub use unit::TimeUnit;
