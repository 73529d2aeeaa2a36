//! Distances in time, told in words.
#![tactic(auto)]

mod codes;
mod five_chars;
mod formatter;
pub mod laws;
mod moments;
mod pieces;
mod rest;
mod style;
#[cfg(test)]
mod tests;

pub use codes::from_isolang;
pub use five_chars::format_5chars;
pub use formatter::Formatter;
pub use style::{Style, format};
pub use tongues::languages::english::English;
pub use tongues::{AnyLanguage, BoxedLanguage, Language, Layout, TimeUnit, languages};
