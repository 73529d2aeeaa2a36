//! Resource trees, and their reader (ICU resource bundle, format 2).
#![tactic(auto)]

mod body;
mod checker;
mod checking;
mod counts;
mod error;
mod forms;
mod in_place;
mod key;
mod key_places;
mod keys;
mod leaves;
mod places;
mod reading;
mod refs;
mod resource;
#[cfg(test)]
mod tests;
#[cfg(test)]
mod tests_in_place;
mod trees;
mod words;

pub use error::ResbError;
pub use in_place::{Bundle, ResourceRef};
pub use key::Key;
pub use keys::are_distinct;
pub use reading::read;
pub use refs::{BytesRef, EntriesRef, ItemsRef, KeyRef, TextRef};
pub use resource::Resource;
