//! Resource trees in words (ICU resource bundle, format 2): their writer, with the reader beside it.
#![tactic(auto)]

mod bundle;
mod draft;
mod key_pool;
pub mod laws;
mod laying;
mod measures;
mod packing;
mod parents;
mod pool;
#[cfg(test)]
mod write_tests;
mod writing;

pub use draft::Draft;
pub use resb_tree::{Key, ResbError, Resource, read};
pub use writing::write;
