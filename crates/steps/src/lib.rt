//! A count of steps that takes no bytes and no time.
#![tactic(auto)]

mod counter;

pub use counter::Steps;
