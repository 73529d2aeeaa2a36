//! Sample bundles, and tests that go through several crates.
#![tactic(auto)]

#[cfg(test)]
mod bundles;
#[cfg(test)]
mod dates_tests;
#[cfg(test)]
mod engine_tests;
#[cfg(test)]
mod jiff_tests;
#[cfg(test)]
mod laws_tests;
#[cfg(test)]
mod lines_tests;
#[cfg(test)]
mod lists_tests;
#[cfg(test)]
mod lookups_tests;
#[cfg(test)]
mod placed_tests;
#[cfg(test)]
mod runs;
mod samples;
#[cfg(test)]
mod seconds_tests;
#[cfg(test)]
mod statuses_tests;
#[cfg(test)]
mod tell_tests;
#[cfg(test)]
mod transitions_tests;
mod trees;
#[cfg(test)]
mod words_tests;
#[cfg(test)]
mod zone_lines_tests;

pub use samples::{aliased, changed_zone, one_zone, table_zone, three_zones, unlawful_zones};
