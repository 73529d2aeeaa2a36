//! Lines that come from a source of bytes, and the replies to them that go to a sink.
#![tactic(auto)]

mod answer;
pub mod laws;
mod line_start;
mod memory;
mod serving;
mod sink;
mod source;
mod status;
#[cfg(test)]
mod tests;
mod whole;

pub use answer::Answer;
pub use memory::{MemSink, MemSource};
pub use serving::serve;
pub use sink::Sink;
pub use source::{Failed, Source};
pub use status::Status;
pub use whole::{ReadError, read_all, write_all};
