//! Dates in English words, placed in a zone and told as a distance.
#![tactic(auto)]

mod ago;
mod below;
mod bundle;
mod engine;
mod fields;
mod find;
mod front;
mod large;
pub mod laws;
mod lead;
mod load;
mod located;
mod moment;
mod program;
mod reply;
mod tally;
mod teller;
mod told;

pub use program::run;
pub use streams::{Answer, Failed, MemSink, MemSource, Sink, Source, Status, serve};
pub use told::{TellError, Told, tell, tell_in};
