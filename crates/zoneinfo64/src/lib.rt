//! Time zones of a `zoneinfo64` resource bundle.
#![tactic(auto)]

mod below;
mod bundle;
mod checked;
mod chrono;
mod error;
mod fields;
pub mod laws;
mod parts;
mod region;
mod rule_words;
mod rules;
mod utf16;
mod zone;

pub use checked::CheckedZones;
pub use chrono::ChronoOffset;
pub use error::BinaryDeserializerError;
pub use region::Region;
pub use steps::Steps;
pub use timeline::{Offset, PossibleOffset, Transition, UtcOffset, ZoneFault};
pub use utf16::{PotentialUtf16, Utf16Chars};
pub use zone::{Zone, ZoneInfo64};
