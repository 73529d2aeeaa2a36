//! What a phrase tells in a zone: its moment, and the words of its distance from a base.
ghost use Rattle.std.specs.Prelude.{◌≡◌, ◌/◌, ℤ, List, ℕ, Some, IfOk};
ghost use Rattle.timeline.specs.Zone.{PlainZone};
ghost use Rattle.timeline.specs.Laws.{IsLawful};
ghost use Rattle.zoneinfo64.specs.NamedZone.{NamedZone, named};
ghost use Rattle.zoneinfo64.specs.CheckedZone.{IsChecked};
ghost use Rattle.zoneinfo64.specs.Bundle.{zones_of_words};
ghost use Rattle.timeline.specs.Timeline.{offset_at};
ghost use Rattle.tell.specs.FormatterVoices.{voices_by};
ghost use Rattle.std.specs.String.{string_bytes};
ghost use Rattle.std.specs.Duration.{as_nanos};
ghost use Rattle.tell.specs.Voices.{IsToldBy, voice_for};
ghost use Rattle.tell.specs.Moments.{IsBase};
ghost use Rattle.tell.specs.Replies.{IsReplyIn};
ghost use Rattle.tell.specs.Tales.{IsTale};
ghost use Rattle.tell.specs.Tells.{Tells, TellsBundle, tale_of};
ghost use Rattle.tell.specs.Inside.FieldsView.{fields_view};
ghost use Rattle.tell.specs.Inside.MomentView.{IsInCalendar};

use crate::fields::Fields;
use crate::find::{checked, find};
use crate::lead::{Lead, lead_from};
use crate::moment::Moment;
use interim::{DateError, Dialect};
use std::alloc::{AllocError, Global};
use thiserror::Error;
use timeago::{Formatter, Language};
use timeline::laws::one_verdict;
use zoneinfo64::{BinaryDeserializerError, Offset, Zone, ZoneFault, ZoneInfo64};

/// A moment, and how it is told.
#[derive(Drop)]
pub struct Told {
    /// The second, counted from 1970-01-01 00:00:00 UTC.
    pub seconds: i64,
    /// Its microseconds, below 1,000,000.
    pub micros: u32,
    /// The zone's offset there, in seconds east of UTC.
    pub offset: i32,
    /// Whether that is one of daylight time.
    pub rule_applies: bool,
    /// Whether the moment is after the base.
    pub ahead: bool,
    /// The words of its distance from the base.
    pub text: String,
}

/// Why nothing is told: the first of these, from `Bundle` on, that holds.
#[derive(Clone, Copy, PartialEq, Eq, Debug, Error)]
pub enum TellError {
    /// Memory could not be found; this may come at any step that takes memory.
    #[error("memory could not be found")]
    Memory,
    /// The words of the bundle denote no tree, or none that gives a list of zones.
    #[error("bundle refused")]
    Bundle,
    /// No zone of the bundle has that name.
    #[error("unknown zone")]
    UnknownZone,
    /// The zone breaks this law, and none of a lesser number.
    #[error("unlawful zone")]
    Unlawful(ZoneFault),
    /// The base lies outside the years -9999 to 9999.
    #[error("base out of range")]
    BadBase,
    /// The phrase's first fault, or that it has no meaning.
    #[error("phrase refused")]
    Phrase(DateError),
}

impl From<AllocError> for TellError {
    ghost use Rattle.tell.specs.declared.told.TellError.TheVariants.{Memory};

    ghost from_gives = { λ _ e. e ≡ Memory };

    fn from(_: AllocError) -> TellError {
        TellError::Memory
    }
}

// The words of a distance, to the past or ahead.
fn words<L: Language>(
    alloc: Global,
    lead: Lead,
    past: &Formatter<L>,
    ahead: &Formatter<L>,
) -> Result<String, AllocError>
    ensures { IfOk result
        (λ text. IsToldBy (voice_for (voices_by L.speech past.now ahead.now) lead.ahead)
        (as_nanos lead.distance) (string_bytes text)) }
{
    if lead.ahead {
        ahead.convert(alloc, lead.distance)
    } else {
        past.convert(alloc, lead.distance)
    }
}

// The offset of a zone with its verdict at a moment, where the zone is lawful.
fn offset_there(zone: Option<Result<Zone<'_>, ZoneFault>>, moment: &Moment) -> Offset
    ensures { (zones : List NamedZone) (name : List ℕ) (z : PlainZone)
        → IsChecked zones name zone.entry
        → named zones name ≡ Some z → IsLawful z → result ≡ offset_at z moment.now.second }
{
    one_verdict();
    match zone {
        Some(Ok(zone)) => zone.for_timestamp(moment.second),
        _ => Offset::default(),
    }
}

// A moment with its zone's offset there and the words of its distance.
fn with_words(moment: Moment, offset: Offset, ahead: bool, text: String) -> Told
    ensures { tale_of result ≡ record {
      seconds = moment.second;
      micros = moment.nanos / 1000;
      offset = offset;
      ahead = ahead;
      text = string_bytes text;
    } }
{
    let Moment {
        second: seconds,
        nanos,
        ..
    } = moment;
    let rule_applies = offset.rule_applies;
    let offset = offset.offset.seconds();
    let micros = nanos / 1000;
    Told {
        seconds,
        micros,
        offset,
        rule_applies,
        ahead,
        text,
    }
}

// How a moment is told from a base.
fn tell_moment<L: Language>(
    alloc: Global,
    fields: &Fields<'_>,
    moment: Moment,
    offset: Offset,
    past: &Formatter<L>,
    ahead: &Formatter<L>,
) -> Result<Told, AllocError>
    requires base { IsBase fields.now.base }
    requires inside { IsInCalendar moment }
    ensures { (z : PlainZone) → offset ≡ offset_at z moment.second → IfOk result (λ told.
        IsTale z (voices_by L.speech past.now ahead.now) fields.now.base moment.second moment.nanos
        (tale_of told)) }
{
    let lead = lead_from(fields, &moment);
    let text = words(alloc, lead, past, ahead)?;
    Ok(with_words(moment, offset, lead.ahead, text))
}

// Tells the phrase of a line.
fn tell_fields<L: Language>(
    alloc: Global,
    info: &ZoneInfo64,
    fields: &Fields<'_>,
    past: &Formatter<L>,
    ahead: &Formatter<L>,
) -> Result<Told, TellError>
    ensures { Tells (IsReplyIn (voices_by L.speech past.now ahead.now) info.now
        (fields_view fields.now)) result }
{
    let checked = checked(info, fields.zone);
    match find(checked, fields) {
        Ok(moment) => {
            let offset = offset_there(checked, &moment);
            match tell_moment(alloc, fields, moment, offset, past, ahead) {
                Ok(told) => Ok(told),
                Err(AllocError) => Err(TellError::Memory),
            }
        }
        Err(error) => Err(error),
    }
}

/// Tells a phrase in a zone of a bundle that was read: the moment that it means from the base, in seconds since
/// 1970-01-01 00:00:00 UTC, and its distance from the base in the words of `past`, or of `ahead` for a moment after the base.
///
/// Else it answers the first of these that holds: no zone has the name (`UnknownZone`), the zone breaks a law (`Unlawful`, with
/// the least one), the base lies outside the years -9999 to 9999 (`BadBase`), the phrase has a fault or no meaning (`Phrase`).
/// `Memory` may come where the words are made.
pub fn tell_in<L: Language>(
    alloc: Global,
    info: &ZoneInfo64,
    zone: &str,
    base: i64,
    phrase: &str,
    dialect: Dialect,
    past: &Formatter<L>,
    ahead: &Formatter<L>,
) -> Result<Told, TellError>
    ensures { Tells (IsReplyIn (voices_by L.speech past.now ahead.now) info.now
        (record { zone = zone.now; base = base; dialect = dialect; phrase = phrase.now })) result }
{
    let fields = Fields {
        zone,
        base,
        dialect,
        phrase,
    };
    tell_fields(alloc, info, &fields, past, ahead)
}

/// The same over the words of a bundle, low half first: `Bundle` exactly where they are refused as `Tree` or `Rules`.
#[tactic(auto, unfolding(zoneinfo64::specs::Bundle::zones_of_words))]
pub fn tell<L: Language>(
    alloc: Global,
    words: &[u32],
    zone: &str,
    base: i64,
    phrase: &str,
    dialect: Dialect,
    past: &Formatter<L>,
    ahead: &Formatter<L>,
) -> Result<Told, TellError>
    ensures { TellsBundle (zones_of_words words.now) (voices_by L.speech past.now ahead.now)
        (record { zone = zone.now; base = base; dialect = dialect; phrase = phrase.now }) result }
{
    match ZoneInfo64::try_from_u32s(alloc, words) {
        Ok(info) => tell_in(alloc, &info, zone, base, phrase, dialect, past, ahead),
        Err(BinaryDeserializerError::Memory) => Err(TellError::Memory),
        Err(BinaryDeserializerError::Tree) => Err(TellError::Bundle),
        Err(BinaryDeserializerError::Rules) => Err(TellError::Bundle),
    }
}
