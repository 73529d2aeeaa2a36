//! What holds of the definitions of tokens, parts and meanings.
ghost use Rattle.std.specs.Prelude.{◌≡◌, false};
ghost use Rattle.interim.specs.Jiff.{KeepsAnOffset, OneMeaningOverJiff};
ghost use Rattle.interim.specs.JiffDays.{JiffDaysAreDays};
ghost use Rattle.interim.specs.JiffTables.{TablesPlace};
ghost use Rattle.interim.specs.MeaningLaws.{OneMeaning, PlainFormsAreInside, PlainFormsMean, SomeMeaning, SoundMeaning};
ghost use Rattle.interim.specs.TokenLaws.{TokensAreSound};
ghost use Rattle.interim.specs.PartLaws.{PartsAreSound, TimesAreSound};
ghost use Rattle.interim.specs.PlainFormLaws.{PlainFormsAreRead};

use crate::datetime::{Date, DateTime, Time};
use civil::laws::{counts_years, dates_are_days, month_days_are_days, years_have_their_days};
use civil::{NaiveDate, NaiveTime};
use jiff::{Zoned, civil as jiff_civil};
use zoned::Civil;
use zoned::laws::placed_once;

/// The tokens of a phrase stand in order and inside it, and a number is below 10,000.
pub fn tokens_are_sound()
    ensures { TokensAreSound }
{}

/// The parts of a phrase have small numbers, and one without a date has a time. A fault names a token inside the
/// phrase, or its end, or is `MissingDate`.
pub fn parts_are_sound()
    ensures { PartsAreSound }
{}

/// The same of a time part alone.
pub fn times_are_sound()
    ensures { TimesAreSound }
{}

/// A phrase of the plain form is read as its date and its clock time, with no written offset and no fraction.
pub fn plain_forms_are_read()
    ensures { PlainFormsAreRead }
{}

/// In a zone that tells an offset at each second, the parts of a phrase mean one moment, or they have no meaning, and never
/// both.
pub fn parts_mean_one_thing()
    ensures { OneMeaning }
{
    month_days_are_days();
    placed_once();
}

/// In a zone that places each wall second somewhere, the parts of a phrase mean a moment, or they have no meaning.
pub fn parts_mean_something()
    ensures { SomeMeaning }
{
    dates_are_days();
}

/// What a call over a sound zone's moments answers is the meaning in a zone with its offsets.
pub fn sound_zones_mean<Tz: Civil>()
    ensures { (zone : Tz) → SoundMeaning (Tz.sound zone) (Tz.off zone) }
{}

/// A phrase of the plain form means the wall second that it names, as the zone places it, without a fraction.
pub fn plain_forms_mean()
    ensures { PlainFormsMean }
{
    counts_years();
    dates_are_days();
    month_days_are_days();
    years_have_their_days();
}

/// The wall second of a phrase of the plain form lies inside the calendar, by more than a day.
pub fn plain_forms_are_inside()
    ensures { PlainFormsAreInside }
{
    counts_years();
    dates_are_days();
    month_days_are_days();
    years_have_their_days();
}

/// In the years that `jiff` has, its days are those of `civil`.
#[inline]
pub fn jiff_days_are_days()
    ensures { JiffDaysAreDays }
{
    counts_years();
    years_have_their_days();
    month_days_are_days();
}

/// In a zone of one offset `jiff` shows and places as any zone with that offset does: a wall time at its one second.
pub fn jiff_keeps_an_offset()
    ensures { KeepsAnOffset }
{}

/// In any zone of `jiff` too, a wall time has one place, and the parts of a phrase mean one moment or have no meaning.
pub fn parts_mean_one_thing_over_jiff()
    ensures { OneMeaningOverJiff }
{
    month_days_are_days();
}

/// In a zone of `jiff` whose offsets stand in a table, with no rule behind it, a wall time is placed at the first second that
/// shows it, and in a gap at the wall time less the offset before the gap.
pub fn jiff_tables_place()
    ensures { TablesPlace }
{}

/// No call over either backend wants memory: so none answers `Refused::Memory`, nor `DateError::Memory`.
pub fn backends_want_no_memory<Tz: Civil>()
    ensures date { ⟦<NaiveDate as Date>⟧.memory ≡ false }
    ensures time { ⟦<NaiveTime as Time>⟧.memory ≡ false }
    ensures moment { ⟦<zoned::DateTime<Tz> as DateTime>⟧.memory ≡ false }
    ensures jiff_date { ⟦<jiff_civil::Date as Date>⟧.memory ≡ false }
    ensures jiff_time { ⟦<jiff_civil::Time as Time>⟧.memory ≡ false }
    ensures jiff_moment { ⟦<Zoned<'static> as DateTime>⟧.memory ≡ false }
{}
