//! The yearly rule of a zone, kept by kinds of year. Only `year_at` tells a year's transitions.
ghost use Rattle.std.specs.Prelude.{◌≡◌, ◌+◌, ◌<◌, ℤ, pos, ◌+ℤ◌, ◌-ℤ◌, ◌*ℤ◌, ◌<ℤ◌, ◌≤ℤ◌, IsTrue, if◌then◌else◌, not};
ghost use Rattle.std.specs.Ordering.{int_eq};
ghost use Rattle.timeline.specs.Zone.{fits_i32, end_year};
ghost use Rattle.timeline.specs.TableLaws.{IsSmall};
ghost use Rattle.timeline.specs.Ranges.{greatest_28};
ghost use Rattle.timeline.specs.Inside.RuleYears.{IsFirstYear, TellsYear};
ghost use Rattle.timeline.specs.Timeline.{offset_of};
ghost use Rattle.timeline.specs.Inside.KeptRules.{KeptRule, LieWithin, OfItsRule};
ghost use Rattle.timeline.specs.Inside.KeptYears.{kind_second, taken_off, kept_start, kept_end, BeginsYear};
ghost use Rattle.timeline.specs.Inside.Reach.{IsInReach};
ghost use Rattle.timeline.specs.Inside.Apart.{YearsLieApart};

use crate::laws::rules_go_by_kind;
use crate::offset::{Offset, Transition, UtcOffset};
use civil::laws::{counts_years, kinds_of_year};
use civil::{days_before_year, year_kind};
use std::marker::Model;
use std::sync::ledger::Ledger;
use steps::Steps;

/// What the seconds of the day of a rule's date are counted by.
#[derive(Clone, Copy)]
pub enum TimeMode {
    /// What clocks show before it.
    Wall,
    /// Standard time.
    Standard,
    /// UTC.
    Utc,
}

/// One of the two dates of a rule: its place in a year of each kind, counted in days from 1 January, and its time.
#[derive(Clone, Copy)]
pub struct KindDate {
    places: [i16; 14],
    seconds: u32,
    mode: TimeMode,
}

/// A rule in a zone: its two dates, which of them is a year's first transition, the extra offset that its start adds, the
/// zone's standard offset, and the first year in which it holds.
#[derive(Drop)]
pub struct YearRule {
    start: KindDate,
    end: KindDate,
    extra: i32,
    raw: i32,
    start_is_first: bool,
    first_year: i32,
}

impl Model for YearRule {
    ghost use Rattle.timeline.specs.Inside.KeptRules.{KeptRule};

    ghost Value = { KeptRule };

    ghost use Rattle.timeline.specs.Inside.KeptView.{kept_view, IsKept};

    ghost view = { kept_view };

    ghost invariant = { λ a. IsKept (kept_view a) };
}

impl TimeMode {
    ghost use Rattle.std.specs.Prelude.{nat_eq};
    ghost use Rattle.timeline.specs.DateNumbers.{mode_number};

    /// Whether two modes are one.
    pub(crate) fn is_same(self, other: TimeMode) -> bool
        ensures { result ≡ nat_eq (mode_number self) (mode_number other) }
    {
        match (self, other) {
            (TimeMode::Wall, TimeMode::Wall) => true,
            (TimeMode::Standard, TimeMode::Standard) => true,
            (TimeMode::Utc, TimeMode::Utc) => true,
            _ => false,
        }
    }

    /// What a time of day is ahead of UTC, with the offset before it and the standard offset.
    fn taken_off(self, before: i32, raw: i32) -> i32
        ensures { result ≡ taken_off self before raw }
    {
        match self {
            TimeMode::Wall => before,
            TimeMode::Standard => raw,
            TimeMode::Utc => 0,
        }
    }
}

/// The second of a time of day at a place of a year.
fn second_in(start: i64, place: i16, seconds: u32, taken_off: i32) -> i64
    requires { IsInReach start }
    ensures { result ≡ pos 86400 *ℤ (start +ℤ place) +ℤ pos seconds -ℤ taken_off }
{
    86_400 * (start + place as i64) + seconds as i64 - taken_off as i64
}

/// Whether an extra offset is any.
fn is_some(extra: i32) -> bool
    ensures { result ≡ not (int_eq extra (pos 0)) }
{
    extra != 0
}

fn transition(since: i64, offset: i32, rule_applies: bool) -> Transition
    ensures { result ≡ record { since = since; offset = offset; rule_applies = rule_applies } }
{
    Transition {
        since,
        offset: UtcOffset::from_seconds(offset),
        rule_applies,
    }
}

/// The same transition. Where a choice is made between two, a copy would take the unused bytes too.
fn made_anew(entry: &Transition) -> Transition
    ensures { result ≡ entry.now }
{
    Transition {
        since: entry.since,
        offset: entry.offset,
        rule_applies: entry.rule_applies,
    }
}

/// The offset before the first of two transitions of a year, and both in their order.
fn in_order(
    start_is_first: bool,
    start: Transition,
    end: Transition,
) -> (Offset, Transition, Transition)
    ensures before { result.0 ≡ offset_of (if start_is_first then end else start) }
    ensures first { result.1 ≡ (if start_is_first then start else end) }
    ensures second { result.2 ≡ (if start_is_first then end else start) }
{
    let (offset, rule_applies) = if start_is_first {
        (end.offset, end.rule_applies)
    } else {
        (start.offset, start.rule_applies)
    };
    let before = Offset {
        offset,
        rule_applies,
    };
    if start_is_first {
        (before, made_anew(&start), made_anew(&end))
    } else {
        (before, made_anew(&end), made_anew(&start))
    }
}

impl KindDate {
    /// A date of these places.
    pub fn new(places: [i16; 14], seconds: u32, mode: TimeMode) -> KindDate
        ensures { result ≡ record { places = places; seconds = seconds; mode = mode } }
    {
        KindDate {
            places,
            seconds,
            mode,
        }
    }

    /// Whether the places of the date in years of all kinds lie from one place to another. A loop
    /// that goes to all of them is faster than one that ends at the first that does not.
    fn lies_within(&self, from: i16, to: i16) -> bool
        ensures { IsTrue result → LieWithin self.now.places from to }
    {
        let mut within = true;
        for kind in 0..14 {
            let place = self.places[kind];
            within &= (from <= place) & (place <= to);
        }
        within
    }

    /// The second of the date in a year of that first day and kind.
    fn second(&self, before: i32, raw: i32, start: i64, kind: u8) -> i64
        requires kind { kind < 14 }
        requires start { IsInReach start }
        ensures { result ≡ kind_second self.now before raw start kind }
    {
        let taken = self.mode.taken_off(before, raw);
        second_in(start, self.places[kind as usize], self.seconds, taken)
    }
}

/// Whether the places of one date lie in the first half of a year and those of another in the other
/// half, some days from its ends.
fn lie_in_halves(first: &KindDate, second: &KindDate) -> bool
    ensures { IsTrue result
        → LieWithin first.now.places (pos 2) (pos 180)
        × LieWithin second.now.places (pos 185) (pos 362) }
{
    first.lies_within(2, 180) && second.lies_within(185, 362)
}

impl YearRule {
    ghost use Rattle.timeline.specs.Inside.KeptView.{IsKept};

    /// A rule of these parts.
    pub fn new(
        start: KindDate,
        end: KindDate,
        extra: i32,
        raw: i32,
        start_is_first: bool,
        first_year: i32,
    ) -> YearRule
        requires { IsKept (record {
          start = start;
          end = end;
          extra = extra;
          raw = raw;
          start_is_first = start_is_first;
          first_year = first_year;
        }) }
        ensures { result ≡ record {
          start = start;
          end = end;
          extra = extra;
          raw = raw;
          start_is_first = start_is_first;
          first_year = first_year;
        } }
    {
        YearRule {
            start,
            end,
            extra,
            raw,
            start_is_first,
            first_year,
        }
    }

    /// The standard offset of the zone, and the offset that its start brings. From its first year on
    /// the rule has years of all kinds.
    pub fn offsets(&self) -> (i32, i32)
        ensures raw { result.0 ≡ self.now.raw }
        ensures sum { result.1 ≡ self.now.raw +ℤ self.now.extra }
        ensures years { self.now.first_year ≤ℤ greatest_28 }
    {
        (self.raw, self.raw + self.extra)
    }

    /// The first year of the rule, from -134,217,728 to 134,217,727.
    pub fn first_year(&self) -> i32
        ensures value { result ≡ self.now.first_year }
        ensures range { IsFirstYear result }
    {
        self.first_year
    }

    /// The start in a year of that first day and kind.
    fn start_in(&self, day: i64, kind: u8) -> Transition
        requires kind { kind < 14 }
        requires day { IsInReach day }
        ensures { result ≡ kept_start self.now day kind }
    {
        let (raw, sum) = self.offsets();
        transition(
            self.start.second(raw, raw, day, kind),
            sum,
            is_some(self.extra),
        )
    }

    /// The end in a year of that first day and kind.
    fn end_in(&self, day: i64, kind: u8) -> Transition
        requires kind { kind < 14 }
        requires day { IsInReach day }
        ensures { result ≡ kept_end self.now day kind }
    {
        let (raw, sum) = self.offsets();
        transition(self.end.second(sum, raw, day, kind), raw, false)
    }

    /// The offset before a year's first transition, and the year's two transitions. Takes one step.
    #[inline(always)]
    pub fn year_at<L: Ledger>(
        &self,
        year: i32,
        steps: &mut Steps<L>,
    ) -> (Offset, Transition, Transition)
        requires { year <ℤ end_year }
        ensures year { OfItsRule self.now (λ r. TellsYear r year result) }
        ensures ticks { steps.new ≡ steps.old + 1 }
    {
        steps.tick();
        self.year_of(days_before_year(year), year_kind(year))
    }

    /// The same of the year that begins on a day and is of a kind.
    #[inline(always)]
    fn year_of(&self, day: i64, kind: u8) -> (Offset, Transition, Transition)
        requires kind { kind < 14 }
        requires day { IsInReach day }
        ensures { (y : ℤ) → BeginsYear y day kind
            → OfItsRule self.now (λ r. TellsYear r y result) }
    {
        rules_go_by_kind();
        in_order(
            self.start_is_first,
            self.start_in(day, kind),
            self.end_in(day, kind),
        )
    }

    /// Whether a year's first date lies in the first half of the year and its second one in the other
    /// half, in years of all kinds and some days from their ends. Then the transitions of each year
    /// lie apart, since the offsets are less than a day; those of other rules may do so too.
    pub(crate) fn places_lie_apart(&self) -> bool
        requires raw { IsSmall self.now.raw }
        requires sum { IsSmall (self.now.raw +ℤ self.now.extra) }
        ensures { IsTrue result → OfItsRule self.now YearsLieApart }
    {
        counts_years();
        kinds_of_year();
        rules_go_by_kind();
        if self.start_is_first {
            lie_in_halves(&self.start, &self.end)
        } else {
            lie_in_halves(&self.end, &self.start)
        }
    }
}
