//! A zone's data in time.
ghost use Rattle.std.specs.Prelude.{◌≡◌, IsTrue, ◌+ℤ◌};
ghost use Rattle.timeline.specs.Zone.{fits_i32};
ghost use Rattle.timeline.specs.Table.{pair_offset};

use crate::check::least_fault;
use crate::dates::ZoneRule;
use crate::fault::ZoneFault;
use crate::offset::{Offset, PossibleOffset, Transition, UtcOffset};
use crate::seconds::Seconds;
use crate::{equal, lookups, transitions};
use sqlite_items::Items;
use std::marker::Model;
use std::sync::ledger::Ledger;
use steps::Steps;

mod sizes;

/// A zone's data: the seconds of its table, the yearly rule, the pairs of standard offset and extra, the number of the pair
/// that each second brings, and the links. The first pair holds before all seconds.
#[derive(Drop)]
pub struct ZoneData {
    seconds: Seconds,
    rule: Option<ZoneRule>,
    type_offsets: Vec<(i32, i32)>,
    type_map: Items<u8>,
    links: Items<u32>,
}

impl Model for ZoneData {
    ghost use Rattle.timeline.specs.Zone.{PlainZone};

    ghost Value = { PlainZone };

    ghost use Rattle.timeline.specs.Inside.DataView.{data_view, HasEntries};

    ghost view = { data_view };

    ghost invariant = { HasEntries };
}

/// The offset of a pair, standard offset and extra.
fn offset_of_pair(pair: (i32, i32)) -> Offset
    requires { IsTrue (fits_i32 (pair.0 +ℤ pair.1)) }
    ensures { result ≡ pair_offset pair }
{
    let (standard, extra) = pair;
    Offset {
        offset: UtcOffset::from_seconds(standard + extra),
        rule_applies: extra > 0,
    }
}

impl ZoneData {
    ghost use Rattle.std.specs.Prelude.{◌≡◌, ◌+◌, ◌<◌, length, slice_get, option_map, Some};
    ghost use Rattle.timeline.specs.declared.offset.Transition.{Transition as Entry};
    ghost use Rattle.timeline.specs.Timeline.{offset_of};
    ghost use Rattle.timeline.specs.Table.{AreEntries, zone_from};

    /// The zone of these parts: each second has the number of a pair, and the first pair holds before them.
    pub fn new(
        seconds: Seconds,
        rule: Option<ZoneRule>,
        type_offsets: Vec<(i32, i32)>,
        type_map: Items<u8>,
        links: Items<u32>,
    ) -> ZoneData
        requires { AreEntries type_offsets.items seconds.list type_map }
        ensures { result ≡ zone_from seconds rule type_offsets.items type_map links }
    {
        ZoneData {
            seconds,
            rule,
            type_offsets,
            type_map,
            links,
        }
    }

    /// What holds before all transitions.
    pub fn initial(&self) -> Offset
        ensures { result ≡ self.now.initial }
    {
        offset_of_pair(self.type_offsets[0])
    }

    /// How many transitions the table has.
    pub fn len(&self) -> usize
        ensures { result ≡ length self.now.table }
    {
        self.seconds.len()
    }

    /// How many of them are in the first part of the table.
    pub fn early(&self) -> usize
        ensures { result ≡ self.now.early }
    {
        self.seconds.early()
    }

    /// How many of them are in the third part of the table.
    pub fn late(&self) -> usize
        ensures { result ≡ self.now.late }
    {
        self.seconds.late()
    }

    /// The yearly rule.
    pub fn rule(&self) -> Option<&ZoneRule>
        ensures { option_map (λ r. r.now) result ≡ self.now.rule }
    {
        self.rule.as_ref()
    }

    /// The pairs of standard offset and extra, as they were read.
    pub fn type_offsets(&self) -> &[(i32, i32)]
        ensures { result.now ≡ self.now.type_offsets }
    {
        self.type_offsets.as_slice()
    }

    /// The number of the pair that each transition of the table brings, as they were read.
    pub fn type_map(&self) -> &[u8]
        ensures { result.now ≡ self.now.type_map }
    {
        self.type_map.as_slice()
    }

    /// The links, as they were read.
    pub fn links(&self) -> &[u32]
        ensures { result.now ≡ self.now.links }
    {
        self.links.as_slice()
    }

    /// The second of the nth transition of the table, counted from 0. Takes one step.
    pub fn second_at<L: Ledger>(&self, n: usize, steps: &mut Steps<L>) -> i64
        requires { n < length self.now.table }
        ensures value { option_map (λ (e : Entry). e.since) (slice_get self.now.table n)
            ≡ Some result }
        ensures ticks { steps.new ≡ steps.old + 1 }
    {
        self.seconds.second_at(n, steps)
    }

    /// What the nth transition of the table brings.
    pub fn offset_at(&self, n: usize) -> Offset
        requires { n < length self.now.table }
        ensures { option_map offset_of (slice_get self.now.table n) ≡ Some result }
    {
        let number = self.type_map.as_slice()[n];
        offset_of_pair(self.type_offsets[number as usize])
    }

    /// The nth transition of the table. Takes one step.
    pub fn table_entry<L: Ledger>(&self, n: usize, steps: &mut Steps<L>) -> Transition
        requires { n < length self.now.table }
        ensures value { slice_get self.now.table n ≡ Some result }
        ensures ticks { steps.new ≡ steps.old + 1 }
    {
        let since = self.second_at(n, steps);
        let offset = self.offset_at(n);
        Transition {
            since,
            offset: offset.offset,
            rule_applies: offset.rule_applies,
        }
    }
}

impl ZoneData {
    ghost use Rattle.std.specs.Prelude.{◌≡◌, ◌+◌, ◌-◌, ◌*◌, ◌^◌, ◌≤◌, ◌↔◌, ◌-ℤ◌, length, IsOk, IfErr};
    ghost use Rattle.civil.specs.Calendar.{day_of, wall_second};
    ghost use Rattle.timeline.specs.Laws.{IsLawful};
    ghost use Rattle.timeline.specs.TableLaws.{KeepsOrder};
    ghost use Rattle.timeline.specs.Fault.{IsLeastBroken};
    ghost use Rattle.timeline.specs.Timeline.{offset_at, table_place};
    ghost use Rattle.timeline.specs.Placement.{IsPlaced};
    ghost use Rattle.timeline.specs.Equal.{same_zone};
    ghost use Rattle.timeline.specs.Transitions.{AnswersNext, AnswersPrev};
    ghost use Rattle.timeline.specs.Lookups.{AnswersWall, IsDateTime, placing};

    /// How many transitions of the table are not after a second, where the table rises. It halves the table, and takes a
    /// step for each second of it that it looks at.
    pub fn table_place<L: Ledger>(&self, second: i64, steps: &mut Steps<L>) -> usize
        ensures place { KeepsOrder self.now → result ≡ table_place self.now second }
        ensures ticks { 2 ^ (steps.new - steps.old) ≤ 2 * length self.now.table + 1 }
    {
        lookups::table_place(self, second, steps)
    }

    /// The offset in force at a second counted from 1970-01-01 00:00:00 UTC, which may be any `i64`.
    ///
    /// In a zone that is not lawful it is some offset, and nothing is promised.
    pub fn for_timestamp(&self, seconds_since_epoch: i64) -> Offset
        ensures { IsLawful self.now → result ≡ offset_at self.now seconds_since_epoch }
    {
        lookups::offset_at(self, seconds_since_epoch)
    }

    /// The offsets of a wall second, which may be any `i64`: seconds from 1970-01-01 00:00:00 as clocks in the zone show
    /// them.
    ///
    /// In a zone that is not lawful it is some answer, and nothing is promised.
    pub fn offsets_of_wall(&self, wall: i64) -> PossibleOffset
        ensures answers { IsLawful self.now → AnswersWall self.now wall result }
        ensures placed { IsLawful self.now
            → IsPlaced self.now wall (wall -ℤ (placing result).offset) }
    {
        lookups::offsets_of_wall(self, wall)
    }

    /// The offsets of a wall time of the proleptic Gregorian calendar, which has a year 0; months and days count from 1.
    ///
    /// In a zone that is not lawful it is some answer, and nothing is promised.
    pub fn for_date_time(
        &self,
        year: i32,
        month: u8,
        day: u8,
        hour: u8,
        minute: u8,
        second: u8,
    ) -> PossibleOffset
        requires { IsDateTime year month day hour minute second }
        ensures answers { IsLawful self.now
            → AnswersWall self.now
            (wall_second (day_of year month day) hour minute second) result }
        ensures placed { IsLawful self.now
            → IsPlaced self.now (wall_second (day_of year month day) hour minute second)
            (wall_second (day_of year month day) hour minute second -ℤ (placing result).offset) }
    {
        self.offsets_of_wall(lookups::wall_second(year, month, day, hour, minute, second))
    }

    /// The earliest transition after a second, of those of the table and of the rule's years; where a change is required,
    /// the earliest whose offset is another one than that before it. The initial offset is the one before the first.
    ///
    /// `None` comes exactly where there is no such transition, in a lawful zone. In a zone that is not lawful it is some
    /// answer, and nothing is promised.
    pub fn next_transition(
        &self,
        seconds_since_epoch: i64,
        require_offset_change: bool,
    ) -> Option<Transition>
        ensures { IsLawful self.now
            → AnswersNext self.now seconds_since_epoch require_offset_change result }
    {
        transitions::next_transition(self, seconds_since_epoch, require_offset_change)
    }

    /// The latest transition before a second, or not after it where the second is not taken exactly, of those of the table
    /// and of the rule's years; where a change is required, the latest of these whose offset is another one than that
    /// before it. The initial offset is the one before the first.
    ///
    /// `None` comes exactly where there is no such transition, in a lawful zone. In a zone that is not lawful it is some
    /// answer, and nothing is promised.
    pub fn prev_transition(
        &self,
        seconds_since_epoch: i64,
        seconds_exact: bool,
        require_offset_change: bool,
    ) -> Option<Transition>
        ensures { IsLawful self.now
            → AnswersPrev self.now seconds_since_epoch seconds_exact require_offset_change result }
    {
        transitions::prev_transition(
            self,
            seconds_since_epoch,
            seconds_exact,
            require_offset_change,
        )
    }

    /// Whether two zones have the same pairs of offsets, seconds of the table in the same parts, numbers of pairs, links and
    /// rule.
    pub fn is_same(&self, other: &ZoneData) -> bool
        ensures { result ≡ same_zone self.now other.now }
    {
        equal::is_same(self, other)
    }

    /// Whether the zone is lawful: whether it keeps the eight laws in every year of its rule. Else the least law that it
    /// breaks.
    ///
    /// All years of a kind keep the same laws, so it learns one year of each of the 14 kinds at most, a step for each, and goes
    /// through the table once, by a step for each entry.
    pub fn check<L: Ledger>(&self, steps: &mut Steps<L>) -> Result<(), ZoneFault>
        ensures lawful { IsOk result ↔ IsLawful self.now }
        ensures err { IfErr result (IsLeastBroken self.now) }
        ensures ticks { steps.new ≤ steps.old + (2000 + length self.now.table) }
    {
        least_fault(self, steps)
    }
}
