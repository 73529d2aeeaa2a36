//! A bundle of zones, and a zone in it.
ghost use Rattle.std.specs.Prelude.{◌≡◌, IsTrue, is_some, slice_get};
ghost use Rattle.zoneinfo64.specs.NamedZone.{resolved_in};

use crate::region::Region;
use crate::utf16::PotentialUtf16;
use std::cmp::Ordering;
use std::marker::Model;
use std::sync::ledger::Ledger;
use steps::Steps;
use timeline::{Offset, PossibleOffset, Transition, ZoneData, ZoneFault};

/// A zone, or the place of one.
#[derive(Drop)]
pub enum Item {
    Zone(ZoneData),
    Alias(u32),
}

/// A zone with its name and its region.
#[derive(Drop)]
pub struct Named {
    pub name: PotentialUtf16,
    pub region: Region,
    pub item: Item,
}

/// The zones of a bundle, by rising names.
#[derive(Drop)]
pub struct ZoneInfo64 {
    entries: Vec<Named>,
}

impl Model for ZoneInfo64 {
    ghost use Rattle.std.specs.Prelude.{List};
    ghost use Rattle.zoneinfo64.specs.NamedZone.{NamedZone};

    ghost Value = { List NamedZone };

    ghost use Rattle.zoneinfo64.specs.Inside.ZoneList.{zones_of, AreEntries};

    ghost view = { λ a. zones_of a.entries.items };

    ghost invariant = { λ a. AreEntries a.entries.items };
}

/// A zone of a bundle.
#[derive(Clone, Copy)]
pub struct Zone<'a> {
    info: &'a ZoneInfo64,
    place: u16,
    ghost in_place: { IsTrue (is_some (resolved_in info.now (slice_get info.now place))) },
}

impl ZoneInfo64 {
    ghost use Rattle.std.specs.Prelude.{◌<◌, length};
    ghost use Rattle.zoneinfo64.specs.NamedZone.{zone_at};
    ghost use Rattle.zoneinfo64.specs.Inside.ZoneList.{zones_of, AreEntries, seen_data};

    /// The bundle of these entries, whose names rise.
    pub(crate) fn from_entries(entries: Vec<Named>) -> ZoneInfo64
        requires { AreEntries entries.items }
        ensures { result ≡ zones_of entries.items }
    {
        ZoneInfo64 { entries }
    }

    /// How many entries there are, aliases among them.
    pub(crate) fn len(&self) -> usize
        ensures { result ≡ length self.now }
    {
        self.entries.len()
    }

    /// The data of the zone at a place; none where an alias stands there.
    pub(crate) fn data_at(&self, place: usize) -> Option<&ZoneData>
        requires { place < length self.now }
        ensures { zone_at self.now place ≡ seen_data result }
    {
        match &self.entries.as_slice()[place].item {
            Item::Zone(data) => Some(data),
            Item::Alias(_) => None,
        }
    }
}

impl ZoneInfo64 {
    ghost use Rattle.std.specs.Prelude.{IfSome, IfNone, IsSome, None};
    ghost use Rattle.zoneinfo64.specs.NamedZone.{named, entry_named, place_named};
    ghost use Rattle.zoneinfo64.specs.ZoneView.{list_of, place_in, entry_of, plain_zone};

    /// The zone of that name, an IANA identifier. Names are compared character by character, and since they rise they
    /// are searched by halving.
    ///
    /// `None` comes exactly where no zone has the name. Takes no memory.
    pub fn get(&self, iana: &str) -> Option<Zone<'_>>
        ensures none { IfNone result (named self.now iana.now ≡ None) }
        ensures zone { IfSome result
            (λ z. IsSome (plain_zone z) × (plain_zone z ≡ named self.now iana.now)) }
        ensures entry { IfSome result (λ z. entry_of z ≡ entry_named self.now iana.now) }
        ensures list { IfSome result (λ z. list_of z ≡ self.now) }
        ensures place { IfSome result (λ z. place_named self.now iana.now ≡ Some (place_in z)) }
    {
        self.get_near(iana, self.entries.len())
    }

    /// The same, where the name is looked for first at a place. Which place this is changes the time that it takes, and
    /// nothing else.
    pub(crate) fn get_near(&self, iana: &str, near: usize) -> Option<Zone<'_>>
        ensures none { IfNone result (named self.now iana.now ≡ None) }
        ensures zone { IfSome result
            (λ z. IsSome (plain_zone z) × (plain_zone z ≡ named self.now iana.now)) }
        ensures entry { IfSome result (λ z. entry_of z ≡ entry_named self.now iana.now) }
        ensures list { IfSome result (λ z. list_of z ≡ self.now) }
        ensures place { IfSome result (λ z. place_named self.now iana.now ≡ Some (place_in z)) }
    {
        match place_of(self.entries.as_slice(), iana, near) {
            Some(place) => Some(Zone {
                info: self,
                place: place as u16,
            }),
            None => None,
        }
    }
}

ghost use Rattle.std.specs.Prelude.{position};
ghost use Rattle.std.specs.Str.{bytes_eq};
ghost use Rattle.zoneinfo64.specs.NamedZone.{name_text};
ghost use Rattle.zoneinfo64.specs.Inside.ZoneList.{AreEntries};
ghost use Rattle.zoneinfo64.specs.declared.zone.Named.{Named};

/// The place of the entry of that name. The first that is looked at is the one at `near`, where there is one, by one test of
/// equality.
fn place_of(entries: &[Named], iana: &str, near: usize) -> Option<usize>
    requires { AreEntries entries.now }
    ensures { result
        ≡ position (λ (e : Named). bytes_eq (name_text e.name) iana.now) entries.now }
{
    if near < entries.len() && entries[near].name.text() == iana {
        return Some(near);
    }
    place_by_halves(entries, iana)
}

/// The same, by looks in the middle of what is left.
fn place_by_halves(entries: &[Named], iana: &str) -> Option<usize>
    requires { AreEntries entries.now }
    ensures { result
        ≡ position (λ (e : Named). bytes_eq (name_text e.name) iana.now) entries.now }
{
    let mut low = 0;
    let mut high = entries.len();
    while low < high {
        let middle = low + (high - low) / 2;
        match entries[middle].name.text().cmp(iana) {
            Ordering::Less => low = middle + 1,
            Ordering::Equal => return Some(middle),
            Ordering::Greater => high = middle,
        }
    }
    None
}

impl<'a> Zone<'a> {
    ghost use Rattle.std.specs.Prelude.{◌-ℤ◌, IfSome};
    ghost use Rattle.civil.specs.Calendar.{day_of, wall_second};
    ghost use Rattle.timeline.specs.Laws.{IsLawful};
    ghost use Rattle.timeline.specs.Timeline.{offset_at};
    ghost use Rattle.timeline.specs.Placement.{IsPlaced};
    ghost use Rattle.timeline.specs.Lookups.{AnswersWall, IsDateTime, placing};
    ghost use Rattle.zoneinfo64.specs.ZoneView.{entry_of, plain_zone};

    /// Its name, an alias's own.
    pub fn name(&self) -> &'a PotentialUtf16
        ensures { IfSome (entry_of self.now) (λ e. result.now ≡ e.name) }
    {
        &named_at(self.info, self.place).name
    }

    /// Its region, an alias's own.
    pub fn region(&self) -> Region
        ensures { IfSome (entry_of self.now) (λ e. result ≡ e.region) }
    {
        named_at(self.info, self.place).region
    }

    /// The offset in force at a second counted from 1970-01-01 00:00:00 UTC, which may be any `i64`: in seconds east of
    /// UTC, and whether it is one of daylight time. It is that of the last transition that is not after the second, in the
    /// table or by the yearly rule; before them all it is the zone's initial one.
    ///
    /// In a zone that is not lawful it is some offset, and nothing is promised. Takes no memory.
    pub fn for_timestamp(&self, seconds_since_epoch: i64) -> Offset
        ensures { IfSome (plain_zone self.now)
            (λ z. IsLawful z → result ≡ offset_at z seconds_since_epoch) }
    {
        data_of(self.info, self.place).for_timestamp(seconds_since_epoch)
    }

    /// The offsets of a wall second: seconds from 1970-01-01 00:00:00 as clocks in the zone show them. It may be any `i64`.
    ///
    /// `Single` where one second shows it, with the offset there; `Ambiguous` where two show it, before and from a
    /// transition on; `None` where none does, since clocks are put forward over it. In a zone that is not lawful it is one
    /// of these, and nothing is promised. Takes no memory.
    pub fn offsets_of_wall(&self, wall: i64) -> PossibleOffset
        ensures answers { IfSome (plain_zone self.now)
            (λ z. IsLawful z → AnswersWall z wall result) }
        ensures placed { IfSome (plain_zone self.now)
            (λ z. IsLawful z → IsPlaced z wall (wall -ℤ (placing result).offset)) }
    {
        data_of(self.info, self.place).offsets_of_wall(wall)
    }

    /// The offsets of a wall time of the proleptic Gregorian calendar, which has a year 0; months and days count from 1.
    ///
    /// `Single` where one second shows it, with the offset there; `Ambiguous` where two show it, before and from a
    /// transition on; `None` where none does, since clocks are put forward over it. In a zone that is not lawful it is one
    /// of these, and nothing is promised. Takes no memory.
    pub fn for_date_time(
        &self,
        year: i32,
        month: u8,
        day: u8,
        hour: u8,
        minute: u8,
        second: u8,
    ) -> PossibleOffset
        requires { IsDateTime year month day hour minute second }
        ensures answers { IfSome (plain_zone self.now) (λ z. IsLawful z
            → AnswersWall z (wall_second (day_of year month day) hour minute second) result) }
        ensures placed { IfSome (plain_zone self.now) (λ z. IsLawful z
            → IsPlaced z (wall_second (day_of year month day) hour minute second)
            (wall_second (day_of year month day) hour minute second -ℤ (placing result).offset)) }
    {
        let data = data_of(self.info, self.place);
        data.for_date_time(year, month, day, hour, minute, second)
    }
}

impl<'a> Zone<'a> {
    ghost use Rattle.std.specs.Prelude.{◌↔◌, ◌+◌, ◌-◌, ◌*◌, ◌^◌, ◌≤◌, length, IsOk, IfErr, IfSome};
    ghost use Rattle.timeline.specs.Laws.{IsLawful};
    ghost use Rattle.timeline.specs.TableLaws.{KeepsOrder};
    ghost use Rattle.timeline.specs.Timeline.{table_place};
    ghost use Rattle.timeline.specs.Fault.{IsLeastBroken};
    ghost use Rattle.zoneinfo64.specs.ZoneView.{plain_zone};

    /// How many transitions of the zone's table are not after a second, where the table rises.
    ///
    /// It halves the table, and takes a step for each second of it that it looks at. Takes no memory.
    pub fn table_place<L: Ledger>(&self, second: i64, steps: &mut Steps<L>) -> usize
        ensures place { IfSome (plain_zone self.now)
            (λ z. KeepsOrder z → result ≡ table_place z second) }
        ensures ticks { IfSome (plain_zone self.now)
            (λ z. 2 ^ (steps.new - steps.old) ≤ 2 * length z.table + 1) }
    {
        data_of(self.info, self.place).table_place(second, steps)
    }

    /// Whether the zone is lawful: whether it keeps the eight laws in every year of its rule. Else the least law that it
    /// breaks.
    ///
    /// All years of a kind keep the same laws, so it learns one year of each of the 14 kinds at most, a step for each, and goes
    /// through the table once, by a step for each entry. Takes no memory.
    pub fn check<L: Ledger>(&self, steps: &mut Steps<L>) -> Result<(), ZoneFault>
        ensures lawful { IfSome (plain_zone self.now) (λ z. IsOk result ↔ IsLawful z) }
        ensures err { IfSome (plain_zone self.now) (λ z. IfErr result (IsLeastBroken z)) }
        ensures ticks { IfSome (plain_zone self.now)
            (λ z. steps.new ≤ steps.old + (2000 + length z.table)) }
    {
        data_of(self.info, self.place).check(steps)
    }
}

impl<'a> Zone<'a> {
    ghost use Rattle.std.specs.Prelude.{IfSome};
    ghost use Rattle.timeline.specs.Laws.{IsLawful};
    ghost use Rattle.timeline.specs.Transitions.{AnswersNext, AnswersPrev};
    ghost use Rattle.zoneinfo64.specs.ZoneView.{plain_zone};

    /// The earliest transition after a second counted from 1970-01-01 00:00:00 UTC, of those of the table and of the rule's
    /// years; where a change is required, the earliest whose offset is another one than that before it. The initial offset
    /// is the one before the first.
    ///
    /// In a lawful zone `None` comes exactly where there is no such transition. In a zone that is not lawful it is some
    /// answer, and nothing is promised. Takes no memory.
    pub fn next_transition(
        &self,
        seconds_since_epoch: i64,
        require_offset_change: bool,
    ) -> Option<Transition>
        ensures { IfSome (plain_zone self.now)
            (λ z. IsLawful z → AnswersNext z seconds_since_epoch require_offset_change result) }
    {
        let data = data_of(self.info, self.place);
        data.next_transition(seconds_since_epoch, require_offset_change)
    }

    /// The latest transition before a second counted from 1970-01-01 00:00:00 UTC, or not after it where the second is not
    /// taken exactly, of those of the table and of the rule's years; where a change is required, the latest of these whose
    /// offset is another one than that before it. The initial offset is the one before the first.
    ///
    /// In a lawful zone `None` comes exactly where there is no such transition. In a zone that is not lawful it is some
    /// answer, and nothing is promised. Takes no memory.
    pub fn prev_transition(
        &self,
        seconds_since_epoch: i64,
        seconds_exact: bool,
        require_offset_change: bool,
    ) -> Option<Transition>
        ensures { IfSome (plain_zone self.now) (λ z. IsLawful z
            → AnswersPrev z seconds_since_epoch seconds_exact require_offset_change result) }
    {
        let data = data_of(self.info, self.place);
        data.prev_transition(seconds_since_epoch, seconds_exact, require_offset_change)
    }
}

/// Two zones are equal where their names, their regions and what was read of them are: type offsets, the seconds of the three
/// lists, type map, links and rule. An alias has its own name and region, and the data of the zone that it stands for.
impl PartialEq for Zone<'_> {
    ghost use Rattle.zoneinfo64.specs.EqualZones.{same_zones};
    ghost use Rattle.zoneinfo64.specs.EqualPer.{zones_per};

    ghost eq = { same_zones };

    ghost laws = { zones_per };

    fn eq(&self, other: &Self) -> bool {
        let (entry, other_entry) = (
            named_at(self.info, self.place),
            named_at(other.info, other.place),
        );
        same_names(entry, other_entry)
            && data_of(self.info, self.place).is_same(data_of(other.info, other.place))
    }
}

ghost use Rattle.std.specs.Prelude.{nat_eq};
ghost use Rattle.std.specs.Cmp.Lexicographic.{pointwise};
ghost use Rattle.zoneinfo64.specs.EqualNames.{same_names};

/// Whether two entries have the same name and region.
fn same_names(a: &Named, b: &Named) -> bool
    ensures { result ≡ same_names (named_of a.now) (named_of b.now) }
{
    a.name.units() == b.name.units() && a.region.raw().as_slice() == b.region.raw().as_slice()
}

ghost use Rattle.std.specs.Prelude.{◌<◌, ◌≤◌, ◌-◌, min};

/// A place, or the last one of so many.
fn place_within(place: u16, len: usize) -> u16
    requires some { 0 < len }
    requires few { len ≤ 65536 }
    ensures { result ≡ min place (len - 1) }
{
    let last = (len - 1) as u16;
    if place < last { place } else { last }
}

impl<'a> Zone<'a> {
    ghost use Rattle.std.specs.Prelude.{◌<◌, ◌-◌, length, min, IsSome};
    ghost use Rattle.zoneinfo64.specs.ZoneView.{list_of, place_in, plain_zone};

    /// Its own place in the bundle, counted from 0, and the bundle. An alias has its own place, not that of the zone that it
    /// stands for.
    pub fn into_raw_parts(self) -> (u16, &'a ZoneInfo64)
        ensures place { result.0 ≡ place_in self.entry }
        ensures bound { result.0 < length (list_of self.entry) }
        ensures list { result.1.now ≡ list_of self.entry }
    {
        (self.place, self.info)
    }

    /// The zone at a place of a bundle, counted from 0; at the last place, where the bundle has none there. An alias is
    /// replaced by the zone that it stands for, but for its name and region.
    pub fn from_raw_parts(parts: (u16, &'a ZoneInfo64)) -> Zone<'a>
        ensures list { list_of result ≡ parts.entry.1.now }
        ensures place { place_in result ≡ min parts.entry.0 (length parts.entry.1.now - 1) }
        ensures same { parts.entry.0 < length parts.entry.1.now → place_in result ≡ parts.entry.0 }
        ensures zone { IsSome (plain_zone result) }
    {
        let (place, info) = parts;
        let place = place_within(place, info.entries.len());
        Zone { info, place }
    }
}

ghost use Rattle.zoneinfo64.specs.Inside.ZoneList.{named_of};
ghost use Rattle.std.specs.Prelude.{Some};

impl Zone<'_> {
    ghost use Rattle.zoneinfo64.specs.NamedZone.{zone_at};
    ghost use Rattle.zoneinfo64.specs.ZoneView.{list_of, plain_zone};

    /// Its own place in the bundle.
    pub(crate) fn own_place(&self) -> usize {
        usize::from(self.place)
    }

    /// The place at which its data stands: its own, or for an alias that of the zone that it stands for.
    pub(crate) fn data_place(&self) -> usize
        ensures { zone_at (list_of self.now) result ≡ plain_zone self.now }
    {
        match &named_at(self.info, self.place).item {
            Item::Zone(_) => self.place as usize,
            Item::Alias(target) => *target as usize,
        }
    }
}

/// The entry at a place.
fn named_at(info: &ZoneInfo64, place: u16) -> &Named
    requires { IsTrue (is_some (resolved_in info.now (slice_get info.now place))) }
    ensures { slice_get info.now place ≡ Some (named_of result.now) }
{
    &info.entries[place as usize]
}

/// The data of the zone at a place, an alias resolved.
fn data_of(info: &ZoneInfo64, place: u16) -> &ZoneData
    requires { IsTrue (is_some (resolved_in info.now (slice_get info.now place))) }
    ensures { resolved_in info.now (slice_get info.now place) ≡ Some result.now }
{
    match &named_at(info, place).item {
        Item::Zone(data) => data,
        Item::Alias(target) => match &info.entries[*target as usize].item {
            Item::Zone(data) => data,
            Item::Alias(_) => unreachable!(),
        },
    }
}
