//! Whether a zone keeps the eight laws.
ghost use Rattle.std.specs.Prelude.{◌≡◌, ℕ, ◌+◌, ◌-◌, ◌≤◌, ◌<◌, ◌↔◌, IsTrue, IfSome, Some, slice_get, nat_le, length, ◌+ℤ◌, ◌<ℤ◌, ◌≤ℤ◌};
ghost use Rattle.civil.specs.Calendar.{example_year};
ghost use Rattle.timeline.specs.Timeline.{offset_of};
ghost use Rattle.timeline.specs.Inside.KeptRules.{OfItsRule};
ghost use Rattle.timeline.specs.TableLaws.{IsSmall};
ghost use Rattle.timeline.specs.Neighbours.{step};
ghost use Rattle.timeline.specs.declared.offset.Transition.{Transition as Entry};
ghost use Rattle.timeline.specs.Fault.{Keeps};
ghost use Rattle.timeline.specs.Inside.LeastFaults.{TellsLeast};
ghost use Rattle.timeline.specs.Inside.EntryWalls.{walls, AreNear, AreWalled, EndBefore, BeginFrom, LieIn};
ghost use Rattle.timeline.specs.Inside.EntryLaws.{InPart, EntryKeeps};
ghost use Rattle.timeline.specs.Inside.TableChecks.{IsSecondAt, IsSecondBefore, IsPassed, KeepsAt, TableKeeps, table_before, table_walls, walls_before};
ghost use Rattle.timeline.specs.Inside.RuleChecks.{PairKeeps, YearKeeps, YearsKeep, RuleKeeps, SizeKept};
ghost use Rattle.timeline.specs.Inside.Apart.{IsEnd};

use crate::data::ZoneData;
use crate::dates::ZoneRule;
use crate::fault::{ZoneFault, least_of};
use crate::offset::{Offset, Transition};
use crate::rule::YearRule;
use civil::laws::{counts_years, example_years, kinds_of_year};
use std::sync::ledger::Ledger;
use steps::Steps;
use years::{example_year, first_second, seconds_of_kind};

mod apart;
mod years;

/// A transition's second, and the earlier and the later of its walls: its second plus the offset before it, and its
/// second plus its own. In 128 bits no wall wraps.
#[derive(Clone, Copy)]
pub struct Walls {
    since: i64,
    earliest: i128,
    latest: i128,
}

fn walls_of(since: i64, before: i32, after: i32) -> Walls
    ensures { result ≡ walls (record { since = since; before = before; after = after }) }
{
    let second = since as i128;
    Walls {
        since,
        earliest: second + before.min(after) as i128,
        latest: second + before.max(after) as i128,
    }
}

/// The walls of a transition with the offset before it.
fn step_walls(before: &Offset, entry: &Transition) -> Walls
    ensures { result ≡ walls (step before.now entry.now) }
{
    walls_of(entry.since, before.offset.seconds(), entry.offset.seconds())
}

fn are_between(first: i64, latest: i128, earliest: i128, second: i64) -> bool
    ensures { IsTrue result ↔ ((latest ≤ℤ second) × (first ≤ℤ earliest)) }
{
    latest <= second as i128 && first as i128 <= earliest
}

fn are_near(first: Walls, second: Walls) -> bool
    ensures { IsTrue result ↔ AreNear first second }
{
    are_between(first.since, first.latest, second.earliest, second.since)
}

fn are_walled(first: Walls, second: Walls) -> bool
    ensures { IsTrue result ↔ AreWalled first second }
{
    first.latest <= second.earliest
}

fn end_before(limit: i64, walls: Walls) -> bool
    ensures { IsTrue result ↔ EndBefore limit walls }
{
    walls.since < limit && walls.latest <= limit as i128
}

fn begin_from(low: i64, walls: Walls) -> bool
    ensures { IsTrue result ↔ BeginFrom low walls }
{
    low <= walls.since && low as i128 <= walls.earliest
}

fn lie_in(low: i64, high: i64, walls: Walls) -> bool
    ensures { IsTrue result ↔ LieIn low high walls }
{
    begin_from(low, walls) && end_before(high, walls)
}

fn both_lie_in(low: i64, high: i64, first: Walls, second: Walls) -> bool
    ensures { IsTrue result ↔ (LieIn low high first × LieIn low high second) }
{
    lie_in(low, high, first) && lie_in(low, high, second)
}

fn is_in_part(early: bool, late: bool, since: i64) -> bool
    ensures { IsTrue result ↔ InPart early late since }
{
    (!early || since < -2_147_483_648) && (!late || since > 2_147_483_647)
}

/// Whether an offset is less than a day to either side.
fn is_small(seconds: i32) -> bool
    ensures { IsTrue result ↔ IsSmall seconds }
{
    -86_400 < seconds && seconds < 86_400
}

fn is_after(previous: Option<Walls>, walls: Walls) -> bool
    ensures { IsTrue result ↔ IfSome previous (λ p. p.since <ℤ walls.since) }
{
    match previous {
        Some(previous) => previous.since < walls.since,
        None => true,
    }
}

fn is_near(previous: Option<Walls>, walls: Walls) -> bool
    ensures { IsTrue result ↔ IfSome previous (λ p. AreNear p walls) }
{
    match previous {
        Some(previous) => are_near(previous, walls),
        None => true,
    }
}

fn is_walled(previous: Option<Walls>, walls: Walls) -> bool
    ensures { IsTrue result ↔ IfSome previous (λ p. AreWalled p walls) }
{
    match previous {
        Some(previous) => are_walled(previous, walls),
        None => true,
    }
}

fn is_before(limit: Option<i64>, walls: Walls) -> bool
    ensures { IsTrue result ↔ IfSome limit (λ l. EndBefore l walls) }
{
    match limit {
        Some(limit) => end_before(limit, walls),
        None => true,
    }
}

/// The least law that an entry of a table breaks, with the entry before it, and with the second that the table is to end
/// before.
fn entry_fault(
    early: bool,
    late: bool,
    previous: Option<Walls>,
    walls: Walls,
    after: i32,
    limit: Option<i64>,
) -> Result<(), ZoneFault>
    ensures { TellsLeast (EntryKeeps early late previous walls after limit) result }
{
    if !is_in_part(early, late, walls.since) {
        return Err(ZoneFault::Parts);
    }
    if !is_after(previous, walls) {
        return Err(ZoneFault::Order);
    }
    if !is_small(after) {
        return Err(ZoneFault::Size);
    }
    if !is_near(previous, walls) {
        return Err(ZoneFault::Near);
    }
    if !is_walled(previous, walls) {
        return Err(ZoneFault::Walls);
    }
    if !is_before(limit, walls) {
        return Err(ZoneFault::Seam);
    }
    Ok(())
}

/// Whether the nth entry of a table is one of the last ones.
fn is_late(len: usize, n: usize, late: usize) -> bool
    requires { n < len }
    ensures { result ≡ nat_le len (n + late) }
{
    len - n <= late
}

/// What holds before the nth entry of a table, or after the table.
fn offset_before(zone: &ZoneData, n: usize) -> Offset
    requires { n ≤ length zone.now.table }
    ensures { result ≡ table_before zone.now.initial zone.now.table n }
{
    if n == 0 {
        zone.initial()
    } else {
        zone.offset_at(n - 1)
    }
}

/// The walls of the nth entry of a table, whose second this is.
fn walls_at(zone: &ZoneData, n: usize, second: i64) -> Walls
    requires within { n < length zone.now.table }
    requires second { IsSecondAt zone.now.table n second }
    ensures { (e : Entry) → slice_get zone.now.table n ≡ Some e
        → result ≡ table_walls zone.now.initial zone.now.table n e }
{
    let before = offset_before(zone, n).offset.seconds();
    walls_of(second, before, zone.offset_at(n).offset.seconds())
}

/// The walls of the entry before the nth one, if there is one; its second is the one given.
fn walls_before(zone: &ZoneData, n: usize, previous: i64) -> Option<Walls>
    requires within { n < length zone.now.table }
    requires previous { IsSecondBefore zone.now.table n previous }
    ensures { result ≡ walls_before zone.now.initial zone.now.table n }
{
    if n == 0 {
        None
    } else {
        Some(walls_at(zone, n - 1, previous))
    }
}

/// The least law that the nth entry of a table breaks, with the second that the table is to end
/// before. The second of the entry before it, if there is one, and its own are the ones given.
fn fault_at(
    zone: &ZoneData,
    limit: Option<i64>,
    n: usize,
    previous: i64,
    second: i64,
) -> Result<(), ZoneFault>
    requires within { n < length zone.now.table }
    requires previous { IsSecondBefore zone.now.table n previous }
    requires second { IsSecondAt zone.now.table n second }
    ensures { TellsLeast
        (λ f. KeepsAt zone.now.initial zone.now.table zone.now.early zone.now.late limit f n)
        result }
{
    let early = n < zone.early();
    let late = is_late(zone.len(), n, zone.late());
    let before = walls_before(zone, n, previous);
    let walls = walls_at(zone, n, second);
    let after = zone.offset_at(n).offset.seconds();
    entry_fault(early, late, before, walls, after, limit)
}

/// The least law that the entries up to the nth one break, by that of those before it. Few entries
/// need it, so it stands outside the loops.
#[inline(never)]
fn add_fault(
    zone: &ZoneData,
    limit: Option<i64>,
    n: usize,
    previous: i64,
    second: i64,
    least: Result<(), ZoneFault>,
) -> Result<(), ZoneFault>
    requires within { n < length zone.now.table }
    requires previous { IsSecondBefore zone.now.table n previous }
    requires second { IsSecondAt zone.now.table n second }
    ensures { TellsLeast
        (λ f. (m : ℕ) → m < n
        → KeepsAt zone.now.initial zone.now.table zone.now.early zone.now.late limit f m)
        least
        → TellsLeast
        (λ f. (m : ℕ) → m < n + 1
        → KeepsAt zone.now.initial zone.now.table zone.now.early zone.now.late limit f m)
        result }
{
    least_of(least, fault_at(zone, limit, n, previous, second))
}

/// What was found of the first entries of a table: the least law that they break, and the second of
/// the last of them. No entry stands before the first one, so that is taken to lie far behind it.
#[derive(Clone, Copy)]
pub struct Passed {
    least: Result<(), ZoneFault>,
    previous: i64,
}

/// What is found of the entries before the number `to`, by what was found of those before `from`.
/// Takes a step for each entry between.
fn pass_outer<L: Ledger>(
    zone: &ZoneData,
    limit: Option<i64>,
    end: i64,
    from: usize,
    to: usize,
    passed: Passed,
    steps: &mut Steps<L>,
) -> Passed
    requires from { from ≤ to }
    requires to { to ≤ length zone.now.table }
    requires end { IsEnd zone.now limit end }
    requires passed { IsPassed zone.now limit from passed }
    ensures passed { IsPassed zone.now limit to result }
    ensures ticks { steps.new ≡ steps.old + (to - from) }
{
    let mut least = passed.least;
    let mut previous = passed.previous;
    for n in from..to {
        let second = zone.second_at(n, steps);
        if !apart::shows_laws(zone, n, previous, second, end) {
            least = add_fault(zone, limit, n, previous, second, least);
        }
        previous = second;
    }
    Passed { least, previous }
}

/// The same, where the entries between are neither among the first ones of the table nor among the
/// last ones, as nearly all are. So no test of their part is made.
fn pass_middle<L: Ledger>(
    zone: &ZoneData,
    limit: Option<i64>,
    end: i64,
    from: usize,
    to: usize,
    passed: Passed,
    steps: &mut Steps<L>,
) -> Passed
    requires from { from ≤ to }
    requires to { to ≤ length zone.now.table }
    requires middle { (n : ℕ) → from ≤ n → n < to
        → (zone.now.early ≤ n) × (n + zone.now.late < length zone.now.table) }
    requires end { IsEnd zone.now limit end }
    requires passed { IsPassed zone.now limit from passed }
    ensures passed { IsPassed zone.now limit to result }
    ensures ticks { steps.new ≡ steps.old + (to - from) }
{
    let mut least = passed.least;
    let mut previous = passed.previous;
    for n in from..to {
        let second = zone.second_at(n, steps);
        if !apart::lie_days_apart(previous, second, end) {
            least = add_fault(zone, limit, n, previous, second, least);
        }
        previous = second;
    }
    Passed { least, previous }
}

/// The least law that a table breaks, with the second that it is to end before. Takes a step for each entry.
fn table_fault<L: Ledger>(
    zone: &ZoneData,
    limit: Option<i64>,
    steps: &mut Steps<L>,
) -> Result<(), ZoneFault>
    ensures value { TellsLeast
        (TableKeeps zone.now.initial zone.now.table zone.now.early zone.now.late limit) result }
    ensures ticks { steps.new ≡ steps.old + length zone.now.table }
{
    let len = zone.len();
    let low = zone.early().min(len);
    let high = len.saturating_sub(zone.late()).max(low);
    let end = apart::shown_end(zone, limit);
    let start = Passed {
        least: Ok(()),
        previous: i64::MIN,
    };
    let first = pass_outer(zone, limit, end, 0, low, start, steps);
    let middle = pass_middle(zone, limit, end, low, high, first, steps);
    pass_outer(zone, limit, end, high, len, middle, steps).least
}

/// The least law that the two transitions of a year break, with the year's first second and that of the next year.
fn pair_fault(first: Walls, second: Walls, low: i64, high: i64) -> Result<(), ZoneFault>
    ensures { TellsLeast (PairKeeps first second low high) result }
{
    if !are_near(first, second) {
        return Err(ZoneFault::Near);
    }
    if !are_walled(first, second) {
        return Err(ZoneFault::Walls);
    }
    if !both_lie_in(low, high, first, second) {
        return Err(ZoneFault::Year);
    }
    Ok(())
}

/// The least law that the year of a kind from 2000 to 2024 breaks by a rule. Takes one step.
fn year_fault<L: Ledger>(rule: &YearRule, kind: u8, steps: &mut Steps<L>) -> Result<(), ZoneFault>
    requires kind { kind < 14 }
    ensures value { OfItsRule rule.now (λ r. TellsLeast (YearKeeps r (example_year kind)) result) }
    ensures ticks { steps.new ≡ steps.old + 1 }
{
    counts_years();
    example_years();
    let year = example_year(kind);
    let (before, first, second) = rule.year_at(year, steps);
    let low = first_second(year);
    let high = low + seconds_of_kind(kind);
    let between = offset_from(&first);
    pair_fault(
        step_walls(&before, &first),
        step_walls(&between, &second),
        low,
        high,
    )
}

fn offset_from(entry: &Transition) -> Offset
    ensures { result ≡ offset_of entry.now }
{
    Offset {
        offset: entry.offset,
        rule_applies: entry.rule_applies,
    }
}

/// The least law that a year of a rule breaks. The places of nearly all rules show that there is none.
/// Else it looks at one year of each kind, since all years of a kind break the same ones. Takes 14
/// steps at most.
fn years_fault<L: Ledger>(rule: &YearRule, steps: &mut Steps<L>) -> Result<(), ZoneFault>
    ensures value { OfItsRule rule.now (λ r. TellsLeast (YearsKeep r) result) }
    ensures ticks { steps.new ≤ steps.old + 14 }
{
    counts_years();
    kinds_of_year();
    example_years();
    let (raw, sum) = rule.offsets();
    if are_small(raw, sum) && rule.places_lie_apart() {
        return Ok(());
    }
    let mut least = Ok(());
    for kind in 0..14 {
        let fault = year_fault(rule, kind, steps);
        least = least_of(least, fault);
    }
    least
}

fn same_offset(first: Offset, second: Offset) -> bool
    ensures { IsTrue result ↔ (first ≡ second) }
{
    first == second
}

fn are_small(first: i32, second: i32) -> bool
    ensures { IsTrue result ↔ (IsSmall first × IsSmall second) }
{
    is_small(first) && is_small(second)
}

/// The least law that a rule breaks by its offsets, with what holds after the table. Takes a step at most.
fn rule_fault<L: Ledger>(
    rule: &YearRule,
    last: Offset,
    steps: &mut Steps<L>,
) -> Result<(), ZoneFault>
    ensures value { OfItsRule rule.now (λ r. TellsLeast (RuleKeeps r last) result) }
    ensures ticks { steps.new ≤ steps.old + 1 }
{
    let (raw, sum) = rule.offsets();
    if !are_small(raw, sum) {
        return Err(ZoneFault::Size);
    }
    // Any year will do: what holds before the first transition is the same in all.
    let (before, _, _) = rule.year_at(example_year(0), steps);
    if !same_offset(last, before) {
        return Err(ZoneFault::Before);
    }
    Ok(())
}

fn initial_fault(initial: Offset) -> Result<(), ZoneFault>
    ensures { TellsLeast (SizeKept initial) result }
{
    if is_small(initial.offset.seconds()) {
        Ok(())
    } else {
        Err(ZoneFault::Size)
    }
}

/// The least law that a zone breaks. Takes a step for each entry of the table, and 15 more at most.
pub fn least_fault<L: Ledger>(zone: &ZoneData, steps: &mut Steps<L>) -> Result<(), ZoneFault>
    ensures value { TellsLeast (Keeps zone.now) result }
    ensures ticks { steps.new ≤ steps.old + (15 + length zone.now.table) }
{
    let least = initial_fault(zone.initial());
    match zone.rule() {
        None => least_of(least, table_fault(zone, None, steps)),
        Some(rule) => {
            let years = rule.years();
            let limit = first_second(years.first_year());
            let least = least_of(least, table_fault(zone, Some(limit), steps));
            let last = offset_before(zone, zone.len());
            let least = least_of(least, rule_fault(years, last, steps));
            least_of(least, years_fault(years, steps))
        }
    }
}
