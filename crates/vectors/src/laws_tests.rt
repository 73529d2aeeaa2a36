//! Zones at the edges of what a bundle can say: which law they break, and what they answer.
ghost use Rattle.std.specs.Prelude.{◌≡◌, ◌<◌};

use crate::bundles::{loaded, zones_in};
use crate::lookups_tests::pacific;
use crate::samples::US;
use crate::trees::{Field, Value, worldwide};
use crate::{changed_zone, three_zones, unlawful_zones};
use std::alloc::Global;
use std::marker::Brand;
use std::sync::ledger::{Blank, Ledger};
use std::test::Fail;
use zoneinfo64::{Offset, PossibleOffset, Steps, UtcOffset, Zone, ZoneFault, ZoneInfo64};

/// From the second Sunday of March to the first Sunday of November, at two o'clock by the wall, with an extra offset.
fn us(extra: i32) -> [i32; 11] {
    let mut rule = US;
    rule[10] = extra;
    rule
}

/// The zones of a bundle that has one, `Test/Zone`, and one rule, `Rule`.
fn one(alloc: Global, fields: &[Field<'_>], rule: &[i32]) -> Result<ZoneInfo64, Fail> {
    let rules = [("Rule", Value::Numbers(rule))];
    loaded(alloc, &[worldwide("Test/Zone", fields)], &rules)
}

/// The same of a zone with a table and no rule.
fn tabled<'a>(
    alloc: Global,
    offsets: &'a [i32],
    seconds: &'a [i32],
    numbers: &'a [u8],
) -> Result<ZoneInfo64, Fail> {
    let fields = [
        ("typeOffsets", Value::Numbers(offsets)),
        ("trans", Value::Numbers(seconds)),
        ("typeMap", Value::Bytes(numbers)),
    ];
    one(alloc, &fields, &US)
}

/// The same of a zone with a table, whose early seconds stand apart, and a rule from 2008 on.
fn both<'a>(
    alloc: Global,
    offsets: &'a [i32],
    (early, seconds, numbers): (&'a [i32], &'a [i32], &'a [u8]),
    raw: i32,
    rule: &[i32],
) -> Result<ZoneInfo64, Fail> {
    let fields = [
        ("typeOffsets", Value::Numbers(offsets)),
        ("transPre32", Value::Numbers(early)),
        ("trans", Value::Numbers(seconds)),
        ("typeMap", Value::Bytes(numbers)),
        ("finalRule", Value::Ascii("Rule")),
        ("finalRaw", Value::Number(raw)),
        ("finalYear", Value::Number(2008)),
    ];
    one(alloc, &fields, rule)
}

/// The same of a zone of one offset and a rule from a year on.
fn ruled(alloc: Global, raw: i32, rule: &[i32], year: i32) -> Result<ZoneInfo64, Fail> {
    let offsets = [raw, 0];
    let fields = [
        ("typeOffsets", Value::Numbers(&offsets)),
        ("finalRule", Value::Ascii("Rule")),
        ("finalRaw", Value::Number(raw)),
        ("finalYear", Value::Number(year)),
    ];
    one(alloc, &fields, rule)
}

fn fault_from<L: Ledger>(zone: &Zone<'_>, blank: Blank) -> Result<(), ZoneFault>
    requires name { blank.name ≡ L.name }
    requires parts { blank.parts ≡ L.parts }
    requires some { 0 < L.parts }
{
    let mut steps = Steps::<L>::new(blank);
    zone.check(&mut steps)
}

/// The number of the least law that a zone breaks, 0 where it is lawful.
pub fn law_of(zone: &Zone<'_>) -> u32 {
    match fault_from::<Brand>(zone, Blank::new(1)) {
        Ok(()) => 0,
        Err(fault) => u32::from(fault.number()),
    }
}

/// The same of the bundle's first zone.
fn law(zones: &ZoneInfo64) -> u32 {
    law_of(&Zone::from_raw_parts((0, zones)))
}

/// What holds at a second.
pub fn offset(seconds: i32, rule_applies: bool) -> Offset {
    Offset {
        offset: UtcOffset::from_seconds(seconds),
        rule_applies,
    }
}

#[test]
fn tells_the_laws_of_the_samples(rt: HostRuntime) -> Result<(), Fail> {
    let alloc = rt.alloc();
    let lawful = zones_in(alloc, &three_zones(alloc)?)?;
    let unlawful = zones_in(alloc, &unlawful_zones(alloc)?)?;
    let rows = [
        (&lawful, "America/Los_Angeles", 0),
        (&lawful, "Test/Plus2", 0),
        (&lawful, "US/Pacific", 0),
        (&unlawful, "Bad/Four", 4),
        (&unlawful, "Bad/Eight", 8),
    ];
    for (info, name, law) in rows {
        assert_eq!(rt; law_of(&info.get(name).ok_or("a zone")?), law, "{name}");
    }
    let rows: [(i32, [u8; 2], u32); 3] = [(2008, [1, 0], 0), (2007, [1, 0], 6), (2008, [0, 1], 7)];
    for (year, map, told) in rows {
        let zones = zones_in(alloc, &changed_zone(alloc, year, &map)?)?;
        assert_eq!(rt; law(&zones), told, "law {told}");
    }
    Ok(())
}

// For each of the laws 1 to 6 what breaks it alone: seconds, each part far from the others, and the numbers of their pairs.
const BREAKING: [(&[i32], &[u8]); 6] = [
    // stands in the table's early part
    (&[], &[0]),
    (&[100_000_000, 100_000_000], &[0, 0]),
    (&[200_000_000, 210_000_000], &[4, 0]),
    (
        &[300_000_000, 310_000_000, 310_003_600, 320_000_000],
        &[1, 1, 1, 0],
    ),
    (&[400_000_000, 400_007_200, 410_000_000], &[2, 3, 0]),
    // the second day of 2008
    (&[1_199_232_000], &[0]),
];

// Words of an early part that break law 1.
const EARLY: [i32; 2] = [-1, i32::MIN];

// No offset, ten hours, one hour, two hours to the west, and a day.
const FIVE: [i32; 10] = [0, 0, 36_000, 0, 3_600, 0, -7_200, 0, 86_400, 0];

/// A zone that breaks the laws whose bits are set, and no other: for each of the laws 1 to 6 a stretch of its table; for law 7
/// a rule from another offset than that of the table's end; and for law 8 a rule whose last day of the year ends with the
/// year's last second.
fn breaking(alloc: Global, laws: u8) -> Result<ZoneInfo64, Fail> {
    let mut seconds = Vec::new(alloc);
    let mut numbers = Vec::new(alloc);
    for (place, (more, pairs)) in BREAKING.iter().enumerate() {
        if laws >> place & 1 != 0 {
            seconds.extend_from_slice(more)?;
            numbers.extend_from_slice(pairs)?;
        }
    }
    let early = if laws & 1 != 0 { 2 } else { 0 };
    let raw = if laws & 64 != 0 { 3_600 } else { 0 };
    let rule = if laws & 128 != 0 {
        [5, 1, 0, 7200, 0, 11, 31, 0, 86_400, 2, 3_600]
    } else {
        us(3_600)
    };
    let table: (&[i32], &[i32], &[u8]) = (&EARLY[..early], &seconds, &numbers);
    both(alloc, &FIVE, table, raw, &rule)
}

#[test]
fn tells_the_least_of_the_broken_laws(rt: HostRuntime) -> Result<(), Fail> {
    let alloc = rt.alloc();
    assert_eq!(rt; law(&breaking(alloc, 0)?), 0);
    for laws in 1..=255_u8 {
        let least = laws.trailing_zeros().wrapping_add(1);
        assert_eq!(rt; law(&breaking(alloc, laws)?), least, "{laws}");
    }
    Ok(())
}

// Seconds of an offset, and the law that it breaks.
const SIZES: [(i32, u32); 4] = [(86_399, 0), (-86_399, 0), (86_400, 3), (-86_400, 3)];

// A standard offset, an extra one, and the law that a rule of them breaks.
const SUMS: [(i32, i32, u32); 8] = [
    (86_399, 0, 0),
    (-86_399, 0, 0),
    (86_400, 0, 3),
    (-86_400, 0, 3),
    (82_799, 3_600, 0),
    (82_800, 3_600, 3),
    (-82_799, -3_600, 0),
    (-82_800, -3_600, 3),
];

#[test]
fn bounds_offsets(rt: HostRuntime) -> Result<(), Fail> {
    let alloc = rt.alloc();
    for (seconds, told) in SIZES {
        let zones = tabled(alloc, &[seconds, 0, 0, 0], &[0], &[1])?;
        assert_eq!(rt; law(&zones), told, "at first {seconds}");
        let zones = tabled(alloc, &[0, 0, seconds, 0], &[0], &[1])?;
        assert_eq!(rt; law(&zones), told, "in the table {seconds}");
    }
    for (raw, extra, told) in SUMS {
        let zones = ruled(alloc, raw, &us(extra), 2008)?;
        assert_eq!(rt; law(&zones), told, "{raw} and {extra}");
    }
    Ok(())
}

/// A zone with one entry at the first second of 64 bits, and one at the last, which brings no offset.
fn end_to_end(alloc: Global, seconds: i32) -> Result<ZoneInfo64, Fail> {
    let offsets = [0, 0, seconds, 0];
    let fields = [
        ("typeOffsets", Value::Numbers(&offsets)),
        ("transPre32", Value::Numbers(&[i32::MIN, 0])),
        ("transPost32", Value::Numbers(&[i32::MAX, -1])),
        ("typeMap", Value::Bytes(&[1, 0])),
    ];
    one(alloc, &fields, &US)
}

#[test]
fn looks_up_at_both_ends_of_64_bits(rt: HostRuntime) -> Result<(), Fail> {
    let alloc = rt.alloc();
    for seconds in [3_600, 86_399, -86_399] {
        let zones = end_to_end(alloc, seconds)?;
        assert_eq!(rt; law(&zones), 0, "{seconds}");
        let zone = zones.get("Test/Zone").ok_or("the zone is found")?;
        let told = offset(seconds, false);
        for second in [i64::MIN, -1, i64::MAX - 1] {
            assert_eq!(rt; zone.for_timestamp(second), told, "{second}");
        }
        assert_eq!(rt; zone.for_timestamp(i64::MAX), offset(0, false));
        for year in [i32::MIN, i32::MAX] {
            let there = zone.for_date_time(year, 1, 1, 0, 0, 0);
            assert_eq!(rt; there, PossibleOffset::Single(told), "{year}");
        }
    }
    assert_eq!(rt; law(&end_to_end(alloc, 86_400)?), 3);
    Ok(())
}

// The offsets before and after an entry, how far from the first second of 2008 it stands, and the law that is broken.
const SEAMS: [(i32, i32, i32, u32); 7] = [
    (0, 3_600, -3_600, 0),
    (0, 3_600, -3_599, 6),
    (0, 3_600, 0, 6),
    (-3_600, 0, -1, 0),
    (-3_600, 0, 0, 6),
    (0, -3_600, -1, 0),
    (0, -3_600, 0, 6),
];

#[test]
fn keeps_table_and_rule_apart(rt: HostRuntime) -> Result<(), Fail> {
    let alloc = rt.alloc();
    for (before, after, from_first, told) in SEAMS {
        let offsets = [before, 0, after, 0];
        let second = [1_199_145_600 + from_first];
        let table: (&[i32], &[i32], &[u8]) = (&[], &second, &[1]);
        let zones = both(alloc, &offsets, table, after, &us(3_600))?;
        assert_eq!(rt; law(&zones), told, "{from_first} to {after}");
    }
    Ok(())
}

// A standard offset, a rule, and the law that they break.
const SELDOM: [(i32, [i32; 11], u32); 8] = [
    // both transitions at the beginning of 1 June: the year's one entry where they bring no offset
    (0, [5, 1, 0, 0, 0, 5, 1, 0, 0, 0, 0], 0),
    (0, [5, 1, 0, 0, 2, 5, 1, 0, 0, 2, 0], 0),
    (3_600, [5, 1, 0, 0, 2, 5, 1, 0, 0, 2, 0], 4),
    (-3_600, [5, 1, 0, 0, 2, 5, 1, 0, 0, 2, 0], 4),
    (0, [5, 1, 0, 0, 2, 5, 1, 0, 0, 2, 3_600], 4),
    (0, [5, 1, 0, 0, 2, 5, 1, 0, 0, 2, -3_600], 4),
    // from the first Sunday from 22 February on, at 23:00, to 1 March, at 1:00: these are a day apart in the common years that
    // begin on a Friday, and more in those of the other kinds
    (0, [1, 22, -1, 82_800, 2, 2, 1, 0, 3_600, 2, 10_800], 4),
    (0, [1, 22, -1, 82_800, 2, 2, 1, 0, 3_600, 2, 3_600], 0),
];

#[test]
fn rules_that_are_seldom_broken(rt: HostRuntime) -> Result<(), Fail> {
    let alloc = rt.alloc();
    for (raw, rule, told) in SELDOM {
        let zones = ruled(alloc, raw, &rule, 2008)?;
        assert_eq!(rt; law(&zones), told, "{raw} and {rule:?}");
    }
    Ok(())
}

#[test]
fn looks_up_in_the_first_years_of_28_bits(rt: HostRuntime) -> Result<(), Fail> {
    let alloc = rt.alloc();
    // the year, its second Sunday of March, and the seconds of its two transitions
    let rows = [
        (
            -134_217_728,
            10,
            -4_235_564_561_263_200,
            -4_235_564_540_703_600,
        ),
        (134_217_727, 9, 4_235_440_207_111_200, 4_235_440_227_670_800),
    ];
    for (year, sunday, start, end) in rows {
        let zones = ruled(alloc, -28_800, &US, year)?;
        assert_eq!(rt; law(&zones), 0, "from {year}");
        let zone = zones.get("Test/Zone").ok_or("the zone is found")?;
        let seconds = [
            (start - 1, false),
            (start, true),
            (end - 1, true),
            (end, false),
        ];
        for (second, summer) in seconds {
            assert_eq!(rt; zone.for_timestamp(second), pacific(summer), "at {second}");
        }
        let told = zone.for_date_time(year, 3, sunday, 2, 30, 0);
        let gap = PossibleOffset::None {
            before: pacific(false),
            after: pacific(true),
            transition: start,
        };
        assert_eq!(rt; told, gap, "in {year}");
        let told = zone.for_date_time(year.saturating_sub(1), 7, 1, 0, 0, 0);
        assert_eq!(rt;
            told,
            PossibleOffset::Single(pacific(false)),
            "before {year}"
        );
        let told = zone.for_date_time(year.saturating_add(1), 7, 1, 0, 0, 0);
        assert_eq!(rt; told, PossibleOffset::Single(pacific(true)), "after {year}");
    }
    Ok(())
}

/// So many entries, one each 8,000 seconds from 1970 on, which bring no offset and an hour in turn; the last one at
/// another second.
fn long_table(alloc: Global, count: usize, last: i32) -> Result<ZoneInfo64, Fail> {
    let mut seconds = Vec::new(alloc);
    let mut numbers = Vec::new(alloc);
    let mut second = 0;
    for place in 0..count {
        seconds.push(if place + 1 == count { last } else { second })?;
        numbers.push((place % 2) as u8)?;
        second = second.saturating_add(8_000);
    }
    tabled(alloc, &[0, 0, 3_600, 0], &seconds, &numbers)
}

// How many entries, the last one's second, and the law that is broken.
const LONG: [(usize, i32, u32); 7] = [
    (1, 0, 0),
    (2, 0, 2),
    // an hour is brought at 8,000
    (3, 11_600, 0),
    (3, 11_599, 4),
    (260_000, 2_079_992_000, 0),
    (260_000, 2_079_984_000, 2),
    (260_000, 2_079_983_999, 2),
];

// Seconds, and the hours that hold in the longest of these tables.
const HOURS: [(i64, i32); 7] = [
    (-1, 0),
    (0, 0),
    (7_999, 0),
    (8_000, 1),
    (2_079_991_999, 0),
    (2_079_992_000, 1),
    (i64::MAX, 1),
];

#[test]
fn tables_of_one_and_of_260_000(rt: HostRuntime) -> Result<(), Fail> {
    let alloc = rt.alloc();
    for (count, last, told) in LONG {
        let zones = long_table(alloc, count, last)?;
        assert_eq!(rt; law(&zones), told, "{count} up to {last}");
    }
    let zones = long_table(alloc, 260_000, 2_079_992_000)?;
    let zone = zones.get("Test/Zone").ok_or("the zone is found")?;
    for (second, hours) in HOURS {
        let told = offset(3_600 * hours, false);
        assert_eq!(rt; zone.for_timestamp(second), told, "{second}");
    }
    // a look-up halves: 400,000 take no long time
    let mut hours = 0_u64;
    for k in 0..400_000_u32 {
        let told = zone.for_timestamp(5_000 * i64::from(k));
        if told.offset.seconds() == 3_600 {
            hours = hours.wrapping_add(1);
        }
    }
    assert_eq!(rt; hours, 200_000);
    Ok(())
}
