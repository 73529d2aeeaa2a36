//! The sample bundles.
use crate::trees::{Field, Item, Value, Zone, bundle, entry, worldwide};
use resb::Resource;
use std::alloc::{AllocError, Global};

/// From the second Sunday of March to the first Sunday of November, at two o'clock by the wall, an hour more.
pub const US: [i32; 11] = [2, 8, -1, 7200, 0, 10, 1, -1, 7200, 0, 3600];

/// The rule `US`.
pub const US_RULES: [Field<'static>; 1] = [("US", Value::Numbers(&US))];

/// Two hours east of Greenwich at all seconds.
pub const PLUS2: [Field<'static>; 1] = [("typeOffsets", Value::Numbers(&[7200, 0]))];

/// The fields of Los Angeles since 2007: standard time, daylight time of one hour more, and the rule `US` from a year on. The map
/// tells which of the two the transitions of 2007 bring: 1 and 0.
pub fn los_angeles(year: i32, map: &[u8]) -> [Field<'_>; 6] {
    [
        ("typeOffsets", Value::Numbers(&[-28_800, 0, -28_800, 3_600])),
        ("trans", Value::Numbers(&[1_173_607_200, 1_194_166_800])),
        ("typeMap", Value::Bytes(map)),
        ("finalRule", Value::Ascii("US")),
        ("finalRaw", Value::Number(-28_800)),
        ("finalYear", Value::Number(year)),
    ]
}

/// One zone, `Test/Plus2`, two hours east of Greenwich, in the region `001`.
pub fn one_zone(alloc: Global) -> Result<Resource, AllocError> {
    bundle(alloc, &[worldwide("Test/Plus2", &PLUS2)], &[])
}

/// A zone of the United States.
fn american<'a>(name: &'a str, item: Item<'a>) -> Zone<'a> {
    entry(Value::Ascii(name), Value::Ascii("US"), item)
}

/// `America/Los_Angeles`, `Test/Plus2`, and `US/Pacific` as an alias of the zone at a place.
pub fn aliased(alloc: Global, place: u16) -> Result<Resource, AllocError> {
    let los_angeles = los_angeles(2008, &[1, 0]);
    let alias = Item::Other(Value::Number(i32::from(place)));
    let zones = [
        american("America/Los_Angeles", Item::Fields(&los_angeles)),
        worldwide("Test/Plus2", &PLUS2),
        american("US/Pacific", alias),
    ];
    bundle(alloc, &zones, &US_RULES)
}

/// `America/Los_Angeles`, `Test/Plus2`, and `US/Pacific` as an alias of the first.
pub fn three_zones(alloc: Global) -> Result<Resource, AllocError> {
    aliased(alloc, 0)
}

/// `America/Los_Angeles` alone, with this first year of its rule and this map.
pub fn changed_zone(alloc: Global, year: i32, map: &[u8]) -> Result<Resource, AllocError> {
    one_american(alloc, &los_angeles(year, map))
}

/// The bundle of a zone with these fields, as `America/Los_Angeles`.
fn one_american(alloc: Global, fields: &[Field<'_>]) -> Result<Resource, AllocError> {
    let zones = [american("America/Los_Angeles", Item::Fields(fields))];
    bundle(alloc, &zones, &US_RULES)
}

/// `Test/Table`: at Greenwich, and an hour more from 2018-03-25 01:00 to 2018-10-28 02:00, by the wall.
pub fn table_zone(alloc: Global) -> Result<Resource, AllocError> {
    let fields = [
        ("typeOffsets", Value::Numbers(&[0, 0, 0, 3_600])),
        ("trans", Value::Numbers(&[1_521_939_600, 1_540_688_400])),
        ("typeMap", Value::Bytes(&[1, 0])),
    ];
    bundle(alloc, &[worldwide("Test/Table", &fields)], &[])
}

/// The fields of a zone of one offset with a rule from 2008 on.
fn ruled<'a>(offsets: &'a [i32; 2], rule: &'a str) -> [Field<'a>; 4] {
    [
        ("typeOffsets", Value::Numbers(offsets)),
        ("finalRule", Value::Ascii(rule)),
        ("finalRaw", Value::Number(offsets[0])),
        ("finalYear", Value::Number(2008)),
    ]
}

/// `Bad/Eight`, whose rule begins its year in the year before, and `Bad/Four`, both of whose transitions are on one day.
pub fn unlawful_zones(alloc: Global) -> Result<Resource, AllocError> {
    let eight = ruled(&[7200, 0], "Eight");
    let four = ruled(&[-28_800, 0], "Four");
    let rules = [
        (
            "Eight",
            Value::Numbers(&[0, 1, 0, 3600, 0, 6, 1, 0, 7200, 0, 3600]),
        ),
        (
            "Four",
            Value::Numbers(&[2, 8, -1, 7200, 0, 2, 8, -1, 7200, 0, 3600]),
        ),
    ];
    bundle(
        alloc,
        &[worldwide("Bad/Eight", &eight), worldwide("Bad/Four", &four)],
        &rules,
    )
}
