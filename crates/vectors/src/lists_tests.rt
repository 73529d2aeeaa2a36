//! Which trees are lists of zones, and what is read of them.
use crate::bundles::{is_refused, zones_in};
use crate::samples::{PLUS2, US, US_RULES, aliased};
use crate::trees::{Field, Item, Value, Zone, bundle, entry, root, table, tree, worldwide};
use resb::Resource;
use sqlite_items::Items;
use std::alloc::{AllocError, Global};
use std::test::Fail;
use zoneinfo64::{BinaryDeserializerError, Region, Zone as Read, ZoneInfo64};

const OFFSETS: Field<'static> = ("typeOffsets", Value::Numbers(&[7200, 0, 7200, 3600]));

// The fields of a zone, and whether a bundle may have it.
const FIELDS: [(&[Field<'static>], bool); 14] = [
    (&[OFFSETS, ("links", Value::Numbers(&[0, 7]))], true),
    (&[], false),
    (&[("typeOffsets", Value::Numbers(&[]))], false),
    (&[("typeOffsets", Value::Numbers(&[0]))], false),
    (&[("typeOffsets", Value::Numbers(&[0, 0, 3600]))], false),
    // a sum past 32 bits
    (
        &[("typeOffsets", Value::Numbers(&[0, 0, i32::MAX, 1]))],
        false,
    ),
    (&[OFFSETS, ("links", Value::Ascii(""))], false),
    (&[OFFSETS, ("trans", Value::Ascii(""))], false),
    // an odd number of words
    (
        &[
            OFFSETS,
            ("transPre32", Value::Numbers(&[-1, 0, 1])),
            ("typeMap", Value::Bytes(&[0])),
        ],
        false,
    ),
    (&[OFFSETS, ("transPost32", Value::Numbers(&[1]))], false),
    // too few numbers of pairs, too many, and the number of no pair
    (
        &[
            OFFSETS,
            ("trans", Value::Numbers(&[5, 6])),
            ("typeMap", Value::Bytes(&[0])),
        ],
        false,
    ),
    (
        &[
            OFFSETS,
            ("trans", Value::Numbers(&[5])),
            ("typeMap", Value::Bytes(&[0, 1])),
        ],
        false,
    ),
    (
        &[
            OFFSETS,
            ("trans", Value::Numbers(&[5])),
            ("typeMap", Value::Bytes(&[2])),
        ],
        false,
    ),
    // a rule with no first year
    (
        &[
            OFFSETS,
            ("finalRule", Value::Ascii("US")),
            ("finalRaw", Value::Number(7200)),
        ],
        false,
    ),
];

#[test]
fn takes_zones_by_their_fields(rt: HostRuntime) -> Result<(), Fail> {
    let alloc = rt.alloc();
    for (fields, taken) in FIELDS {
        let tree = bundle(alloc, &[worldwide("Test/Zone", fields)], &US_RULES)?;
        assert_eq!(rt; !is_refused(alloc, &tree)?, taken);
    }
    Ok(())
}

// The units of a region, and its code; none where a bundle may not have it.
const REGIONS: [(&[u16], Option<[u8; 3]>); 12] = [
    (&[0x55, 0x53], Some(*b"US\0")),
    // a third character that is no letter of ASCII
    (&[0x55, 0x53, 0xE9], Some(*b"US\0")),
    (&[0x55, 0x53, 0xD83D, 0xDE00], Some(*b"US\0")),
    (&[0x30, 0x30, 0x31], Some(*b"001")),
    (&[0x30, 0x30, 0x31, 0x31], Some(*b"001")),
    (&[0x55, 0x31], None),
    (&[], None),
    (&[0x55], None),
    (&[0x75, 0x73], None),
    (&[0x55, 0x53, 0x41], None),
    (&[0x30, 0x31], None),
    (&[0x55, 0x30, 0x31], None),
];

#[test]
fn takes_regions(rt: HostRuntime) -> Result<(), Fail> {
    let alloc = rt.alloc();
    for (units, code) in REGIONS {
        let zone = entry(Value::Ascii("A"), Value::Units(units), Item::Fields(&PLUS2));
        let tree = bundle(alloc, &[zone], &[])?;
        assert_eq!(rt; is_refused(alloc, &tree)?, code.is_none(), "{units:?}");
        if let Some(code) = code {
            let info = zones_in(alloc, &tree)?;
            let region = Read::from_raw_parts((0, &info)).region();
            assert_eq!(rt; region.raw(), code, "{units:?}");
            assert!(rt; Region::try_from_raw(code) == Some(region));
        }
    }
    for raw in [*b"U1\0", *b"us\0", *b"USA", *b"01\0", *b"\0\0\0"] {
        assert!(rt; Region::try_from_raw(raw).is_none(), "{raw:?}");
    }
    Ok(())
}

/// A zone of that name.
fn named<'a>(units: &'a [u16], fields: &'a [Field<'a>]) -> Zone<'a> {
    entry(
        Value::Units(units),
        Value::Ascii("001"),
        Item::Fields(fields),
    )
}

// Two names, and whether the second one is greater.
const NAMES: [(&[u16], &[u16], bool); 5] = [
    (&[0x41], &[0x42], true),
    (&[0x41], &[0x41], false),
    (&[0x42], &[0x41], false),
    // U+FFFD comes before U+10000, though its unit is the greater one
    (&[0xFFFD], &[0xD800, 0xDC00], true),
    // a surrogate that stands alone counts as U+FFFD
    (&[0xD800], &[0xFFFD], false),
];

#[test]
fn takes_names_that_rise(rt: HostRuntime) -> Result<(), Fail> {
    let alloc = rt.alloc();
    for (first, second, rises) in NAMES {
        let tree = bundle(alloc, &[named(first, &PLUS2), named(second, &PLUS2)], &[])?;
        assert_eq!(rt; !is_refused(alloc, &tree)?, rises, "{first:?}");
    }
    Ok(())
}

// The units of a name, and its characters.
const SPELLED: [(&[u16], &str); 6] = [
    (&[], ""),
    (&[0x41, 0xD83D, 0xDE00, 0x42], "A\u{1F600}B"),
    (&[0xD83D, 0x42], "\u{FFFD}B"),
    (&[0xD83D], "\u{FFFD}"),
    (&[0xDE00, 0x41], "\u{FFFD}A"),
    (&[0xD83D, 0xD83D, 0xDE00], "\u{FFFD}\u{1F600}"),
];

#[test]
fn spells_names(rt: HostRuntime) -> Result<(), Fail> {
    let alloc = rt.alloc();
    for (units, characters) in SPELLED {
        let info = zones_in(alloc, &bundle(alloc, &[named(units, &PLUS2)], &[])?)?;
        let name = Read::from_raw_parts((0, &info)).name();
        assert_eq!(rt; name.units(), units);
        assert!(rt; name.chars().eq(characters.chars()), "{characters}");
        assert!(rt; info.get(characters).is_some(), "{characters}");
    }
    Ok(())
}

/// An alias of the zone at a place.
fn alias(name: &str, place: i32) -> Zone<'_> {
    let item = Item::Other(Value::Number(place));
    entry(Value::Ascii(name), Value::Ascii("001"), item)
}

#[test]
fn takes_aliases_of_zones(rt: HostRuntime) -> Result<(), Fail> {
    let alloc = rt.alloc();
    // an alias of itself, and of places that no zone has
    let rows = [
        (0, true),
        (1, true),
        (2, false),
        (3, false),
        (65_535, false),
    ];
    for (place, taken) in rows {
        let tree = aliased(alloc, place)?;
        assert_eq!(rt; !is_refused(alloc, &tree)?, taken, "at {place}");
    }
    // an alias of a place past 16 bits, and one of an alias
    for place in [65_536, 0] {
        let zones = [alias("A", 1), alias("B", place)];
        assert!(rt;
            is_refused(alloc, &bundle(alloc, &zones, &[])?)?,
            "at {place}"
        );
    }
    Ok(())
}

/// A list of so many equal values.
fn repeated(alloc: Global, value: Value<'_>, count: usize) -> Result<Items<Resource>, AllocError> {
    let mut items = Items::new(alloc);
    for _ in 0..count {
        items.push(tree(alloc, value)?)?;
    }
    Ok(items)
}

#[test]
fn takes_a_name_and_a_region_for_each_zone(rt: HostRuntime) -> Result<(), Fail> {
    let alloc = rt.alloc();
    // how many names and regions there are for one zone
    for (names, regions, taken) in [(1, 1, true), (0, 1, false), (2, 1, false), (1, 0, false)] {
        let mut zones = Items::new(alloc);
        zones.push(table(alloc, &PLUS2)?)?;
        let names = repeated(alloc, Value::Ascii("A"), names)?;
        let regions = repeated(alloc, Value::Ascii("001"), regions)?;
        let tree = root(alloc, zones, names, table(alloc, &[])?, regions)?;
        assert_eq!(rt; !is_refused(alloc, &tree)?, taken);
    }
    // no zone at all, and more zones than names
    assert!(rt; is_refused(alloc, &bundle(alloc, &[], &[])?)?);
    Ok(())
}

// The numbers of a rule, and whether a bundle may have it, used or not.
const RULES: [(&[i32], bool); 19] = [
    (&US, true),
    (&[0, 31, 0, 0, 2, 11, 1, 0, 86_400, 1, 0], true),
    (&[1, 29, 0, 0, 0, 1, 5, 7, 0, 0, 0], true),
    (&[1, -29, -7, 0, 0, 3, 30, 0, 0, 0, -1], true),
    // a month
    (&[12, 8, -1, 7200, 0, 10, 1, -1, 7200, 0, 3600], false),
    (&[-1, 8, -1, 7200, 0, 10, 1, -1, 7200, 0, 3600], false),
    (&[2, 8, -1, 7200, 0, 12, 1, -1, 7200, 0, 3600], false),
    // a second of the day
    (&[2, 8, -1, 86_401, 0, 10, 1, -1, 7200, 0, 3600], false),
    (&[2, 8, -1, 7200, 0, 10, 1, -1, 86_401, 0, 3600], false),
    // a kind of clock, and a weekday
    (&[2, 8, -1, 7200, 3, 10, 1, -1, 7200, 0, 3600], false),
    (&[2, 8, 8, 7200, 0, 10, 1, -1, 7200, 0, 3600], false),
    (&[2, 8, -8, 7200, 0, 10, 1, -1, 7200, 0, 3600], false),
    // a day of the month, by itself and with a weekday
    (&[2, 0, -1, 7200, 0, 10, 1, -1, 7200, 0, 3600], false),
    (&[2, 32, -1, 7200, 0, 10, 1, -1, 7200, 0, 3600], false),
    (&[2, 6, 1, 7200, 0, 10, 1, -1, 7200, 0, 3600], false),
    (&[2, 0, 0, 7200, 0, 10, 1, -1, 7200, 0, 3600], false),
    (&[1, 30, 0, 7200, 0, 10, 1, -1, 7200, 0, 3600], false),
    // too few numbers, and too many
    (&[2, 8, 1, 7200, 0, 10, 1, 1, 7200, 0], false),
    (&[2, 5, 1, 7200, 0, 10, 1, 1, 7200, 0, 3600, 0], false),
];

#[test]
fn takes_rules_by_their_numbers(rt: HostRuntime) -> Result<(), Fail> {
    let alloc = rt.alloc();
    for (numbers, taken) in RULES {
        let rules = [("AA", Value::Numbers(numbers)), US_RULES[0]];
        let tree = bundle(alloc, &[worldwide("Test/Plus2", &PLUS2)], &rules)?;
        assert_eq!(rt; !is_refused(alloc, &tree)?, taken, "{numbers:?}");
    }
    let rules = [("AA", Value::Ascii("US"))];
    let tree = bundle(alloc, &[worldwide("Test/Plus2", &PLUS2)], &rules)?;
    assert!(rt; is_refused(alloc, &tree)?);
    Ok(())
}

// The units of the name of a zone's rule, its standard offset, the rule's extra one, and whether a bundle may have it.
const NAMED: [(&[u16], i32, i32, bool); 7] = [
    (&[0x55, 0x53], -28_800, 3600, true),
    (&[0x55], -28_800, 3600, false),
    (&[0x55, 0x53, 0], -28_800, 3600, false),
    (&[0x55, 0x153], -28_800, 3600, false),
    (&[0x55, 0xD853], -28_800, 3600, false),
    (&[], -28_800, 3600, false),
    // a sum past 32 bits
    (&[0x55, 0x53], 1, i32::MAX, false),
];

#[test]
fn finds_rules_by_their_names(rt: HostRuntime) -> Result<(), Fail> {
    let alloc = rt.alloc();
    for (name, raw, extra, taken) in NAMED {
        let fields = [
            ("typeOffsets", Value::Numbers(&[-28_800, 0])),
            ("finalRule", Value::Units(name)),
            ("finalRaw", Value::Number(raw)),
            ("finalYear", Value::Number(2008)),
        ];
        let mut rule = US;
        rule[10] = extra;
        let rules = [("US", Value::Numbers(&rule))];
        let tree = bundle(alloc, &[worldwide("Test/Plus2", &fields)], &rules)?;
        assert_eq!(rt; !is_refused(alloc, &tree)?, taken, "{name:?}");
    }
    Ok(())
}

#[test]
fn tells_errors(rt: HostRuntime) -> Result<(), Fail> {
    let alloc = rt.alloc();
    let rows = [
        (BinaryDeserializerError::Memory, "memory could not be found"),
        (BinaryDeserializerError::Tree, "no resource tree"),
        (BinaryDeserializerError::Rules, "zone data rule broken"),
    ];
    for (error, shown) in rows {
        assert_eq!(rt; format!(in alloc; "{error}")?.as_str(), shown);
    }
    // no word at all, and a tree that has no zones
    let refused = ZoneInfo64::try_from_u32s(alloc, &[]).err();
    assert_eq!(rt; refused, Some(BinaryDeserializerError::Tree));
    assert!(rt; is_refused(alloc, &table(alloc, &[])?)?);
    Ok(())
}
