//! What zones tell of seconds and wall times, and which zone a name has.
ghost use Rattle.std.specs.Prelude.{◌≡◌, ◌<◌, ◌≤◌};

use crate::bundles::{is_refused, loaded, zones_in};
use crate::laws_tests::{law_of, offset};
use crate::samples::{US_RULES, los_angeles};
use crate::three_zones;
use crate::trees::{Value, root, table, tree, worldwide};
use resb::Resource;
use sqlite_items::Items;
use std::alloc::{AllocError, Global};
use std::marker::Brand;
use std::sync::ledger::{Blank, Ledger};
use std::test::Fail;
use zoneinfo64::{Offset, PossibleOffset, Steps, Zone};

/// What holds in Los Angeles in summer or in winter.
pub fn pacific(summer: bool) -> Offset {
    offset(if summer { -25_200 } else { -28_800 }, summer)
}

#[test]
fn finds_zones_by_their_names(rt: HostRuntime) -> Result<(), Fail> {
    let alloc = rt.alloc();
    let info = zones_in(alloc, &three_zones(alloc)?)?;
    let rows = [
        ("America/Los_Angeles", *b"US\0"),
        ("Test/Plus2", *b"001"),
        ("US/Pacific", *b"US\0"),
    ];
    for (name, region) in rows {
        let zone = info.get(name).expect(&rt, name);
        assert!(rt; zone.name().chars().eq(name.chars()), "{name}");
        assert_eq!(rt; zone.region().raw(), region, "{name}");
    }
    let others = [
        "",
        "America",
        "Test/Plus",
        "Test/Plus22",
        "US/Pacifid",
        "test/plus2",
    ];
    for name in others {
        assert!(rt; info.get(name).is_none(), "{name}");
    }
    Ok(())
}

// Seconds, and whether it is summer in Los Angeles.
const SECONDS: [(i64, bool); 10] = [
    (i64::MIN, false),
    // the table: 11 March and 4 November 2007
    (1_173_607_199, false),
    (1_173_607_200, true),
    (1_194_166_799, true),
    (1_194_166_800, false),
    // the rule: 9 March 2008, 2 November 2025
    (1_205_056_799, false),
    (1_205_056_800, true),
    (1_762_073_999, true),
    (1_762_074_000, false),
    (i64::MAX, false),
];

#[test]
fn looks_up_seconds_by_table_and_rule(rt: HostRuntime) -> Result<(), Fail> {
    let alloc = rt.alloc();
    let info = zones_in(alloc, &three_zones(alloc)?)?;
    let zone = info.get("America/Los_Angeles").ok_or("Los Angeles")?;
    for (second, summer) in SECONDS {
        assert_eq!(rt; zone.for_timestamp(second), pacific(summer), "at {second}");
    }
    let plus2 = info.get("Test/Plus2").ok_or("two hours east")?;
    for second in [i64::MIN, 0, i64::MAX] {
        assert_eq!(rt; plus2.for_timestamp(second), offset(7200, false));
    }
    // an offset that is the sum of two
    let fields = [("typeOffsets", Value::Numbers(&[-18_000, 3600, 0, 0]))];
    let info = loaded(alloc, &[worldwide("A", &fields)], &[])?;
    let zone = info.get("A").ok_or("a zone")?;
    assert_eq!(rt; zone.for_timestamp(0), offset(-14_400, true));
    Ok(())
}

/// The answer where clocks in Los Angeles are put forward or back.
fn sides(gap: bool, transition: i64) -> PossibleOffset {
    if gap {
        PossibleOffset::None {
            before: pacific(false),
            after: pacific(true),
            transition,
        }
    } else {
        PossibleOffset::Ambiguous {
            before: pacific(true),
            after: pacific(false),
            transition,
        }
    }
}

#[test]
fn looks_up_wall_times_by_table_and_rule(rt: HostRuntime) -> Result<(), Fail> {
    let alloc = rt.alloc();
    let info = zones_in(alloc, &three_zones(alloc)?)?;
    let zone = info.get("America/Los_Angeles").ok_or("Los Angeles")?;
    let gaps = [(2007, 11, 1_173_607_200), (2025, 9, 1_741_514_400)];
    for (year, day, transition) in gaps {
        let earlier = zone.for_date_time(year, 3, day, 1, 59, 59);
        assert_eq!(rt;
            earlier,
            PossibleOffset::Single(pacific(false)),
            "in {year}"
        );
        let inside = zone.for_date_time(year, 3, day, 2, 0, 0);
        assert_eq!(rt; inside, sides(true, transition), "in {year}");
        let later = zone.for_date_time(year, 3, day, 3, 0, 0);
        assert_eq!(rt; later, PossibleOffset::Single(pacific(true)), "in {year}");
    }
    let folds = [(2007, 4, 1_194_166_800), (2025, 2, 1_762_074_000)];
    for (year, day, transition) in folds {
        let earlier = zone.for_date_time(year, 11, day, 0, 59, 59);
        assert_eq!(rt; earlier, PossibleOffset::Single(pacific(true)), "in {year}");
        let inside = zone.for_date_time(year, 11, day, 1, 0, 0);
        assert_eq!(rt; inside, sides(false, transition), "in {year}");
        let later = zone.for_date_time(year, 11, day, 2, 0, 0);
        assert_eq!(rt; later, PossibleOffset::Single(pacific(false)), "in {year}");
    }
    for year in [i32::MIN, 1883, i32::MAX] {
        let told = zone.for_date_time(year, 7, 1, 0, 0, 0);
        assert_eq!(rt; told, PossibleOffset::Single(pacific(false)), "in {year}");
    }
    Ok(())
}

fn place_from<L: Ledger>(zone: &Zone<'_>, second: i64, blank: Blank) -> usize
    requires name { blank.name ≡ L.name }
    requires parts { blank.parts ≡ L.parts }
    requires some { 0 < L.parts }
{
    let mut steps = Steps::<L>::new(blank);
    zone.table_place(second, &mut steps)
}

/// How many transitions of a zone's table are not after a second.
fn place(zone: &Zone<'_>, second: i64) -> usize {
    place_from::<Brand>(zone, second, Blank::new(1))
}

#[test]
fn places_in_the_table(rt: HostRuntime) -> Result<(), Fail> {
    let alloc = rt.alloc();
    let info = zones_in(alloc, &three_zones(alloc)?)?;
    let zone = info.get("America/Los_Angeles").ok_or("Los Angeles")?;
    assert_eq!(rt; place(&zone, 1_173_607_199), 0);
    assert_eq!(rt; place(&zone, 1_173_607_200), 1);
    assert_eq!(rt; place(&zone, i64::MAX), 2);
    assert_eq!(rt;
        place(&info.get("Test/Plus2").ok_or("two hours east")?, 0),
        0
    );
    Ok(())
}

/// What stands at a place of a long list: a zone at each eighth, and aliases of it behind it, as a bundle has no room for
/// so many zones with tables. Each other zone's rule begins within the table.
fn eighth(alloc: Global, place: u32) -> Result<Resource, AllocError> {
    let alias = place % 8;
    if alias == 0 {
        let year = if place % 16 == 0 { 2008 } else { 2007 };
        table(alloc, &los_angeles(year, &[1, 0]))
    } else {
        Ok(Resource::Integer(place - alias))
    }
}

/// A list of so many zones, whose names are those of their places.
fn long_list(alloc: Global, count: u32) -> Result<Resource, AllocError>
    requires { count ≤ 65537 }
{
    let mut zones = Items::new(alloc);
    let mut names = Items::new(alloc);
    let mut regions = Items::new(alloc);
    for place in 0..count {
        zones.push(eighth(alloc, place)?)?;
        let units = [0x100 + (place / 256) as u16, 0x100 + (place % 256) as u16];
        names.push(tree(alloc, Value::Units(&units))?)?;
        regions.push(tree(alloc, Value::Ascii("001"))?)?;
    }
    root(alloc, zones, names, table(alloc, &US_RULES)?, regions)
}

/// The name of a place of a long list: two characters. Greater places have greater names.
fn numbered(alloc: Global, place: u32) -> Result<String, Fail> {
    let mut name = String::new(alloc);
    for part in [place / 256, place % 256] {
        name.push(char::from_u32(0x100 + part).ok_or("a character")?)?;
    }
    Ok(name)
}

#[test]
fn takes_65_536_zones(rt: HostRuntime) -> Result<(), Fail> {
    let alloc = rt.alloc();
    assert!(rt; is_refused(alloc, &long_list(alloc, 65_537)?)?);
    let info = zones_in(alloc, &long_list(alloc, 65_536)?)?;
    for place in 0..65_536_u32 {
        let zone = info.get(&numbered(alloc, place)?).ok_or("a zone")?;
        let law = if place / 8 % 2 == 0 { 0 } else { 6 };
        assert_eq!(rt; law_of(&zone), law, "{place}");
    }
    Ok(())
}
