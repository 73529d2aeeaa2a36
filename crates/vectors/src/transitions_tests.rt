//! The transitions of zones, after a second and before it, and the places of zones.
use crate::bundles::{loaded, zones_in};
use crate::samples::{US, US_RULES};
use crate::trees::{Value, worldwide};
use crate::{table_zone, three_zones};
use std::test::Fail;
use zoneinfo64::{Offset, Transition, UtcOffset, Zone};

fn transition(since: i64, offset: i32, rule_applies: bool) -> Transition {
    Transition {
        since,
        offset: UtcOffset::from_seconds(offset),
        rule_applies,
    }
}

#[test]
fn finds_the_next_and_the_one_before(rt: HostRuntime) -> Result<(), Fail> {
    let alloc = rt.alloc();
    let three = zones_in(alloc, &three_zones(alloc)?)?;
    let pacific = three.get("America/Los_Angeles").ok_or("Los Angeles")?;
    let spring = transition(1_741_514_400, -25_200, true);
    let autumn = transition(1_762_074_000, -28_800, false);
    assert_eq!(rt;
        pacific.prev_transition(1_762_074_000, true, false),
        Some(spring)
    );
    assert_eq!(rt;
        pacific.prev_transition(1_762_074_000, false, false),
        Some(autumn)
    );
    assert_eq!(rt; pacific.prev_transition(1_173_607_200, true, false), None);
    assert_eq!(rt;
        pacific.next_transition(1_194_166_800, false),
        Some(transition(1_205_056_800, -25_200, true))
    );
    let last = pacific.for_timestamp(i64::MAX);
    assert_eq!(rt; last, Offset::from(transition(0, -28_800, false)));
    let plus2 = three.get("Test/Plus2").ok_or("two hours east")?;
    assert_eq!(rt; plus2.next_transition(0, false), None);
    Ok(())
}

#[test]
fn counts_changes_of_offset(rt: HostRuntime) -> Result<(), Fail> {
    let alloc = rt.alloc();
    // an hour of daylight time, and then an hour of standard time
    let same = [
        ("typeOffsets", Value::Numbers(&[0, 3_600, 3_600, 0])),
        ("trans", Value::Numbers(&[100])),
        ("typeMap", Value::Bytes(&[1])),
    ];
    // a rule that adds nothing
    let idle = [
        ("typeOffsets", Value::Numbers(&[-28_800, 0])),
        ("finalRule", Value::Ascii("US")),
        ("finalRaw", Value::Number(-28_800)),
        ("finalYear", Value::Number(2008)),
    ];
    let mut rule = US;
    rule[10] = 0;
    let zones = [worldwide("Idle", &idle), worldwide("Same", &same)];
    let info = loaded(alloc, &zones, &[("US", Value::Numbers(&rule))])?;
    let rows = [
        ("Same", transition(100, 3_600, false)),
        ("Idle", transition(1_205_056_800, -28_800, false)),
    ];
    for (name, told) in rows {
        let zone = info.get(name).ok_or("a zone")?;
        assert_eq!(rt; zone.next_transition(0, false), Some(told), "{name}");
        assert_eq!(rt; zone.next_transition(0, true), None, "{name}");
    }
    Ok(())
}

#[test]
fn reads_the_three_parts_of_a_table(rt: HostRuntime) -> Result<(), Fail> {
    let alloc = rt.alloc();
    let fields = [
        ("typeOffsets", Value::Numbers(&[7200, 0, 7200, 3600])),
        ("transPre32", Value::Numbers(&[-1, 0, -1, i32::MAX])),
        ("trans", Value::Numbers(&[-1, 5])),
        ("transPost32", Value::Numbers(&[0, -1])),
        ("typeMap", Value::Bytes(&[0, 1, 0, 1, 0])),
    ];
    let info = loaded(alloc, &[worldwide("A", &fields)], &US_RULES)?;
    let zone = info.get("A").ok_or("a zone")?;
    let rows = [
        transition(-4_294_967_296, 7200, false),
        transition(-2_147_483_649, 10_800, true),
        transition(-1, 7200, false),
        transition(5, 10_800, true),
        transition(4_294_967_295, 7200, false),
    ];
    assert!(rt; goes_both_ways(zone, &rows, false));
    Ok(())
}

/// Goes through a zone's transitions from before the first one, and back; those alone that change the offset, or all.
fn goes_both_ways(zone: Zone<'_>, rows: &[Transition], changes: bool) -> bool {
    let mut second = i64::MIN;
    for row in rows {
        if zone.next_transition(second, changes) != Some(*row) {
            return false;
        }
        second = row.since;
    }
    for row in rows.iter().rev() {
        if zone.prev_transition(second, false, changes) != Some(*row) {
            return false;
        }
        second = row.since.saturating_sub(1);
    }
    zone.prev_transition(second, false, changes).is_none()
}

#[test]
fn walks_both_ways(rt: HostRuntime) -> Result<(), Fail> {
    let alloc = rt.alloc();
    let three = zones_in(alloc, &three_zones(alloc)?)?;
    // Los Angeles from 2007 to 2010: its table, and three years of its rule
    let pacific = [
        transition(1_173_607_200, -25_200, true),
        transition(1_194_166_800, -28_800, false),
        transition(1_205_056_800, -25_200, true),
        transition(1_225_616_400, -28_800, false),
        transition(1_236_506_400, -25_200, true),
        transition(1_257_066_000, -28_800, false),
        transition(1_268_560_800, -25_200, true),
        transition(1_289_120_400, -28_800, false),
    ];
    let zone = three.get("US/Pacific").ok_or("an alias")?;
    assert!(rt; goes_both_ways(zone, &pacific, true));
    let table = zones_in(alloc, &table_zone(alloc)?)?;
    let zone = table.get("Test/Table").ok_or("a table")?;
    let rows = [
        transition(1_521_939_600, 3_600, true),
        transition(1_540_688_400, 0, false),
    ];
    assert!(rt; goes_both_ways(zone, &rows, true));
    assert_eq!(rt; zone.next_transition(1_540_688_400, false), None);
    Ok(())
}

#[test]
fn takes_zones_by_their_places(rt: HostRuntime) -> Result<(), Fail> {
    let alloc = rt.alloc();
    let info = zones_in(alloc, &three_zones(alloc)?)?;
    let last = Zone::from_raw_parts((65_535, &info));
    assert!(rt; last.name().chars().eq("US/Pacific".chars()));
    assert_eq!(rt; last.region().raw(), *b"US\0");
    let plus2 = info.get("Test/Plus2").ok_or("two hours east")?;
    let (place, _) = plus2.into_raw_parts();
    assert_eq!(rt; place, 1);
    let same = Zone::from_raw_parts(plus2.into_raw_parts());
    assert!(rt; same.name().chars().eq("Test/Plus2".chars()));
    Ok(())
}

#[test]
fn compares_zones(rt: HostRuntime) -> Result<(), Fail> {
    let alloc = rt.alloc();
    let info = zones_in(alloc, &three_zones(alloc)?)?;
    let again = zones_in(alloc, &three_zones(alloc)?)?;
    let plus2 = info.get("Test/Plus2").ok_or("two hours east")?;
    let pacific = info.get("America/Los_Angeles").ok_or("Los Angeles")?;
    let alias = info.get("US/Pacific").ok_or("an alias")?;
    assert!(rt; plus2 == again.get("Test/Plus2").ok_or("two hours east")?);
    assert!(rt; alias == again.get("US/Pacific").ok_or("an alias")?);
    assert!(rt; plus2 != pacific);
    // the data are the same, and the names are not
    assert!(rt; alias != pacific);
    Ok(())
}
