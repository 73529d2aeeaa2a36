//! Wall times that are placed in the zones of a bundle, as in any other time zone.
use crate::bundles::{loaded, zones_in};
use crate::three_zones;
use crate::trees::{Value, worldwide};
use civil::{NaiveDate, NaiveDateTime, NaiveTime};
use std::test::Fail;
use zoned::{Civil, CivilOffset, DateTime, MappedLocalTime, Offset, TimeZone, Utc, placed};
use zoneinfo64::{ChronoOffset, Zone};

fn wall(year: i32, month: u32, day: u32, hour: u32, min: u32) -> Result<NaiveDateTime, Fail> {
    let date = NaiveDate::from_ymd_opt(year, month, day).ok_or("a date")?;
    let time = NaiveTime::from_hms_opt(hour, min, 0).ok_or("a time")?;
    Ok(date.and_time(time))
}

fn seconds(offset: &ChronoOffset<'_>) -> i32 {
    offset.fix().local_minus_utc()
}

/// How many seconds show the wall time, and its offsets: the one, or those on the two sides.
fn told(answer: &CivilOffset<ChronoOffset<'_>>) -> (u8, i32, i32) {
    match answer {
        CivilOffset::Single(offset) => (1, seconds(offset), seconds(offset)),
        CivilOffset::Ambiguous { before, after } => (2, seconds(before), seconds(after)),
        CivilOffset::Gap { before, after } => (0, seconds(before), seconds(after)),
    }
}

/// The same of an answer that tells nothing of a gap.
fn mapped(answer: &MappedLocalTime<ChronoOffset<'_>>) -> (u8, i32, i32) {
    match answer {
        MappedLocalTime::None => (0, 0, 0),
        MappedLocalTime::Single(offset) => (1, seconds(offset), seconds(offset)),
        MappedLocalTime::Ambiguous(before, after) => (2, seconds(before), seconds(after)),
    }
}

#[test]
fn places_wall_times_in_los_angeles(rt: HostRuntime) -> Result<(), Fail> {
    let alloc = rt.alloc();
    let info = zones_in(alloc, &three_zones(alloc)?)?;
    let zone = info.get("US/Pacific").ok_or("the zone is found")?;
    let (winter, summer) = (-28_800, -25_200);
    let rows = [
        ((2025, 3, 9, 2, 30), (0, winter, summer), 1_741_516_200),
        ((2025, 11, 2, 1, 30), (2, summer, winter), 1_762_072_200),
        ((9999, 7, 4, 12, 0), (1, summer, summer), 253_386_730_800),
    ];
    for ((year, month, day, hour, min), offsets, second) in rows {
        let wall = wall(year, month, day, hour, min)?;
        assert_eq!(rt; told(&zone.civil(&wall)), offsets, "in {year}");
        let local = mapped(&zone.offset_from_local_datetime(&wall));
        assert_eq!(rt; local.0, offsets.0, "in {year}");
        let moment = placed(&zone, &wall).ok_or("it is placed")?;
        assert_eq!(rt; moment.timestamp(), second, "in {year}");
        assert_eq!(rt; seconds(moment.offset()), summer, "in {year}");
        assert!(rt; moment.offset().rule_applies(), "in {year}");
    }
    Ok(())
}

#[test]
fn tells_the_offsets_of_days(rt: HostRuntime) -> Result<(), Fail> {
    let alloc = rt.alloc();
    let info = zones_in(alloc, &three_zones(alloc)?)?;
    let zone = info.get("US/Pacific").ok_or("the zone is found")?;
    for (day, offset) in [(9, -28_800), (10, -25_200)] {
        let date = NaiveDate::from_ymd_opt(2025, 3, day).ok_or("a date")?;
        assert_eq!(rt;
            mapped(&zone.offset_from_local_date(&date)),
            (1, offset, offset)
        );
        let utc = zone.offset_from_utc_date(&date);
        assert_eq!(rt; utc.utc_offset().seconds(), offset);
        assert!(rt;
            Zone::from_offset(&utc)
                .name()
                .chars()
                .eq("US/Pacific".chars())
        );
    }
    // clocks show 3:00 when they are put forward at 2:00
    let moment = DateTime::<Utc>::from_timestamp(1_741_514_400, 0).ok_or("a moment")?;
    let local = moment.with_timezone(&zone).naive_local();
    assert_eq!(rt; local.wall_second(), wall(2025, 3, 9, 3, 0)?.wall_second());
    Ok(())
}

#[test]
fn cuts_offsets_of_a_day(rt: HostRuntime) -> Result<(), Fail> {
    let alloc = rt.alloc();
    // the offset that the bundle has, and the one that is told, which is less than a day
    let rows = [
        (86_399, 86_399),
        (86_400, 86_399),
        (i32::MAX, 86_399),
        (-86_399, -86_399),
        (-86_400, -86_399),
        (i32::MIN, -86_399),
    ];
    let date = NaiveDate::from_ymd_opt(2025, 3, 9).ok_or("a date")?;
    for (number, fixed) in rows {
        let offsets = [number, 0];
        let fields = [("typeOffsets", Value::Numbers(&offsets))];
        let info = loaded(alloc, &[worldwide("A", &fields)], &[])?;
        let zone = info.get("A").ok_or("the zone is found")?;
        let offset = zone.offset_from_utc_date(&date);
        assert_eq!(rt; offset.utc_offset().seconds(), number);
        assert_eq!(rt; seconds(&offset), fixed);
    }
    Ok(())
}
