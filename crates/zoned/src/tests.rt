ghost use Rattle.std.specs.Prelude.{◌≡◌, pos};
ghost use Rattle.zoned.specs.Days.{day_number};

use crate::{
    Civil, CivilOffset, Date, DateTime, FixedOffset, MappedLocalTime, TimeZone, Utc, placed,
    placed_at_offset,
};
use civil::{Datelike, NaiveDate, NaiveDateTime, TimeDelta};
use std::test::Fail;

fn wall(second: i64) -> Result<NaiveDateTime, Fail> {
    Ok(NaiveDateTime::from_wall_second(second, 0).ok_or("no wall time")?)
}

#[test]
fn offsets_are_written(rt: HostRuntime) -> Result<(), Fail> {
    let rows = [
        (0, "+00:00"),
        (7200, "+02:00"),
        (-28_800, "-08:00"),
        (-12_345, "-03:25:45"),
        (86_399, "+23:59:59"),
        (9, "+00:00:09"),
    ];
    for (seconds, text) in rows {
        let offset = FixedOffset::east_opt(seconds).ok_or("no offset")?;
        let shown = format!(in rt.alloc(); "{offset}")?;
        assert_eq!(rt; shown.as_str(), text);
        let debugged = format!(in rt.alloc(); "{offset:?}")?;
        assert_eq!(rt; debugged.as_str(), text);
    }
    let shown = format!(in rt.alloc(); "{Utc} {Utc:?}")?;
    assert_eq!(rt; shown.as_str(), "UTC Z");
    assert!(rt;
        FixedOffset::east_opt(86_400).is_none() && FixedOffset::west_opt(-86_400).is_none()
    );
    Ok(())
}

#[test]
fn moments_are_seconds(rt: HostRuntime) -> Result<(), Fail> {
    let plus2 = FixedOffset::east_opt(7200).ok_or("no offset")?;
    let base = DateTime::<Utc>::from_timestamp(1_521_622_800, 0).ok_or("no moment")?;
    let there = base.with_timezone(&plus2);
    assert_eq!(rt; there.naive_local().time().hour(), 11);
    assert_eq!(rt; there.offset().local_minus_utc(), 7200);
    let later = there
        .checked_add_signed(TimeDelta::days(2))
        .ok_or("no moment")?;
    assert_eq!(rt; later.timestamp(), 1_521_795_600);
    assert_eq!(rt; later.signed_duration_since(base).num_days(), 2);
    let leap = DateTime::<Utc>::from_timestamp(59, 1_500_000_000).ok_or("no moment")?;
    let after = leap
        .checked_add_signed(TimeDelta::seconds(0))
        .ok_or("no moment")?;
    assert_eq!(rt;
        (after.timestamp(), after.timestamp_subsec_nanos()),
        (60, 500_000_000)
    );
    assert!(rt; DateTime::<Utc>::from_timestamp(58, 1_000_000_000).is_none());
    assert!(rt; DateTime::<Utc>::from_timestamp(8_210_266_876_800, 0).is_none());
    Ok(())
}

#[test]
fn wall_times_are_placed(rt: HostRuntime) -> Result<(), Fail> {
    let plus2 = FixedOffset::east_opt(7200).ok_or("no offset")?;
    let moment = placed(&plus2, &wall(1_521_835_200)?).ok_or("no moment")?;
    assert_eq!(rt; moment.timestamp(), 1_521_828_000);
    let written = placed_at_offset(&plus2, &wall(1_498_810_830)?, 14_400).ok_or("no moment")?;
    assert_eq!(rt; written.timestamp(), 1_498_796_430);
    assert!(rt; placed(&plus2, &wall(-8_334_601_228_800)?).is_none());
    let local = plus2.from_local_datetime(&wall(7200)?);
    assert_eq!(rt; local.single().map(|d| d.timestamp()), Some(0));
    let day = NaiveDate::from_day(0).ok_or("no date")?;
    assert!(rt;
        matches!(
            plus2.offset_from_local_date(&day),
            MappedLocalTime::Single(_)
        )
    );
    assert!(rt; matches!(Utc.civil(&wall(0)?), CivilOffset::Single(_)));
    Ok(())
}

// 2000-01-01 in UTC
fn new_year() -> Date<Utc>
    ensures { day_number result ≡ pos 10957 }
{
    match NaiveDate::from_day(10_957) {
        Some(date) => Date::from_utc(date, Utc),
        None => unreachable!(),
    }
}

#[test]
fn days_are_written(rt: HostRuntime) -> Result<(), Fail> {
    let later = new_year() + TimeDelta::days(5);
    let text = format!(in rt.alloc(); "{later} {later:?}")?;
    assert_eq!(rt; text.as_str(), "2000-01-06UTC 2000-01-06Z");
    let plus1 = FixedOffset::east_opt(3600).ok_or("no offset")?;
    let there = new_year().with_timezone(&plus1);
    let text = format!(in rt.alloc(); "{there}")?;
    assert_eq!(rt; text.as_str(), "2000-01-01+01:00");
    let first = Date::<Utc>::min_utc();
    let text = format!(in rt.alloc(); "{first}")?;
    assert_eq!(rt; text.as_str(), "-262143-01-01UTC");
    assert!(rt; first.pred_opt().is_none() && Date::<Utc>::max_utc().succ_opt().is_none());
    assert_eq!(rt; (later - new_year()).num_days(), 5);
    Ok(())
}

#[test]
fn days_move_and_compare(rt: HostRuntime) -> Result<(), Fail> {
    let plus1 = FixedOffset::east_opt(3600).ok_or("no offset")?;
    let minus2 = FixedOffset::west_opt(7200).ok_or("no offset")?;
    let mut day = new_year();
    day += TimeDelta::days(5);
    assert_eq!(rt; (day.year(), day.month(), day.day()), (2000, 1, 6));
    assert!(rt; new_year() < day && new_year() != day && !day.same_day(&new_year()));
    assert!(rt; day.with_timezone(&plus1).same_day(&day));
    assert!(rt; day.with_timezone(&minus2).same_day(&day));
    day -= TimeDelta::days(5);
    assert!(rt; day == new_year());
    assert!(rt; day.with_timezone(&plus1).same_day(&day));
    assert!(rt; day.with_timezone(&minus2).same_day(&day));
    assert!(rt; day.with_timezone(&plus1) == day.with_timezone(&minus2));
    Ok(())
}

#[test]
fn days_have_clock_times(rt: HostRuntime) -> Result<(), Fail> {
    let date = NaiveDate::from_ymd_opt(2018, 4, 1).ok_or("no date")?;
    let april: Date<Utc> = Date::from_utc(date, Utc);
    assert!(rt; april.with_day(31).is_none());
    let changed = april.with_month0(11).ok_or("no day")?;
    assert_eq!(rt;
        (changed.year(), changed.month(), changed.day()),
        (2018, 12, 1)
    );
    let noon = april.and_hms_opt(12, 0, 0).ok_or("no moment")?;
    assert_eq!(rt; noon.timestamp(), 1_522_584_000);
    assert!(rt; april.and_hms_opt(24, 0, 0).is_none());
    let leap = april
        .and_hms_milli_opt(23, 59, 59, 1_999)
        .ok_or("no moment")?;
    assert_eq!(rt; leap.timestamp_subsec_nanos(), 1_999_000_000);
    let plus1 = FixedOffset::east_opt(3600).ok_or("no offset")?;
    let midnight = new_year()
        .with_timezone(&plus1)
        .and_hms_opt(0, 0, 0)
        .ok_or("no moment")?;
    assert_eq!(rt; midnight.timestamp(), 946_681_200);
    Ok(())
}
