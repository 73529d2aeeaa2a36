//! Calls and examples of dates and days that the tests of their own crates do not run.
ghost use Rattle.std.specs.Prelude.{◌≡◌, pos};
ghost use Rattle.zoned.specs.Days.{day_number};

use civil::{Datelike, NaiveDate, NaiveDateTime, NaiveTime, TimeDelta};
use std::test::Fail;
use timeago::Formatter;
use zoned::{CivilOffset, Date, DateTime, FixedOffset, MappedLocalTime, Offset, TimeZone, Utc};

// 2000-01-01 in UTC
fn new_year() -> Date<Utc>
    ensures { day_number result ≡ pos 10957 }
{
    match NaiveDate::from_day(10_957) {
        Some(date) => Date::from_utc(date, Utc),
        None => unreachable!(),
    }
}

#[test]
fn dates_step(rt: HostRuntime) -> Result<(), Fail> {
    let leap = NaiveDate::from_ymd_opt(2020, 2, 29).ok_or("no date")?;
    let next = leap.succ_opt().ok_or("no date")?;
    let last = leap.pred_opt().ok_or("no date")?;
    assert_eq!(rt; (next.month(), next.day(), last.day()), (3, 1, 28));
    let eve = NaiveDate::from_ymd_opt(2019, 12, 31);
    assert!(rt; leap.checked_add_days(-60) == eve && leap.checked_add_days(i64::MAX).is_none());
    assert!(rt; leap.checked_sub_signed(TimeDelta::days(60)) == eve);
    let hours = TimeDelta::try_hours(-47).ok_or("no length")?;
    assert!(rt; leap.checked_add_signed(hours) == Some(last));
    assert!(rt; leap.checked_sub_signed(hours) == Some(next));
    assert!(rt; leap.with_month0(12).is_none() && leap.with_day0(31).is_none());
    assert!(rt; leap.with_ordinal0(366).is_none() && leap.with_ordinal(0).is_none());
    // 1969-12-29 was a Monday
    let mut day = NaiveDate::from_day(-3).ok_or("no date")?;
    for weekday in 0..7 {
        assert_eq!(rt; day.weekday().num_days_from_monday(), weekday);
        day = day.succ_opt().ok_or("no date")?;
    }
    Ok(())
}

#[test]
fn lengths_and_times_have_ends(rt: HostRuntime) -> Result<(), Fail> {
    let days = TimeDelta::try_days(1);
    assert!(rt; days == TimeDelta::try_hours(24) && days == TimeDelta::try_minutes(1_440));
    assert!(rt; days == TimeDelta::try_seconds(86_400) && days == TimeDelta::new(86_400, 0));
    assert!(rt; TimeDelta::try_days(106_751_991_168).is_none());
    assert!(rt; TimeDelta::try_hours(i64::MAX).is_none());
    assert!(rt; TimeDelta::try_seconds(9_223_372_036_854_776).is_none());
    let second = NaiveTime::from_hms_opt(23, 59, 59);
    let leap = NaiveTime::from_hms_milli_opt(23, 59, 59, 1_000);
    assert!(rt; second < leap && leap == NaiveTime::from_hms_nano_opt(23, 59, 59, 1_000_000_000));
    assert!(rt; NaiveTime::from_hms_nano_opt(23, 59, 59, 2_000_000_000).is_none());
    assert!(rt; NaiveDateTime::from_wall_second(8_210_266_876_800, 0).is_none());
    assert!(rt; NaiveDateTime::from_wall_second(0, 2_000_000_000).is_none());
    Ok(())
}

#[test]
fn days_have_what_their_callers_know(rt: HostRuntime) {
    let next = new_year().succ();
    assert!(rt; next.day() == 2 && next.pred() == new_year());
    assert_eq!(rt; new_year().and_hms(12, 0, 0).timestamp(), 946_728_000);
    let milli = new_year().and_hms_milli(23, 59, 59, 1_999);
    assert_eq!(rt; milli.timestamp_subsec_nanos(), 1_999_000_000);
    let micro = new_year().and_hms_micro(23, 59, 59, 1_999_999);
    assert_eq!(rt; micro.timestamp_subsec_nanos(), 1_999_999_000);
    let nano = new_year().and_hms_nano(23, 59, 59, 1_999_999_999);
    assert_eq!(rt; nano.timestamp_subsec_nanos(), 1_999_999_999);
    assert!(rt; new_year().years_since(next).is_none());
    assert_eq!(rt; next.years_since(new_year()), Some(0));
}

#[test]
fn days_step_and_have_parts(rt: HostRuntime) -> Result<(), Fail> {
    let minus2 = FixedOffset::west_opt(7_200).ok_or("no offset")?;
    let there = new_year().with_timezone(&minus2);
    let text = format!(in rt.alloc(); "{there} {}", Date::<Utc>::max_date())?;
    assert_eq!(rt; text.as_str(), "2000-01-01-02:00 +262142-12-31UTC");
    assert!(rt; Date::<Utc>::min_date() == Date::<Utc>::min_utc());
    assert!(rt; there.timezone() == minus2 && there.offset().fix() == minus2);
    let length = TimeDelta::try_hours(143).ok_or("no length")?;
    let sixth = new_year().checked_add_signed(length).ok_or("no day")?;
    assert_eq!(rt; (sixth.month(), sixth.day()), (1, 6));
    assert_eq!(rt; sixth.signed_duration_since(there).num_days(), 5);
    assert!(rt; sixth.checked_sub_signed(length) == Some(new_year()));
    assert!(rt; sixth - length == new_year());
    let before = NaiveDate::from_ymd_opt(1999, 1, 2).ok_or("no date")?;
    assert_eq!(rt; there.years_since(Date::from_utc(before, minus2)), Some(0));
    assert!(rt; there.ordinal() == 1 && there.weekday().num_days_from_monday() == 5);
    assert!(rt; there.iso_week().year() == 1999 && there.iso_week().week() == 52);
    let last = there.with_ordinal(366).ok_or("no day")?;
    assert!(rt; last.with_year(1999).is_some() && last.with_month(11).is_none());
    Ok(())
}

#[test]
fn clock_times_are_placed_and_told(rt: HostRuntime) -> Result<(), Fail> {
    assert!(rt; Utc.from_local_date(&new_year().naive_local()).single() == Some(new_year()));
    let two = MappedLocalTime::Ambiguous(1_u32, 2);
    assert!(rt; two.earliest() == Some(1) && two.latest() == Some(2) && two.single().is_none());
    let (before, after) = (1_u32, 2);
    assert_eq!(rt; CivilOffset::Gap { before, after }.first(), 1);
    let day = new_year();
    assert!(rt; day.and_hms_micro_opt(23, 59, 58, 1_000_000).is_none());
    let nano = day.and_hms_nano_opt(23, 59, 59, 1_000_000_000);
    let leap = NaiveTime::from_hms_micro_opt(23, 59, 59, 1_000_000).ok_or("no time")?;
    let from = day.and_time(leap).ok_or("no moment")?;
    assert!(rt; nano.map(|moment| moment.naive_utc()) == Some(from.naive_utc()));
    // a leap second is the second after it
    let to = DateTime::<Utc>::from_timestamp(946_771_260, 0).ok_or("no moment")?;
    let mut formatter = Formatter::new();
    formatter.num_items(2);
    let text = formatter.convert_chrono(rt.alloc(), from, to)?;
    assert_eq!(rt; text.as_str(), "1 minute ago");
    Ok(())
}
