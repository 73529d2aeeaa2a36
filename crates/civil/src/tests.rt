use crate::{
    Datelike, NaiveDate, NaiveDateTime, NaiveTime, OutOfRange, TimeDelta, days_before_month,
    days_before_year, year_kind, year_of_day,
};
use std::test::Fail;

#[test]
fn dates_are_numbered(rt: HostRuntime) {
    let rows: [(i32, u32, u32, Option<i64>); 24] = [
        (1970, 1, 1, Some(0)),
        (1969, 12, 31, Some(-1)),
        (2018, 3, 23, Some(17_613)),
        (2000, 2, 29, Some(11_016)),
        (1900, 2, 28, Some(-25_509)),
        (1900, 3, 1, Some(-25_508)),
        (1, 1, 1, Some(-719_162)),
        (0, 2, 29, Some(-719_469)),
        (0, 3, 1, Some(-719_468)),
        (-4, 2, 29, Some(-720_930)),
        (9999, 12, 31, Some(2_932_896)),
        (-262_143, 1, 1, Some(-96_465_292)),
        (262_142, 12, 31, Some(95_026_236)),
        (-262_144, 12, 31, None),
        (262_143, 1, 1, None),
        (1900, 2, 29, None),
        (2023, 2, 29, None),
        (2018, 4, 31, None),
        (2018, 0, 23, None),
        (2018, 13, 23, None),
        (2018, 260, 23, None),
        (2018, 3, 0, None),
        (2018, 3, 32, None),
        (2018, 3, 279, None),
    ];
    for (year, month, day, number) in rows {
        let date = NaiveDate::from_ymd_opt(year, month, day);
        assert_eq!(rt;
            date.map(|date| date.day_number()),
            number,
            "{year}-{month}-{day}"
        );
    }
}

#[test]
fn dates_compare_as_days(rt: HostRuntime) {
    assert_eq!(rt; NaiveDate::MIN.day_number(), -96_465_292);
    assert_eq!(rt; NaiveDate::MAX.day_number(), 95_026_236);
    let eve = NaiveDate::from_ymd_opt(1969, 12, 31);
    let new_year = NaiveDate::from_ymd_opt(1970, 1, 1);
    assert!(rt; eve < new_year && eve != new_year);
    assert!(rt; NaiveDate::from_ymd_opt(-262_143, 1, 1) == Some(NaiveDate::MIN));
    assert!(rt; NaiveDate::from_ymd_opt(262_142, 12, 31) == Some(NaiveDate::MAX));
}

#[test]
fn days_have_dates(rt: HostRuntime) {
    let rows: [(i64, i32, u32, u32); 10] = [
        (0, 1970, 1, 1),
        (-1, 1969, 12, 31),
        (17_613, 2018, 3, 23),
        (11_016, 2000, 2, 29),
        (11_017, 2000, 3, 1),
        (-25_508, 1900, 3, 1),
        (-719_469, 0, 2, 29),
        (2_932_896, 9999, 12, 31),
        (-96_465_292, -262_143, 1, 1),
        (95_026_236, 262_142, 12, 31),
    ];
    for (number, year, month, day) in rows {
        let date = NaiveDate::from_day(number).expect(&rt, "a date");
        assert_eq!(rt; date.day_number(), number);
        assert_eq!(rt;
            (date.year(), date.month(), date.day()),
            (year, month, day),
            "{number}"
        );
    }
    assert!(rt; NaiveDate::from_day(-96_465_293).is_none());
    assert!(rt; NaiveDate::from_day(95_026_237).is_none());
}

#[test]
fn years_have_days(rt: HostRuntime) {
    assert_eq!(rt; days_before_year(1970), 0);
    assert_eq!(rt; days_before_year(2018), 17_532);
    assert_eq!(rt; days_before_year(i32::MIN), -784_353_015_833);
    assert_eq!(rt; days_before_month(2024, 3), 60);
    assert_eq!(rt; days_before_month(2023, 3), 59);
    assert_eq!(rt; year_of_day(17_613), Some(2018));
    assert_eq!(rt; year_of_day(-784_353_015_833), Some(i32::MIN));
    assert_eq!(rt; year_of_day(784_351_576_776), Some(i32::MAX));
    assert_eq!(rt; year_of_day(784_351_576_777), None);
    assert_eq!(rt; year_of_day(i64::MIN), None);
}

#[test]
fn years_have_kinds(rt: HostRuntime) {
    assert_eq!(rt; year_kind(2018), 0);
    assert_eq!(rt; year_kind(2000), 12);
    assert_eq!(rt; year_kind(1970), 3);
    assert_eq!(rt; year_kind(-400), year_kind(2000));
}

#[test]
fn dates_move(rt: HostRuntime) {
    let rows: [(i32, u32, u32, u32, i64); 5] = [
        (2018, 1, 31, 1, 17_590),
        (2020, 1, 31, 1, 18_321),
        (2018, 1, 31, 0, 17_562),
        (2017, 12, 31, 1, 17_562),
        (2016, 2, 29, 12, 17_225),
    ];
    for (year, month, day, months, number) in rows {
        let date = NaiveDate::from_ymd_opt(year, month, day).expect(&rt, "a date");
        let moved = date.checked_add_months(months).expect(&rt, "a moved date");
        assert_eq!(rt;
            moved.day_number(),
            number,
            "{year}-{month}-{day} and {months}"
        );
    }
    let day = NaiveDate::from_day(17_613).expect(&rt, "a date");
    assert_eq!(rt; day.weekday().num_days_from_monday(), 4);
    let back = day.checked_sub_months(3).expect(&rt, "a date");
    assert_eq!(rt; (back.year(), back.month(), back.day()), (2017, 12, 23));
    let later = day
        .checked_add_signed(TimeDelta::days(-2))
        .expect(&rt, "a date");
    assert_eq!(rt; later.signed_duration_since(day).num_days(), -2);
    assert!(rt; NaiveDate::MAX.succ_opt().is_none() && NaiveDate::MIN.pred_opt().is_none());
    assert!(rt; NaiveDate::MAX.checked_add_months(1).is_none());
}

#[test]
fn wall_times_move(rt: HostRuntime) {
    let day = NaiveDate::from_day(-1).expect(&rt, "a date");
    let time = NaiveTime::from_hms_nano_opt(23, 59, 59, 1_500_000_000).expect(&rt, "a leap second");
    let wall = NaiveDateTime::new(day, time);
    assert_eq!(rt; wall.wall_second(), -1);
    let moved = wall.moved(-1).expect(&rt, "a wall time");
    assert_eq!(rt;
        (
            moved.time().hour(),
            moved.time().minute(),
            moved.time().second()
        ),
        (23, 59, 58)
    );
    assert_eq!(rt; moved.nanosecond(), 1_500_000_000);
    assert_eq!(rt; moved.date().day_number(), -1);
    assert!(rt; wall.moved(i64::MAX).is_none() && wall.moved(i64::MIN).is_none());
    assert!(rt; NaiveTime::from_hms_opt(24, 0, 0).is_none());
    assert!(rt; NaiveTime::from_hms_nano_opt(0, 0, 0, 1_000_000_000).is_none());
}

#[test]
fn lengths_of_time_are_nanoseconds(rt: HostRuntime) {
    let half = TimeDelta::new(-2, 500_000_000).expect(&rt, "a length of time");
    assert_eq!(rt;
        (half.num_seconds(), half.subsec_nanos()),
        (-1, -500_000_000)
    );
    assert!(rt; half < TimeDelta::seconds(-1) && half > TimeDelta::seconds(-2));
    assert!(rt; TimeDelta::new(9_223_372_036_854_775, 807_000_000).is_some());
    assert!(rt; TimeDelta::new(9_223_372_036_854_775, 807_000_001).is_none());
    assert!(rt;
        TimeDelta::try_weeks(i64::MAX).is_none() && TimeDelta::try_minutes(i64::MIN).is_none()
    );
    assert_eq!(rt; TimeDelta::weeks(-1).num_days(), -7);
}

#[test]
fn weeks_belong_to_the_year_of_their_thursday(rt: HostRuntime) -> Result<(), Fail> {
    let rows = [
        (2021, 1, 3, 2020, 53),
        (2021, 1, 4, 2021, 1),
        (2018, 3, 23, 2018, 12),
        (-262_143, 1, 1, -262_143, 1),
        (262_142, 12, 31, 262_143, 1),
    ];
    for (year, month, day, week_year, week) in rows {
        let date = NaiveDate::from_ymd_opt(year, month, day).ok_or("no date")?;
        assert_eq!(rt;
            (date.iso_week().year(), date.iso_week().week()),
            (week_year, week)
        );
    }
    Ok(())
}

// the weeks of 1 January and of 31 December, from 1970 on
#[test]
fn years_begin_and_end_in_weeks(rt: HostRuntime) -> Result<(), Fail> {
    let rows = [
        (1970, 1, 1970, 53),
        (1970, 53, 1971, 52),
        (1971, 52, 1972, 52),
        (1973, 1, 1974, 1),
        (1974, 1, 1975, 1),
        (1975, 1, 1976, 1),
        (1976, 1, 1976, 53),
        (1976, 53, 1977, 52),
        (1977, 52, 1978, 52),
        (1979, 1, 1980, 1),
        (1980, 1, 1981, 1),
        (1981, 1, 1981, 53),
        (1981, 53, 1982, 52),
        (1982, 52, 1983, 52),
        (1983, 52, 1985, 1),
        (1985, 1, 1986, 1),
        (1986, 1, 1987, 1),
        (1987, 1, 1987, 53),
        (1987, 53, 1988, 52),
        (1988, 52, 1989, 52),
        (1990, 1, 1991, 1),
        (1991, 1, 1992, 1),
        (1992, 1, 1992, 53),
        (1992, 53, 1993, 52),
        (1993, 52, 1994, 52),
        (1994, 52, 1995, 52),
        (1996, 1, 1997, 1),
        (1997, 1, 1998, 1),
        (1998, 1, 1998, 53),
        (1998, 53, 1999, 52),
        (1999, 52, 2000, 52),
        (2001, 1, 2002, 1),
        (2002, 1, 2003, 1),
        (2003, 1, 2004, 1),
        (2004, 1, 2004, 53),
        (2004, 53, 2005, 52),
        (2005, 52, 2006, 52),
        (2007, 1, 2008, 1),
        (2008, 1, 2009, 1),
        (2009, 1, 2009, 53),
        (2009, 53, 2010, 52),
        (2010, 52, 2011, 52),
        (2011, 52, 2013, 1),
        (2013, 1, 2014, 1),
        (2014, 1, 2015, 1),
        (2015, 1, 2015, 53),
        (2015, 53, 2016, 52),
        (2016, 52, 2017, 52),
        (2018, 1, 2019, 1),
        (2019, 1, 2020, 1),
        (2020, 1, 2020, 53),
        (2020, 53, 2021, 52),
        (2021, 52, 2022, 52),
        (2022, 52, 2023, 52),
        (2024, 1, 2025, 1),
        (2025, 1, 2026, 1),
        (2026, 1, 2026, 53),
        (2026, 53, 2027, 52),
        (2027, 52, 2028, 52),
        (2029, 1, 2030, 1),
        (2030, 1, 2031, 1),
    ];
    let mut year = 1970;
    for (first_year, first_week, last_year, last_week) in rows {
        let first = NaiveDate::from_ymd_opt(year, 1, 1).ok_or("no date")?;
        let last = NaiveDate::from_ymd_opt(year, 12, 31).ok_or("no date")?;
        assert_eq!(rt;
            (first.iso_week().year(), first.iso_week().week()),
            (first_year, first_week)
        );
        assert_eq!(rt;
            (last.iso_week().year(), last.iso_week().week()),
            (last_year, last_week)
        );
        year = last.year() + 1;
    }
    Ok(())
}

#[test]
fn dates_are_written_with_dashes(rt: HostRuntime) -> Result<(), Fail> {
    let rows = [
        (-1, "-0001-01-01"),
        (0, "0000-01-01"),
        (33, "0033-01-01"),
        (9999, "9999-01-01"),
        (10_000, "+10000-01-01"),
        (-262_143, "-262143-01-01"),
    ];
    for (year, text) in rows {
        let date = NaiveDate::from_ymd_opt(year, 1, 1).ok_or("no date")?;
        let shown = format!(in rt.alloc(); "{date} {date:?}")?;
        let expected = format!(in rt.alloc(); "{text} {text}")?;
        assert_eq!(rt; shown.as_str(), expected.as_str());
    }
    Ok(())
}

#[test]
fn parts_are_set_one_by_one(rt: HostRuntime) -> Result<(), Fail> {
    let leap = NaiveDate::from_ymd_opt(2020, 2, 29).ok_or("no date")?;
    assert_eq!(rt;
        (leap.ordinal(), leap.ordinal0(), leap.month0(), leap.day0()),
        (60, 59, 1, 28)
    );
    assert!(rt; leap.with_year(2016) == NaiveDate::from_ymd_opt(2016, 2, 29));
    assert!(rt; leap.with_year(2019).is_none());
    let first = NaiveDate::from_ymd_opt(2020, 2, 1).ok_or("no date")?;
    assert!(rt; first.with_day(29) == Some(leap) && first.with_day0(28) == Some(leap));
    assert!(rt; first.with_day(30).is_none() && first.with_day(0).is_none());
    let end = NaiveDate::from_ymd_opt(2020, 1, 31).ok_or("no date")?;
    let march = NaiveDate::from_ymd_opt(2020, 3, 31);
    assert!(rt; end.with_month(3) == march && end.with_month0(2) == march);
    assert!(rt; end.with_month(2).is_none() && end.with_month(13).is_none());
    let eve = NaiveDate::from_ymd_opt(2020, 12, 31);
    assert!(rt; leap.with_ordinal(366) == eve && leap.with_ordinal0(365) == eve);
    let short = NaiveDate::from_ymd_opt(2019, 2, 28).ok_or("no date")?;
    assert!(rt; short.with_ordinal(366).is_none());
    let base = NaiveDate::from_ymd_opt(2016, 3, 1).ok_or("no date")?;
    assert_eq!(rt; leap.years_since(base), Some(3));
    assert_eq!(rt; base.years_since(leap), None);
    Ok(())
}

#[test]
fn times_have_parts_of_seconds(rt: HostRuntime) -> Result<(), Fail> {
    let milli = NaiveTime::from_hms_milli_opt(23, 59, 59, 1_999).ok_or("no time")?;
    let micro = NaiveTime::from_hms_micro_opt(23, 59, 59, 1_999_999).ok_or("no time")?;
    assert_eq!(rt;
        (milli.nanosecond(), micro.nanosecond()),
        (1_999_000_000, 1_999_999_000)
    );
    assert!(rt; NaiveTime::from_hms_milli_opt(23, 59, 58, 1_000).is_none());
    assert!(rt; NaiveTime::from_hms_micro_opt(23, 59, 58, 1_000_000).is_none());
    Ok(())
}

#[test]
fn lengths_are_those_of_std(rt: HostRuntime) -> Result<(), Fail> {
    assert!(rt; matches!(TimeDelta::seconds(-1).to_std(), Err(OutOfRange)));
    let length = TimeDelta::new(2, 500_000_000).ok_or("no length")?;
    let std_length = length.to_std().ok().ok_or("out of range")?;
    assert_eq!(rt; std_length.as_millis(), 2500);
    let shown = format!(in rt.alloc(); "{OutOfRange} {OutOfRange:?}")?;
    assert_eq!(rt; shown.as_str(), "out of range out of range");
    Ok(())
}
