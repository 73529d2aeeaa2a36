//! Phrases over both backends of `interim`, at one offset.
use interim::{DateError, Dialect, parse_date_string};
use jiff::Timestamp;
use jiff::tz::{Offset, TimeZone};
use std::test::Fail;
use zoned::{DateTime, FixedOffset, Utc};

// Wednesday 2018-03-21 11:00 at +02:00.
const BASE: i64 = 1_521_622_800;

// Seconds of wall times at +02:00, from the calendar and the base.
const PHRASES: [(&str, i64); 40] = [
    ("friday 8pm", 1_521_828_000),
    ("12am", 1_521_583_200),
    ("7pm", 1_521_651_600),
    ("12.30", 1_521_628_200),
    ("20:00:00.5", 1_521_655_200),
    ("12:00z", 1_521_633_600),
    ("2018-03-23 20:00", 1_521_828_000),
    ("2018-03-23T20:00:30", 1_521_828_030),
    ("2018-04-01 25:00", 1_522_623_600),
    ("2017-06-30 08:20:30 +0400", 1_498_796_430),
    ("2024-06-01 12:00:00 -07:00", 1_717_268_400),
    ("2016-02-29", 1_456_696_800),
    ("2018", 1_514_757_600),
    ("9999-07-04 12:00", 253_386_698_400),
    ("4 July 2018 12pm", 1_530_698_400),
    ("July 4, 2018 12AM", 1_530_655_200),
    ("4/7/18", 1_530_655_200),
    ("4/7/41", -899_258_400),
    ("4/7/100 9.30", -58_995_534_600),
    ("4 July", 1_530_655_200),
    ("next 4/7", 1_530_655_200),
    ("last 8/11 9am", 1_510_124_400),
    ("june", 1_527_804_000),
    ("last june", 1_496_268_000),
    ("tues", 1_522_101_600),
    ("next mon", 1_522_620_000),
    ("last friday", 1_521_151_200),
    ("next sunday 8pm", 1_522_605_600),
    ("wed 11:00", 1_521_622_800),
    ("wed 10:59", 1_522_227_540),
    ("last wed 12:00", 1_521_021_600),
    ("now", 1_521_622_800),
    ("TOMORROW 9am", 1_521_702_000),
    ("yesterday", 1_521_536_400),
    ("2d 03:00", 1_521_766_800),
    ("next week", 1_522_227_600),
    ("6 months ago", 1_505_944_800),
    ("last year", 1_490_047_200),
    ("2 hours", 1_521_630_000),
    ("- 5 minutes", 1_521_622_500),
];

// The second that a phrase means over `zoned`.
fn over_zoned(phrase: &str) -> Result<Result<i64, DateError>, Fail> {
    let plus2 = FixedOffset::east_opt(7200).ok_or("no offset")?;
    let base = DateTime::<Utc>::from_timestamp(BASE, 0).ok_or("no base")?;
    let moment = parse_date_string(phrase, base.with_timezone(&plus2), Dialect::Uk);
    Ok(moment.map(|moment| moment.timestamp()))
}

// And over `jiff`.
fn over_jiff(phrase: &str) -> Result<Result<i64, DateError>, Fail> {
    let plus2 = Offset::from_seconds(7200).ok().ok_or("no offset")?;
    let instant = Timestamp::from_second(BASE).ok().ok_or("no base")?;
    let base = instant.to_zoned(TimeZone::fixed(plus2));
    let moment = parse_date_string(phrase, base, Dialect::Uk);
    Ok(moment.map(|moment| moment.timestamp().as_second()))
}

#[test]
fn both_backends_mean_the_same(rt: HostRuntime) -> Result<(), Fail> {
    for (phrase, second) in PHRASES {
        assert_eq!(rt; over_zoned(phrase)?, Ok(second), "{phrase}");
        assert_eq!(rt; over_jiff(phrase)?, Ok(second), "{phrase}");
    }
    Ok(())
}
