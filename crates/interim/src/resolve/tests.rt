use crate::{DateError, Dialect, parse_date_string};
use std::test::Fail;
use zoned::{DateTime, FixedOffset, Utc};

// Wednesday 2018-03-21 11:00 at +02:00.
const BASE: i64 = 1_521_622_800;

// The second and the microseconds that a phrase means from a base at +02:00.
fn told(phrase: &str, base: i64) -> Result<Result<(i64, u32), DateError>, Fail> {
    let plus2 = FixedOffset::east_opt(7200).ok_or("no offset")?;
    let base = DateTime::<Utc>::from_timestamp(base, 0).ok_or("no base")?;
    let moment = parse_date_string(phrase, base.with_timezone(&plus2), Dialect::Uk);
    Ok(moment.map(|moment| (moment.timestamp(), moment.timestamp_subsec_nanos() / 1000)))
}

// What is told of more phrases stands in `vectors`.
const TOLD: [(&str, i64, Result<(i64, u32), DateError>); 10] = [
    ("now", BASE, Ok((1_521_622_800, 0))),
    ("2 hours", BASE, Ok((1_521_630_000, 0))),
    ("next 5pm", BASE, Ok((1_521_644_400, 0))),
    ("wed 10:00", BASE, Ok((1_522_224_000, 0))),
    ("2018-03-23 20:00:00.5", BASE, Ok((1_521_828_000, 5))),
    ("9999 years", 253_402_300_799, Ok((568_940_277_600, 0))),
    ("2018-02-29", BASE, Err(DateError::MissingDate)),
    ("31/4", BASE, Err(DateError::MissingDate)),
    ("friday 10:60", BASE, Err(DateError::MissingDate)),
    (".", BASE, Err(DateError::MissingDate)),
];

#[test]
fn phrases_are_placed_or_refused(rt: HostRuntime) -> Result<(), Fail> {
    for (phrase, base, wanted) in TOLD {
        let moment = told(phrase, base)?;
        assert_eq!(rt; moment, wanted, "{phrase}");
    }
    Ok(())
}
