//! Lines of the command `at` over further bundles, and in further languages, and the answers to them.
use crate::runs::{EN, Row, differences, written};
use crate::trees::{Value, bundle, worldwide};
use crate::{aliased, changed_zone, table_zone, three_zones, unlawful_zones};
use resb::Resource;
use std::alloc::{AllocError, Global};
use std::test::Fail;

// Zones that break a law, the least of which is told.
const UNLAWFUL: [Row; 2] = [
    ("Bad/Four\t1521622800\tuk\tnow", "! unlawful zone 4"),
    ("Bad/Eight\t1521622800\tuk\tnow", "! unlawful zone 8"),
];

const IN_THE_GAP: &str = "America/Los_Angeles\t1521622800\tuk\t2025-03-09 02:30";

// Over a gap of a table, and the first of two seconds of a fold.
const BY_TABLE: [Row; 2] = [
    (
        "Test/Table\t1521622800\tuk\t2018-03-25 01:30",
        "1521941400\t0\t3600\t+\t3 days",
    ),
    (
        "Test/Table\t1521622800\tuk\t2018-10-28 01:30",
        "1540686600\t0\t3600\t+\t7 months",
    ),
];

// An alias of the zone two hours east of Greenwich.
const ALIASED: [Row; 1] = [(
    "US/Pacific\t1521622800\tuk\t2018-03-23 20:00",
    "1521828000\t0\t7200\t+\t2 days",
)];

// Offsets of nearly a day, and of a day.
const NEARLY_A_DAY: [Row; 1] = [(
    "Test/Zone\t0\tuk\t1970-01-01 0:00",
    "-86399\t0\t86399\t-\t23 hours ago",
)];

const A_DAY: [Row; 1] = [("Test/Zone\t0\tuk\t1970-01-01 0:00", "! unlawful zone 3")];

// The same moments in further languages.
const RUSSIAN: [Row; 2] = [
    (
        "Test/Plus2\t1521622800\tuk\t2018-03-23 20:00",
        "1521828000\t0\t7200\t+\t2 дня",
    ),
    (
        "Test/Plus2\t1521622800\tuk\t6 months ago",
        "1505944800\t0\t7200\t-\t5 месяцев назад",
    ),
];

const GERMAN: [Row; 3] = [
    (
        "Test/Plus2\t1521622800\tuk\t2018-03-23 20:00",
        "1521828000\t0\t7200\t+\t2 Tagen",
    ),
    (
        "Test/Plus2\t1521622800\tuk\t6 months ago",
        "1505944800\t0\t7200\t-\tvor 5 Monaten",
    ),
    ("x", "! bad line"),
];

const JAPANESE: [Row; 2] = [
    (
        "Test/Plus2\t1521622800\tuk\t2018-03-23 20:00",
        "1521828000\t0\t7200\t+\t2日",
    ),
    (
        "Test/Plus2\t1521622800\tuk\t6 months ago",
        "1505944800\t0\t7200\t-\t5月前",
    ),
];

#[test]
fn answers_lines_over_other_zones(rt: HostRuntime) -> Result<(), Fail> {
    let alloc = rt.alloc();
    let tables: [(Resource, &[Row]); 5] = [
        (aliased(alloc, 1)?, &ALIASED),
        (unlawful_zones(alloc)?, &UNLAWFUL),
        (table_zone(alloc)?, &BY_TABLE),
        (single(alloc, 86_399)?, &NEARLY_A_DAY),
        (single(alloc, 86_400)?, &A_DAY),
    ];
    for (tree, rows) in tables {
        let told = differences(alloc, &EN, &written(alloc, &tree)?, rows)?;
        assert_eq!(rt; told.as_str(), "");
    }
    Ok(())
}

/// A bundle of `Test/Zone` alone, with this offset at all seconds.
fn single(alloc: Global, offset: i32) -> Result<Resource, AllocError> {
    let offsets = [offset, 0];
    let fields = [("typeOffsets", Value::Numbers(&offsets))];
    bundle(alloc, &[worldwide("Test/Zone", &fields)], &[])
}

#[test]
fn tells_the_law_that_a_change_breaks(rt: HostRuntime) -> Result<(), Fail> {
    let alloc = rt.alloc();
    // the table runs into the rule's first year; what holds after it is daylight time
    let changes = [
        (changed_zone(alloc, 2007, &[1, 0])?, "! unlawful zone 6"),
        (changed_zone(alloc, 2008, &[0, 1])?, "! unlawful zone 7"),
    ];
    for (tree, answer) in changes {
        let rows = [(IN_THE_GAP, answer)];
        let told = differences(alloc, &EN, &written(alloc, &tree)?, &rows)?;
        assert_eq!(rt; told.as_str(), "");
    }
    Ok(())
}

#[test]
fn answers_in_other_languages(rt: HostRuntime) -> Result<(), Fail> {
    let alloc = rt.alloc();
    let bundle = written(alloc, &three_zones(alloc)?)?;
    let tables: [(&[&str], &[Row]); 3] = [
        (&["at", "ru", "F"], &RUSSIAN),
        (&["at", "de", "F"], &GERMAN),
        (&["at", "ja", "F"], &JAPANESE),
    ];
    for (args, rows) in tables {
        let told = differences(alloc, args, &bundle, rows)?;
        assert_eq!(rt; told.as_str(), "");
    }
    Ok(())
}
