//! Lines of the command `at` over the sample bundles, and the answers to them.
use crate::runs::{EN, Row, differences, joined, ran_over, ran_slowly, written};
use crate::three_zones;
use std::test::Fail;
use tell::Status;

// Zones, dialects and phrases of each kind, with their moments or what is refused.
const MOMENTS: [Row; 22] = [
    (
        "Test/Plus2\t1521622800\tuk\t2018-03-23 20:00",
        "1521828000\t0\t7200\t+\t2 days",
    ),
    (
        "Test/Plus2\t1521622800\tuk\tfriday 8pm",
        "1521828000\t0\t7200\t+\t2 days",
    ),
    (
        "America/Los_Angeles\t1521622800\tuk\t2025-03-09 02:30",
        "1741516200\t0\t-25200\t+\t6 years",
    ),
    (
        "America/Los_Angeles\t1521622800\tuk\t2025-11-02 01:30",
        "1762072200\t0\t-25200\t+\t7 years",
    ),
    (
        "US/Pacific\t1521622800\tuk\t9999-07-04 12:00",
        "253386730800\t0\t-25200\t+\t7986 years",
    ),
    (
        "Test/Plus2\t1521622800\tuk\t2018-04-01 25:00",
        "1522623600\t0\t7200\t+\t1 week",
    ),
    (
        "Test/Plus2\t1521622800\tuk\t2017-06-30 08:20:30 +0400",
        "1498796430\t0\t7200\t-\t8 months ago",
    ),
    (
        "America/Los_Angeles\t1704139200\tus\t2024-06-01 12:00:00 -07:00",
        "1717268400\t0\t-25200\t+\t4 months",
    ),
    (
        "America/Los_Angeles\t1704139200\tus\t2024-06-01 12:00:00",
        "1717268400\t0\t-25200\t+\t4 months",
    ),
    (
        "Test/Plus2\t1521622800\tuk\t2018-03-21 11:00",
        "1521622800\t0\t7200\t-\tnow",
    ),
    (
        "Test/Plus2\t1521622800\tuk\tlast 29/2",
        "! date could not be parsed from input",
    ),
    (
        "Test/Plus2\t1521622800\tuk\t4 July 10:00",
        "! expected number as position 9..10",
    ),
    (
        "Test/Plus2\t1521622800\tuk\tnext 5:00",
        "! expected day or month name at the end of the input",
    ),
    (
        "Test/Plus2\t1521622800\tuk\t12:75",
        "! time could not be parsed from input",
    ),
    (
        "Test/Plus2\t1521622800\tuk\t2018-260-1 10:00",
        "! date could not be parsed from input",
    ),
    (
        "Test/Plus2\t1521622800\tus\tnext mon",
        "1522015200\t0\t7200\t+\t4 days",
    ),
    (
        "Test/Plus2\t1521622800\tuk\tnext mon",
        "1522620000\t0\t7200\t+\t1 week",
    ),
    (
        "Test/Plus2\t1521622800\tuk\tlast 8/11 9am",
        "1510124400\t0\t7200\t-\t4 months ago",
    ),
    (
        "Test/Plus2\t1521622800\tuk\t6 months ago",
        "1505944800\t0\t7200\t-\t5 months ago",
    ),
    (
        "America/Los_Angeles\t1704139200\tuk\tnext friday 8pm",
        "1705118400\t0\t-28800\t+\t1 week",
    ),
    (
        "America/Los_Angeles\t1741599000\tuk\t1 day ago",
        "1741516200\t0\t-25200\t-\t23 hours ago",
    ),
    (
        "Test/Plus2\t253402300799\tuk\t9999 years",
        "568940277600\t0\t7200\t+\t10005 years",
    ),
];

// Further lines over the same zones.
const FURTHER: [Row; 14] = [
    ("Test/Plus2\t253402300800\tuk\tnow", "! base out of range"),
    ("Test/None\t1521622800\tuk\tnow", "! unknown zone"),
    (
        "Test/Plus2\t1521622800\tuk\t2018-03-23 20:00:00.5",
        "1521828000\t5\t7200\t+\t2 days",
    ),
    (
        "Test/Plus2\t1521622800\tuk\t2018-03-23 8.00pm or so",
        "1521828000\t0\t7200\t+\t2 days",
    ),
    (
        "Test/Plus2\t1521622800\tuk\tnext month",
        "1522620000\t0\t7200\t+\t1 week",
    ),
    (
        "Test/Plus2\t1521622800\tuk\t2017-06-30 12am",
        "1498773600\t0\t7200\t-\t8 months ago",
    ),
    (
        "Test/Plus2\t1521622800\tuk\t2017-06-30 12.15am",
        "1498774500\t0\t7200\t-\t8 months ago",
    ),
    (
        "Test/Plus2\t1521622800\tuk\ttues",
        "1522101600\t0\t7200\t+\t5 days",
    ),
    (
        "Test/Plus2\t1521622800\tuk\t2d 03:00",
        "1521766800\t0\t7200\t+\t1 day",
    ),
    (
        "Test/Plus2\t1521622800\tuk\twed 24:00",
        "! date could not be parsed from input",
    ),
    (
        "Test/Plus2\t1521622800\tuk\t",
        "! expected empty date string at the end of the input",
    ),
    ("x", "! bad line"),
    ("Test/Plus2\t1521622800\tuk 2018-03-23 20:00", "! bad line"),
    (
        "Test/Plus2\t1521622800\tuk\t2018-03-23 20:60",
        "! date could not be parsed from input",
    ),
];

// Lines that end.
const ENDED: [Row; 2] = [
    ("\n", "! bad line"),
    (
        "Test/Plus2\t1521622800\tus\t2018-03-23 20:00:30\r\n",
        "1521828030\t0\t7200\t+\t2 days",
    ),
];

// The fields of a line at their edges.
const FIELDS: [Row; 13] = [
    ("Test/Plus2\t-5\tuk\tnow", "-5\t0\t7200\t-\tnow"),
    ("Test/Plus2\t-0\tuk\tnow", "0\t0\t7200\t-\tnow"),
    ("Test/Plus2\t000000000000\tuk\tnow", "0\t0\t7200\t-\tnow"),
    ("Test/Plus2\t999999999999\tuk\tnow", "! base out of range"),
    ("Test/Plus2\t-999999999999\tuk\tnow", "! base out of range"),
    ("\t1\tuk\tx", "! unknown zone"),
    ("Zürich\t1\tuk\té", "! unknown zone"),
    ("Z\t1\tuk\t", "! unknown zone"),
    ("Z\t1\tuk\t\tx\ty", "! unknown zone"),
    ("Z\t1\tuk\tx\r", "! unknown zone"),
    ("Z\t1\tuk\tx\r\r", "! unknown zone"),
    ("Z\t1\tus\t\r", "! unknown zone"),
    ("\r\t1\tuk\t\rx", "! unknown zone"),
];

// Lines that have not four fields of text, a base of one to twelve digits, and a dialect.
const BAD: [&[u8]; 26] = [
    b"\r",
    b"Z",
    b"Z\t1",
    b"Z\t1\tuk",
    b"Z\t1\tuk\r",
    b"Z 1 uk x",
    b"Z\t+5\tuk\tx",
    b"Z\t-\tuk\tx",
    b"Z\t--5\tuk\tx",
    b"Z\t\tuk\tx",
    b"Z\t0000000000005\tuk\tx",
    b"Z\t-0000000000005\tuk\tx",
    b"Z\t5x\tuk\tx",
    b"Z\t 5\tuk\tx",
    b"Z\t\xd9\xa5\tuk\tx",
    b"Z\t1\tUK\tx",
    b"Z\t1\tukx\tx",
    b"Z\t1\tu\tx",
    b"Z\t1\t\tx",
    b"Z\t1\tuk\r\tx",
    b"\xff\t1\tuk\tx",
    b"Z\t1\xff\tuk\tx",
    b"Z\t1\tuk\t\x80",
    b"Z\t1\tuk\tx\xc3",
    b"Z\t1\tuk\tx\xc3\r",
    b"Z\t1\tuk\t\xed\xa0\x80",
];

// A phrase for each text that can be expected.
const FAULTS: [Row; 15] = [
    (
        "Test/Plus2\t1521622800\tuk\t-June",
        "! expected number as position 1..5",
    ),
    (
        "Test/Plus2\t1521622800\tuk\t2018-3/23",
        "! expected '-' as position 6..7",
    ),
    (
        "Test/Plus2\t1521622800\tuk\t1é",
        "! expected date as position 1..3",
    ),
    (
        "Test/Plus2\t1521622800\tuk\t5 days x",
        "! expected 'ago' as position 7..8",
    ),
    (
        "Test/Plus2\t1521622800\tuk\tbananas",
        "! expected unsupported identifier as position 0..7",
    ),
    (
        "Test/Plus2\t1521622800\tuk\t-5",
        "! expected duration at the end of the input",
    ),
    (
        "Test/Plus2\t1521622800\tuk\t5 bananas",
        "! expected month or time unit as position 2..9",
    ),
    (
        "Test/Plus2\t1521622800\tuk\t2018-03-23 20:00 +0200",
        "! expected ':' as position 17..18",
    ),
    (
        "Test/Plus2\t1521622800\tuk\t10:00:00 x",
        "! expected expected Z/am/pm as position 9..10",
    ),
    (
        "Test/Plus2\t1521622800\tuk\t10:00:00 5",
        "! expected expected timezone as position 9..10",
    ),
    (
        "Test/Plus2\t1521622800\tuk\t8.00 x",
        "! expected expected am/pm as position 5..6",
    ),
    (
        "Test/Plus2\t1521622800\tuk\t2d 03 x",
        "! expected : or . as position 6..7",
    ),
    (
        "Test/Plus2\t1521622800\tuk\t2d 03",
        "! expected : or . at the end of the input",
    ),
    (
        "Test/Plus2\t1521622800\tuk\tfriday 8 x",
        "! expected am/pm as position 9..10",
    ),
    (
        "Test/Plus2\t1521622800\tuk\tfriday 8",
        "! expected am/pm, ':' or '.' at the end of the input",
    ),
];

// The edges of what a base, a fraction and a line can be.
const EDGES: [Row; 11] = [
    (
        "Test/Plus2\t-377705116800\tuk\tnow",
        "-377705116800\t0\t7200\t-\tnow",
    ),
    (
        "Test/Plus2\t253402300799\tuk\tnow",
        "253402300799\t0\t7200\t-\tnow",
    ),
    ("Test/Plus2\t-377705116801\tuk\tnow", "! base out of range"),
    ("Test/None\t253402300800\tuk\tx", "! unknown zone"),
    ("Test/Plus2\t253402300800\tuk\tx", "! base out of range"),
    (
        "Test/Plus2\t1521622800\tuk\t2018-03-21 11:00:00.5",
        "1521622800\t5\t7200\t+\tnow",
    ),
    (
        "Test/Plus2\t1521622800\tuk\t2018-03-21 11:00:00.5\r",
        "1521622800\t5\t7200\t+\tnow",
    ),
    (
        "Test/Plus2\t1521622800\tuk\t2018-03-21 11:00:00.5\r\r",
        "! expected expected timezone as position 21..22",
    ),
    (
        "America/Los_Angeles\t1762075800\tuk\tnow",
        "1762072200\t0\t-25200\t-\t1 hour ago",
    ),
    (
        "Test/Plus2\t253402300799\tuk\t2018-03-23 20:00",
        "1521828000\t0\t7200\t-\t7987 years ago",
    ),
    (
        "Test/Plus2\t-377705116800\tuk\t2018-03-23 20:00",
        "1521828000\t0\t7200\t+\t12025 years",
    ),
];

#[test]
fn answers_lines_of_each_kind(rt: HostRuntime) -> Result<(), Fail> {
    let alloc = rt.alloc();
    let bundle = written(alloc, &three_zones(alloc)?)?;
    let tables: [&[Row]; 6] = [&MOMENTS, &FURTHER, &ENDED, &FIELDS, &FAULTS, &EDGES];
    for rows in tables {
        let told = differences(alloc, &EN, &bundle, rows)?;
        assert_eq!(rt; told.as_str(), "");
    }
    Ok(())
}

#[test]
fn answers_lines_that_come_byte_by_byte(rt: HostRuntime) -> Result<(), Fail> {
    let alloc = rt.alloc();
    let tables: [&[Row]; 4] = [&MOMENTS, &FURTHER, &FAULTS, &EDGES];
    for rows in tables {
        let bundle = written(alloc, &three_zones(alloc)?)?;
        let (lines, answers) = joined(alloc, rows)?;
        let (status, text) = ran_slowly(alloc, &EN, bundle, &lines, false)?;
        assert_eq!(rt; status, Status::Done);
        assert_eq!(rt; text.as_slice(), answers.as_slice());
    }
    Ok(())
}

#[test]
fn answers_all_ended_lines_before_a_fault(rt: HostRuntime) -> Result<(), Fail> {
    let alloc = rt.alloc();
    let bundle = written(alloc, &three_zones(alloc)?)?;
    // 97 lines, and the beginning of one more
    let (line, answer) = MOMENTS[0];
    let mut lines = Vec::new(alloc);
    let mut answers = Vec::new(alloc);
    for _ in 0..97 {
        lines.extend_from_slice(line.as_bytes())?;
        lines.push(b'\n')?;
        answers.extend_from_slice(answer.as_bytes())?;
        answers.push(b'\n')?;
    }
    lines.extend_from_slice(b"Test/Plus2\t1521622800\t")?;
    assert_eq!(rt; lines.len(), 4096);
    let (status, text) = ran_slowly(alloc, &EN, bundle, &lines, true)?;
    assert_eq!(rt; status, Status::ReadFault);
    assert_eq!(rt; text.as_slice(), answers.as_slice());
    Ok(())
}

#[test]
fn refuses_bad_lines(rt: HostRuntime) -> Result<(), Fail> {
    let alloc = rt.alloc();
    let bundle = written(alloc, &three_zones(alloc)?)?;
    let mut lines = Vec::new(alloc);
    let mut answers = Vec::new(alloc);
    for line in BAD {
        lines.extend_from_slice(line)?;
        lines.push(b'\n')?;
        answers.extend_from_slice(b"! bad line\n")?;
    }
    let (status, text) = ran_over(alloc, &EN, bundle, &lines)?;
    assert_eq!(rt; status, Status::Done);
    assert_eq!(rt; text.as_slice(), answers.as_slice());
    Ok(())
}

#[test]
fn answers_each_line_once(rt: HostRuntime) -> Result<(), Fail> {
    let alloc = rt.alloc();
    let (line, answer) = MOMENTS[0];
    let mut lines = Vec::new(alloc);
    lines.extend_from_slice(line.as_bytes())?;
    lines.extend_from_slice(b"\nx\n\n\xff\n")?;
    // as long as a line can be, and a byte more
    lines.extend_from_slice(&[b'x'; 1024])?;
    lines.push(b'\n')?;
    lines.extend_from_slice(&[b'x'; 1025])?;
    lines.push(b'\n')?;
    lines.extend_from_slice(line.as_bytes())?;
    let bad = "! bad line\n! bad line\n! bad line\n! bad line\n! bad line";
    let answers = format!(in alloc; "{answer}\n{bad}\n{answer}\n")?;
    let bundle = written(alloc, &three_zones(alloc)?)?;
    let (status, text) = ran_over(alloc, &EN, bundle, &lines)?;
    assert_eq!(rt; status, Status::Done);
    assert_eq!(rt; text.as_slice(), answers.as_bytes());
    Ok(())
}

#[test]
fn answers_long_lines(rt: HostRuntime) -> Result<(), Fail> {
    let alloc = rt.alloc();
    let (line, answer) = MOMENTS[0];
    let mut blanks = [b' '; 1025];
    blanks[..line.len()].copy_from_slice(line.as_bytes());
    let mut no_text = blanks;
    no_text[line.len()] = 0xff;
    let mut digits = [b'1'; 925];
    digits[..25].copy_from_slice(b"Test/Plus2\t1521622800\tuk\t");
    let mut ended = blanks;
    ended[1023] = b'\r';
    ended[1024] = b'\r';
    let rows: [(&[u8], &str); 6] = [
        (&blanks[..1024], answer),
        (&blanks, "! bad line"),
        (&ended[..1024], answer),
        (&ended, "! bad line"),
        (&no_text[..1024], "! bad line"),
        (&digits, "! expected date as position 4..8"),
    ];
    for (line, answer) in rows {
        let bundle = written(alloc, &three_zones(alloc)?)?;
        let (status, text) = ran_over(alloc, &EN, bundle, line)?;
        let wanted = format!(in alloc; "{answer}\n")?;
        assert_eq!(rt; status, Status::Done);
        assert_eq!(rt; text.as_slice(), wanted.as_bytes());
    }
    Ok(())
}
