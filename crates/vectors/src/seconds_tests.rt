//! Lines of the command `ago`, which needs no bundle.
use crate::runs::words;
use std::alloc::{AllocError, Global};
use std::test::Fail;
use tell::{MemSink, MemSource, Status, run};

/// A run of `ago` in a language over an input whose calls and whose sink's fail where it is said: how it ended, and what was
/// written. Each read of the bundle fails.
fn told(
    alloc: Global,
    lang: &str,
    input: &str,
    fails: (&[u64], &[u64]),
    room: usize,
) -> Result<(Status, Vec<u8>), AllocError> {
    let args = words(alloc, &["ago", lang])?;
    let mut bundle = MemSource::new(Vec::new(alloc), vec![in alloc; 1]?);
    let input = Vec::from_slice(alloc, input.as_bytes())?;
    let mut input = MemSource::new(input, Vec::from_slice(alloc, fails.0)?);
    let mut output = MemSink::new(alloc, room, Vec::from_slice(alloc, fails.1)?)?;
    let status = run(alloc, &args, &mut bundle, &mut input, &mut output);
    Ok((status, Vec::from_slice(alloc, output.bytes())?))
}

// A language, lines, and the answers to them.
const ANSWERED: [(&str, &str, &str); 10] = [
    ("ru", "3600", "1 час назад\n"),
    ("de", "3600", "vor 1 Stunde\n"),
    ("en", "3663", "1 hour 1 minute 3 seconds ago\n"),
    (
        "en",
        "3663\r\n60",
        "1 hour 1 minute 3 seconds ago\n1 minute ago\n",
    ),
    (
        "en",
        "00000000000000003663",
        "1 hour 1 minute 3 seconds ago\n",
    ),
    ("en", "0", "now\n"),
    (
        "en",
        "18446744073709551615",
        "584941749613 years 4 months 5 days ago\n",
    ),
    ("en", "", ""),
    ("ja", "3663", "1時間1分3秒前\n"),
    (
        "en",
        "1\nx\n\n60\n5\n18446744073709551616\n0",
        "1 second ago\n! bad line\n! bad line\n1 minute ago\n5 seconds ago\n! bad line\nnow\n",
    ),
];

const REFUSED: [&str; 14] = [
    "18446744073709551616",
    "99999999999999999999",
    "000000000000000003663",
    "\n",
    "\r",
    "5\r\r",
    "-1",
    "+1",
    " 1",
    "1 ",
    "1.5",
    "1x",
    "x",
    "٥",
];

#[test]
fn tells_seconds(rt: HostRuntime) -> Result<(), Fail> {
    let alloc = rt.alloc();
    for (lang, lines, answers) in ANSWERED {
        let (status, written) = told(alloc, lang, lines, (&[], &[]), 1000)?;
        assert_eq!(rt; status, Status::Done);
        assert_eq!(rt; written.as_slice(), answers.as_bytes(), "{lines}");
    }
    for line in REFUSED {
        let (status, written) = told(alloc, "en", line, (&[], &[]), 1000)?;
        assert_eq!(rt; status, Status::Done);
        assert_eq!(rt; written.as_slice(), b"! bad line\n".as_slice(), "{line}");
    }
    Ok(())
}

#[test]
fn tells_faults_of_ago(rt: HostRuntime) -> Result<(), Fail> {
    let alloc = rt.alloc();
    // which calls of the input and of the sink fail, the sink's room, and how the run ends
    let rows: [(&[u64], &[u64], usize, Status, &str); 7] = [
        (&[1], &[], 100, Status::ReadFault, ""),
        (&[2], &[], 100, Status::ReadFault, "1 minute ago\n"),
        (&[], &[1], 100, Status::WriteFault, ""),
        (&[], &[2], 100, Status::WriteFault, "1 minute ago\n"),
        (&[], &[], 3, Status::WriteFault, "1 m"),
        (&[], &[], 15, Status::WriteFault, "1 minute ago\n5 "),
        (
            &[3],
            &[3],
            100,
            Status::Done,
            "1 minute ago\n5 seconds ago\n",
        ),
    ];
    for (of_input, of_output, room, end, text) in rows {
        let (status, written) = told(alloc, "en", "60\n5", (of_input, of_output), room)?;
        assert_eq!(rt; status, end);
        assert_eq!(rt; written.as_slice(), text.as_bytes());
    }
    Ok(())
}
