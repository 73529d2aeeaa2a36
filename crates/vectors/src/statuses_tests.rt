//! How runs end, and what was written then.
use crate::runs::{EN, ran_over, words, written};
use crate::three_zones;
use std::alloc::{AllocError, Global};
use std::test::Fail;
use tell::{MemSink, MemSource, Status, run};

const FIRST_LINE: &str = "Test/Plus2\t1521622800\tuk\t2018-03-23 20:00";

const THREE_LINES: &str = "Test/Plus2\t1521622800\tuk\t2018-03-23 20:00
Test/Plus2\t1521622800\tuk\t2018-03-21 11:00
Test/Plus2\t1521622800\tuk\tlast 29/2";

const THREE_ANSWERS: &str = "1521828000\t0\t7200\t+\t2 days
1521622800\t0\t7200\t-\tnow
! date could not be parsed from input
";

#[test]
fn tells_words_that_are_no_command(rt: HostRuntime) -> Result<(), Fail> {
    let alloc = rt.alloc();
    let commands: [&[&str]; 15] = [
        &["at"],
        &["at", "en"],
        &["at", "en", "F", "G"],
        &["at", "eu", "F"],
        &["at", "EN", "F"],
        &["AT", "en", "F"],
        &["ago"],
        &["ago", "eu"],
        &["ago", "en", "F"],
        &["ago", ""],
        &["en", "ago"],
        &["load", "0"],
        &["load", "01"],
        &["load", "20001"],
        &[],
    ];
    for args in commands {
        let bundle = written(alloc, &three_zones(alloc)?)?;
        let (status, text) = ran_over(alloc, args, bundle, FIRST_LINE.as_bytes())?;
        assert_eq!(rt; status.code(), 2);
        assert_eq!(rt; text.len(), 0);
    }
    Ok(())
}

const LANGUAGES: [&str; 18] = [
    "en", "zh", "ja", "ru", "de", "be", "pl", "sv", "ro", "tr", "fr", "es", "da", "pt", "it", "uk",
    "th", "ko",
];

#[test]
fn knows_eighteen_languages(rt: HostRuntime) -> Result<(), Fail> {
    let alloc = rt.alloc();
    for code in LANGUAGES {
        let commands: [&[&str]; 2] = [&["at", code, "F"], &["ago", code]];
        for args in commands {
            let bundle = written(alloc, &three_zones(alloc)?)?;
            let (status, text) = ran_over(alloc, args, bundle, b"x")?;
            assert_eq!(rt; status, Status::Done);
            assert_eq!(rt; text.as_slice(), b"! bad line\n".as_slice());
        }
    }
    Ok(())
}

#[test]
fn sums_large_inputs_up(rt: HostRuntime) -> Result<(), Fail> {
    let alloc = rt.alloc();
    let rows = [
        (
            "1",
            "zones 1 lines 1 moments 1 refusals 0 last 1521450000\n",
        ),
        (
            "4",
            "zones 4 lines 4 moments 3 refusals 1 last 1521874800\n",
        ),
    ];
    for (count, summary) in rows {
        let (status, text) = ran_over(
            alloc,
            &["load", count],
            Vec::new(alloc),
            FIRST_LINE.as_bytes(),
        )?;
        assert_eq!(rt; status.code(), 0);
        assert_eq!(rt; text.as_slice(), summary.as_bytes());
    }
    Ok(())
}

#[test]
fn tells_faults(rt: HostRuntime) -> Result<(), Fail> {
    let alloc = rt.alloc();
    let args = words(alloc, &EN)?;
    // the input, which calls of it and of the sink fail, the sink's room, and how the run ends
    let rows: [(&str, &[u64], &[u64], usize, u8, &str); 5] = [
        ("", &[], &[], 100, 0, ""),
        ("x", &[], &[], 100, 0, "! bad line\n"),
        (FIRST_LINE, &[2], &[], 100, 4, ""),
        (FIRST_LINE, &[], &[1], 100, 5, ""),
        (FIRST_LINE, &[], &[], 3, 5, "152"),
    ];
    for (lines, of_input, of_output, room, code, answers) in rows {
        let bundle = written(alloc, &three_zones(alloc)?)?;
        let mut bundle = MemSource::new(bundle, Vec::new(alloc));
        let lines = Vec::from_slice(alloc, lines.as_bytes())?;
        let mut input = MemSource::new(lines, Vec::from_slice(alloc, of_input)?);
        let mut output = MemSink::new(alloc, room, Vec::from_slice(alloc, of_output)?)?;
        let status = run(alloc, &args, &mut bundle, &mut input, &mut output);
        assert_eq!(rt; status.code(), code);
        assert_eq!(rt; output.bytes(), answers.as_bytes());
    }
    Ok(())
}

#[test]
fn reads_sixteen_megabytes(rt: HostRuntime) -> Result<(), Fail> {
    let alloc = rt.alloc();
    let rows = [(16_777_216, 0, "! bad line\n"), (16_777_217, 7, "")];
    for (len, code, answers) in rows {
        let bundle = written(alloc, &three_zones(alloc)?)?;
        let input = vec![in alloc; b'x'; len]?;
        let (status, text) = ran_over(alloc, &EN, bundle, &input)?;
        assert_eq!(rt; status.code(), code);
        assert_eq!(rt; text.as_slice(), answers.as_bytes());
    }
    Ok(())
}

/// This call alone, or none.
fn calls(alloc: Global, fails: bool, call: u64) -> Result<Vec<u64>, AllocError> {
    let mut calls = Vec::new(alloc);
    if fails {
        calls.push(call)?;
    }
    Ok(calls)
}

/// How a run over three lines ends where this call of the bundle, the input or the sink fails, and what was written.
fn failed_at(alloc: Global, part: u8, call: u64) -> Result<(u8, Vec<u8>), Fail> {
    let args = words(alloc, &EN)?;
    let of_bundle = calls(alloc, part == 0, call)?;
    let of_input = calls(alloc, part == 1, call)?;
    let of_output = calls(alloc, part == 2, call)?;
    let mut bundle = MemSource::new(written(alloc, &three_zones(alloc)?)?, of_bundle);
    let lines = Vec::from_slice(alloc, THREE_LINES.as_bytes())?;
    let mut input = MemSource::new(lines, of_input);
    let mut output = MemSink::new(alloc, 1000, of_output)?;
    let status = run(alloc, &args, &mut bundle, &mut input, &mut output);
    Ok((status.code(), Vec::from_slice(alloc, output.bytes())?))
}

#[test]
fn ends_at_each_failing_call(rt: HostRuntime) -> Result<(), Fail> {
    let alloc = rt.alloc();
    for (part, code) in [(0, 4), (1, 4), (2, 5)] {
        assert_eq!(rt; failed_at(alloc, part, 1)?.0, code);
        for call in 2..100 {
            let (ended, output) = failed_at(alloc, part, call)?;
            // a call that is not reached fails nothing
            let wanted = if ended == 0 { 0 } else { code };
            assert_eq!(rt; ended, wanted, "call {call}");
            assert!(rt;
                THREE_ANSWERS.as_bytes().starts_with(&output),
                "call {call}"
            );
            assert!(rt;
                ended != 0 || output.len() == THREE_ANSWERS.len(),
                "call {call}"
            );
        }
        assert_eq!(rt; failed_at(alloc, part, 100)?.0, 0);
    }
    Ok(())
}
