//! What a phrase tells in a zone, through formatters of any language.
use crate::bundles::{words_of, zones_in};
use crate::{three_zones, unlawful_zones};
use interim::{DateError, Dialect, Expected};
use std::alloc::Global;
use std::test::Fail;
use tell::{TellError, Told, tell, tell_in};
use timeago::languages::german::German;
use timeago::{English, Formatter, Language};
use zoneinfo64::ZoneFault;

const BASE: i64 = 1_521_622_800;

/// What is told in one language of a moment to the east of Greenwich.
fn told_in<L: Language>(
    alloc: Global,
    words: &[u32],
    past: &Formatter<L>,
    ahead: &Formatter<L>,
) -> Result<Told, TellError> {
    let phrase = "2018-03-23 20:00";
    tell(
        alloc,
        words,
        "Test/Plus2",
        BASE,
        phrase,
        Dialect::Uk,
        past,
        ahead,
    )
}

/// A moment without its words.
fn plain(told: &Told) -> (i64, u32, i32, bool, bool) {
    let Told {
        seconds,
        micros,
        offset,
        rule_applies,
        ahead,
        text: _,
    } = told;
    (*seconds, *micros, *offset, *rule_applies, *ahead)
}

#[test]
fn tells_over_words(rt: HostRuntime) -> Result<(), Fail> {
    let alloc = rt.alloc();
    let words = words_of(alloc, &three_zones(alloc)?)?;
    let past = Formatter::new();
    let mut ahead = Formatter::new();
    ahead.ago("");
    let told = told_in(alloc, &words, &past, &ahead).ok().ok_or("told")?;
    assert_eq!(rt; plain(&told), (1_521_828_000, 0, 7200, false, true));
    assert_eq!(rt; told.text.as_str(), "2 days");
    let refused = told_in(alloc, &[], &past, &ahead).err();
    assert_eq!(rt; refused, Some(TellError::Bundle));
    let german = Formatter::with_language(German);
    let told = told_in(alloc, &words, &german, &german).ok().ok_or("told")?;
    assert_eq!(rt; told.text.as_str(), "vor 2 Tagen");
    Ok(())
}

#[test]
fn tells_in_zones_that_were_read(rt: HostRuntime) -> Result<(), Fail> {
    let alloc = rt.alloc();
    let info = zones_in(alloc, &three_zones(alloc)?)?;
    let past = Formatter::new();
    let mut ahead = Formatter::new();
    ahead.ago("");
    let (zone, phrase) = ("America/Los_Angeles", "2025-03-09 02:30");
    let told = tell_in(alloc, &info, zone, BASE, phrase, Dialect::Uk, &past, &ahead);
    let told = told.ok().ok_or("told")?;
    assert_eq!(rt; plain(&told), (1_741_516_200, 0, -25_200, true, true));
    assert_eq!(rt; told.text.as_str(), "6 years");
    Ok(())
}

#[test]
fn tells_the_first_refusal(rt: HostRuntime) -> Result<(), Fail> {
    let alloc = rt.alloc();
    let lawful = zones_in(alloc, &three_zones(alloc)?)?;
    let unlawful = zones_in(alloc, &unlawful_zones(alloc)?)?;
    let past: Formatter<English> = Formatter::new();
    let empty = DateError::EndOfText(Expected::EmptyDate);
    let rows = [
        (&lawful, "Test/None", i64::MAX, TellError::UnknownZone),
        (
            &unlawful,
            "Bad/Four",
            i64::MAX,
            TellError::Unlawful(ZoneFault::Near),
        ),
        (&lawful, "Test/Plus2", i64::MAX, TellError::BadBase),
        (&lawful, "Test/Plus2", i64::MIN, TellError::BadBase),
        (&lawful, "Test/Plus2", BASE, TellError::Phrase(empty)),
    ];
    for (info, zone, base, error) in rows {
        let told = tell_in(alloc, info, zone, base, "", Dialect::Uk, &past, &past);
        assert_eq!(rt; told.err(), Some(error));
    }
    Ok(())
}

#[test]
fn displays_each_refusal(rt: HostRuntime) -> Result<(), Fail> {
    let alloc = rt.alloc();
    let rows = [
        (TellError::Memory, "memory could not be found"),
        (TellError::Bundle, "bundle refused"),
        (TellError::UnknownZone, "unknown zone"),
        (TellError::Unlawful(ZoneFault::Near), "unlawful zone"),
        (TellError::BadBase, "base out of range"),
        (TellError::Phrase(DateError::MissingDate), "phrase refused"),
    ];
    for (error, text) in rows {
        assert_eq!(rt; format!(in alloc; "{error}")?.as_str(), text);
    }
    Ok(())
}
