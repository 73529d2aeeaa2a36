ghost use Rattle.std.specs.Prelude.{◌≡◌, [], Bool, IfOk};
ghost use Rattle.timeago.specs.Settings.{ahead_settings, three_count_settings};
ghost use Rattle.timeago.specs.Formatters.{settings_of, language_of};

use crate::codes::from_isolang;
use crate::five_chars::format_5chars;
use crate::formatter::Formatter;
use crate::style::{Style, format};
use civil::{NaiveDate, NaiveTime};
use std::alloc::{AllocError, Global};
use std::process::Abort;
use std::test::Fail;
use std::time::Duration;
use tongues::languages::basque::Basque;
use tongues::languages::danish::Danish;
use tongues::languages::german::German;
use tongues::languages::japanese::Japanese;
use tongues::languages::russian::Russian;
use tongues::{AnyLanguage, BoxedLanguage, Language, Layout, TimeUnit};
use zoned::{DateTime, FixedOffset, TimeZone, Utc};

// A language whose words and spaces are all empty.
#[derive(Clone, Copy)]
struct Silent;

impl Language for Silent {
    ghost speech = { λ _. record {
      low = [];
      high = [];
      past = [];
      word = (λ _ _. []);
      past_first = Bool.false;
      near_past = [];
      between_chunks = [];
      between_value_and_word = [];
      unit_first = (λ _. Bool.false);
    } };

    fn too_low(&self) -> &'static str {
        ""
    }

    fn too_high(&self) -> &'static str {
        ""
    }

    fn ago(&self) -> &'static str {
        ""
    }

    fn get_word(&self, _tu: TimeUnit, _x: u64) -> &'static str {
        ""
    }

    fn layout(&self, _x: u64) -> Layout {
        Layout {
            space_near_ago: "",
            between_chunks: "",
            between_value_and_word: "",
            ..Layout::usual()
        }
    }
}

fn tells<L: Language>(
    rt: &impl Abort,
    alloc: Global,
    formatter: &Formatter<L>,
    secs: u64,
    words: &str,
) -> Result<(), Fail> {
    let text = formatter.convert(alloc, Duration::from_secs(secs))?;
    assert_eq!(rt; text.as_str(), words);
    Ok(())
}

#[test]
fn worked_rows(rt: HostRuntime) -> Result<(), Fail> {
    let mut two = Formatter::new();
    two.num_items(2);
    tells(&rt, rt.alloc(), &two, 3_663, "1 hour 1 minute ago")?;
    let mut minutes = Formatter::new();
    minutes.min_unit(TimeUnit::Minutes).too_low("0");
    tells(&rt, rt.alloc(), &minutes, 30, "0 minutes ago")?;
    let mut hours = Formatter::new();
    hours.max_unit(TimeUnit::Hours);
    tells(&rt, rt.alloc(), &hours, 2_592_000, "720 hours ago")?;
    let three = three_counts(AnyLanguage::Russian(Russian));
    tells(&rt, rt.alloc(), &three, 3_600, "1 час назад")?;
    tells(
        &rt,
        rt.alloc(),
        &Formatter::with_language(Basque),
        3_600,
        "orain dela ordu 1",
    )?;
    let mut two = Formatter::with_language(Japanese);
    two.num_items(2);
    tells(&rt, rt.alloc(), &two, 3_663, "1時間1分前")?;
    let boxed: BoxedLanguage = Box::new(rt.alloc(), German)?;
    tells(
        &rt,
        rt.alloc(),
        &Formatter::with_language(boxed),
        3_600,
        "vor 1 Stunde",
    )?;
    Ok(())
}

#[test]
fn greatest_counts(rt: HostRuntime) -> Result<(), Fail> {
    let mut nanos = Formatter::new();
    nanos
        .min_unit(TimeUnit::Nanoseconds)
        .max_unit(TimeUnit::Nanoseconds)
        .num_items(2);
    let text = nanos.convert(rt.alloc(), Duration::MAX)?;
    let words = "18446744073709551615 nanoseconds 18446744073709551615 nanoseconds ago";
    assert_eq!(rt; text.as_str(), words);
    Ok(())
}

#[test]
fn a_silent_language_tells_counts_alone(rt: HostRuntime) -> Result<(), Fail> {
    let mut two = Formatter::with_language(Silent);
    two.num_items(2);
    tells(&rt, rt.alloc(), &two, 3_660, "11")
}

#[test]
fn five_characters_and_styles(rt: HostRuntime) -> Result<(), Fail> {
    let rows = [
        (0, " now "),
        (59, "59sec"),
        (420, "07min"),
        (86_399, "23hou"),
        (2_628_002, "30day"),
        (31_536_035, "11Mon"),
        (3_122_067_564, "99Yea"),
        (3_122_067_565, " OLD "),
        (u64::MAX, " OLD "),
    ];
    for (secs, text) in rows {
        assert_eq!(rt;
            format_5chars(rt.alloc(), Duration::from_secs(secs))?.as_str(),
            text
        );
    }
    let rows = [
        (0, Style::HUMAN, "just now"),
        (5_000_000, Style::HUMAN, "just now"),
        (5_000_000, Style::LONG, "5 milliseconds ago"),
        (120_000_000_000, Style::HUMAN, "2 minutes ago"),
        (120_000_000_000, Style::SHORT, "02min"),
    ];
    for (nanos, style, text) in rows {
        assert_eq!(rt;
            format(rt.alloc(), Duration::from_nanos(nanos), style)?.as_str(),
            text
        );
    }
    Ok(())
}

#[test]
fn words_that_are_set(rt: HostRuntime) -> Result<(), Fail> {
    let mut day = Formatter::new();
    day.max_duration(Duration::from_secs(86_400));
    tells(&rt, rt.alloc(), &day, 86_400, "1 day ago")?;
    tells(&rt, rt.alloc(), &day, 86_401, "old")?;
    day.too_high("long ago").too_low("at once");
    tells(&rt, rt.alloc(), &day, 86_401, "long ago")?;
    tells(&rt, rt.alloc(), &day, 0, "at once")?;
    day.ago("");
    tells(&rt, rt.alloc(), &day, 7_200, "2 hours")?;
    day.ago("before")
        .min_unit(TimeUnit::Days)
        .max_unit(TimeUnit::Seconds);
    tells(&rt, rt.alloc(), &day, 86_399, "at once")?;
    tells(&rt, rt.alloc(), &day, 86_400, "1 day before")?;
    tells(&rt, rt.alloc(), &Formatter::default(), 60, "1 minute ago")
}

// A formatter that tells what is ahead.
fn ahead(language: AnyLanguage) -> Formatter<AnyLanguage>
    ensures language { language_of result ≡ language }
    ensures settings { settings_of result ≡ ahead_settings }
{
    let mut formatter = Formatter::with_language(language);
    formatter.ago("");
    formatter
}

// A formatter that tells three counts.
fn three_counts(language: AnyLanguage) -> Formatter<AnyLanguage>
    ensures language { language_of result ≡ language }
    ensures settings { settings_of result ≡ three_count_settings }
{
    let mut formatter = Formatter::with_language(language);
    formatter.num_items(3);
    formatter
}

// A clone is set as the formatter is, and speaks its language.
fn cloned(formatter: &Formatter<AnyLanguage>) -> Result<Formatter<AnyLanguage>, AllocError>
    ensures language { IfOk result (λ f. language_of f ≡ language_of formatter.now) }
    ensures settings { IfOk result (λ f. settings_of f ≡ settings_of formatter.now) }
{
    formatter.clone()
}

#[test]
fn appended_to_a_line(rt: HostRuntime) -> Result<(), Fail> {
    let formatter = ahead(AnyLanguage::Danish(Danish));
    let mut line = String::from_str(rt.alloc(), "+\t")?;
    formatter
        .clone()?
        .convert_into(&mut line, Duration::from_secs(120))?;
    assert_eq!(rt; line.as_str(), "+\t2 minutter");
    Ok(())
}

#[test]
fn languages_of_codes(rt: HostRuntime) -> Result<(), Fail> {
    let rows = [
        ("be", "2 гадзіны таму"),
        ("da", "2 timer siden"),
        ("de", "vor 2 Stunden"),
        ("en", "2 hours ago"),
        ("es", "hace 2 horas"),
        ("fr", "il y a 2 heures"),
        ("it", "2 ore fa"),
        ("ja", "2時間前"),
        ("ko", "2시간 전"),
        ("pl", "2 godziny temu"),
        ("pt", "2 horas atrás"),
        ("ro", "acum 2 ore"),
        ("ru", "2 часа назад"),
        ("sv", "2 timmar sedan"),
        ("th", "2 ชั่วโมงที่แล้ว"),
        ("tr", "2 saat önce"),
        ("uk", "2 години тому"),
        ("zh", "2 小时 之前"),
    ];
    for (code, words) in rows {
        let language = from_isolang(code).ok_or("no language")?;
        tells(
            &rt,
            rt.alloc(),
            &Formatter::with_language(language),
            7_200,
            words,
        )?;
    }
    assert!(rt; from_isolang("eu").is_none());
    assert!(rt; from_isolang("EN").is_none());
    assert!(rt; from_isolang("").is_none());
    Ok(())
}

// a whole hour of December 2013 at an offset of so many seconds
fn december(day: u32, hour: u32, east: i32) -> Result<DateTime<FixedOffset>, Fail> {
    let offset = FixedOffset::east_opt(east).ok_or("no offset")?;
    let date = NaiveDate::from_ymd_opt(2013, 12, day).ok_or("no date")?;
    let time = NaiveTime::from_hms_opt(hour, 0, 0).ok_or("no time")?;
    let wall = date.and_time(time);
    Ok(
        offset
            .from_local_datetime(&wall)
            .single()
            .ok_or("no moment")?,
    )
}

#[test]
fn times_between_moments_are_told(rt: HostRuntime) -> Result<(), Fail> {
    let mut formatter = Formatter::new();
    formatter.num_items(2);
    let from = december(19, 15, 10_800)?;
    let to = december(23, 17, 10_800)?;
    let text = formatter.convert_chrono(rt.alloc(), from, to)?;
    assert_eq!(rt; text.as_str(), "4 days 2 hours ago");
    let text = formatter.convert_chrono(rt.alloc(), to, from)?;
    assert_eq!(rt; text.as_str(), "???");
    let text = formatter.convert_chrono(rt.alloc(), from, to.with_timezone(&Utc))?;
    assert_eq!(rt; text.as_str(), "4 days 2 hours ago");
    let text = formatter.convert_chrono(rt.alloc(), from, from)?;
    assert_eq!(rt; text.as_str(), "now");
    Ok(())
}
