use crate::any::AnyLanguage;
use crate::language::{BoxedLanguage, Language};
use crate::languages::basque::Basque;
use crate::languages::belarusian::Belarusian;
use crate::languages::chinese::Chinese;
use crate::languages::danish::Danish;
use crate::languages::english::English;
use crate::languages::french::French;
use crate::languages::german::German;
use crate::languages::italian::Italian;
use crate::languages::japanese::Japanese;
use crate::languages::korean::Korean;
use crate::languages::polish::Polish;
use crate::languages::portuguese::Portuguese;
use crate::languages::romanian::Romanian;
use crate::languages::russian::Russian;
use crate::languages::spanish::Spanish;
use crate::languages::swedish::Swedish;
use crate::languages::thai::Thai;
use crate::languages::turkish::Turkish;
use crate::languages::ukrainian::Ukrainian;
use crate::unit::TimeUnit;
use std::process::Abort;
use std::test::Fail;
use std::time::Duration;

// What words are asked for: each unit beside these counts.
const UNITS: [TimeUnit; 10] = [
    TimeUnit::Nanoseconds,
    TimeUnit::Microseconds,
    TimeUnit::Milliseconds,
    TimeUnit::Seconds,
    TimeUnit::Minutes,
    TimeUnit::Hours,
    TimeUnit::Days,
    TimeUnit::Weeks,
    TimeUnit::Months,
    TimeUnit::Years,
];

const COUNTS: [u64; 10] = [0, 1, 2, 5, 11, 21, 101, 111, 112, u64::MAX];

// The words of the units beside each count, from nanoseconds to years.
fn says<L: Language>(rt: &impl Abort, l: &L, words: [&str; 10]) {
    for k in 0..10 {
        let mut row = words[k].split(", ");
        for unit in UNITS {
            assert_eq!(rt; row.next(), Some(l.get_word(unit, COUNTS[k])));
        }
        assert!(rt; row.next().is_none());
    }
}

// One form for all counts.
fn always<L: Language>(rt: &impl Abort, l: &L, word: &str) {
    says(rt, l, [word; 10]);
}

// A form for 1, and another for all other counts.
fn one_or_more<L: Language>(rt: &impl Abort, l: &L, one: &str, more: &str) {
    let words = [more, one, more, more, more, more, more, more, more, more];
    says(rt, l, words);
}

// The forms of a Slavic language.
fn one_few_many<L: Language>(rt: &impl Abort, l: &L, one: &str, few: &str, many: &str) {
    let words = [many, one, few, many, many, one, one, many, many, many];
    says(rt, l, words);
}

// Too low, too high, and the past.
fn has_words<L: Language>(rt: &impl Abort, l: L, words: [&str; 3]) {
    assert_eq!(rt; l.too_low(), words[0]);
    assert_eq!(rt; l.too_high(), words[1]);
    assert_eq!(rt; l.ago(), words[2]);
}

#[test]
fn each_language_has_three_words(rt: HostRuntime) {
    has_words(&rt, Basque, ["oraintxe bertan", "zaharregi", "orain dela"]);
    has_words(&rt, Belarusian, ["зараз", "даўно", "таму"]);
    has_words(&rt, Chinese, ["刚刚", "大于", "之前"]);
    has_words(&rt, Danish, ["nu", "gammel", "siden"]);
    has_words(&rt, English, ["now", "old", "ago"]);
    has_words(&rt, French, ["maintenant", "ancien", "il y a"]);
    has_words(&rt, German, ["jetzt", "zu alt", "vor"]);
    has_words(&rt, Italian, ["adesso", "troppo vecchio", "fa"]);
    has_words(&rt, Japanese, ["今", "後", "前"]);
    has_words(&rt, Korean, ["방금", "오래전", "전"]);
    has_words(&rt, Polish, ["teraz", "dawno", "temu"]);
    has_words(&rt, Portuguese, ["agora", "antigo", "atrás"]);
    has_words(&rt, Romanian, ["acum", "demult", "acum"]);
    has_words(&rt, Russian, ["сейчас", "давно", "назад"]);
    has_words(&rt, Spanish, ["ahora", "hace mucho", "hace"]);
    has_words(&rt, Swedish, ["nu", "gammal", "sedan"]);
    has_words(&rt, Thai, ["ตอนนี้", "นานมาแล้ว", "ที่แล้ว"]);
    has_words(&rt, Turkish, ["şimdi", "eski", "önce"]);
    has_words(&rt, Ukrainian, ["зараз", "давно", "тому"]);
}

#[test]
fn languages_with_one_form(rt: HostRuntime) {
    always(
        &rt,
        &Basque,
        "nanosegundo, mikrosegundo, milisegundo, segundo, minutu, ordu, egun, aste, hile, urte",
    );
    always(&rt, &Chinese, "纳秒, 微秒, 毫秒, 秒, 分, 小时, 天, 周, 月, 年");
    always(&rt, &Japanese, "ナノ秒, マイクロ秒, ミリ秒, 秒, 分, 時間, 日, 週間, 月, 年");
    always(&rt, &Korean, "나노초, 마이크로초, 밀리초, 초, 분, 시간, 일, 주, 개월, 년");
    always(
        &rt,
        &Thai,
        "นาโนวินาที, ไมโครวินาที, มิลลิวินาที, วินาที, นาที, ชั่วโมง, วัน, สัปดาห์, เดือน, ปี",
    );
    always(
        &rt,
        &Turkish,
        "nanosaniye, mikrosaniye, milisaniye, saniye, dakika, saat, gün, hafta, ay, yıl",
    );
}

#[test]
fn languages_with_two_forms(rt: HostRuntime) {
    one_or_more(
        &rt,
        &Danish,
        "nanosekund, mikrosekund, millisekund, sekund, minut, time, dag, uge, måned, år",
        "nanosekunder, mikrosekunder, millisekunder, sekunder, minutter, timer, dage, uger, måneder, år",
    );
    one_or_more(
        &rt,
        &English,
        "nanosecond, microsecond, millisecond, second, minute, hour, day, week, month, year",
        "nanoseconds, microseconds, milliseconds, seconds, minutes, hours, days, weeks, months, years",
    );
    one_or_more(
        &rt,
        &French,
        "nanoseconde, microseconde, milliseconde, seconde, minute, heure, jour, semaine, mois, année",
        "nanosecondes, microsecondes, milisecondes, secondes, minutes, heures, jours, semaines, mois, ans",
    );
    one_or_more(
        &rt,
        &German,
        "Nanosekunde, Mikrosekunde, Millisekunde, Sekunde, Minute, Stunde, Tag, Woche, Monat, Jahr",
        "Nanosekunden, Mikrosekunden, Millisekunden, Sekunden, Minuten, Stunden, Tagen, Wochen, Monaten, Jahren",
    );
    one_or_more(
        &rt,
        &Italian,
        "nanosecondo, microsecondo, millisecondo, secondo, minuto, ora, giorno, settimana, mese, anno",
        "nanosecondi, microsecondi, millisecondi, secondi, minuti, ore, giorni, settimane, mesi, anni",
    );
    one_or_more(
        &rt,
        &Portuguese,
        "nanosegundo, microsegundo, milisegundo, segundo, minuto, hora, dia, semana, mês, ano",
        "nanosegundos, microsegundos, milisegundos, segundos, minutos, horas, dias, semanas, meses, anos",
    );
    one_or_more(
        &rt,
        &Romanian,
        "nanosecundă, microsecundă, milisecundă, secundă, minut, oră, zi, săptămână, lună, an",
        "nanosecunde, microsecunde, milisecunde, secunde, minute, ore, zile, săptămâni, luni, ani",
    );
    one_or_more(
        &rt,
        &Spanish,
        "nanosegundo, microsegundo, milisegundo, segundo, minuto, hora, día, semana, mes, año",
        "nanosegundos, microsegundos, milisegundos, segundos, minutos, horas, días, semanas, meses, años",
    );
    one_or_more(
        &rt,
        &Swedish,
        "nanosekund, mikrosekund, millisekund, sekund, minut, timme, dag, vecka, månad, år",
        "nanosekunder, mikrosekunder, millisekunder, sekunder, minuter, timmar, dagar, veckor, månader, år",
    );
}

#[test]
fn languages_with_three_forms(rt: HostRuntime) {
    one_few_many(
        &rt,
        &Belarusian,
        "нанасэкунду, мікрасэкунду, мілісэкунду, сэкунду, хвіліну, гадзіну, дзень, тыдзень, месяц, год",
        "нанасэкунды, мікрасэкунды, мілісэкунды, сэкунды, хвіліны, гадзіны, дні, тыдні, месяца, гады",
        "нанасэкундаў, мікрасэкундаў, мілісэкундаў, сэкундаў, хвілін, галзін, дней, тыдняў, месяцаў, гадоў",
    );
    one_few_many(
        &rt,
        &Russian,
        "наносекунду, микросекунду, миллисекунду, секунду, минуту, час, день, неделю, месяц, год",
        "наносекунды, микросекунды, миллисекунды, секунды, минуты, часа, дня, недели, месяца, года",
        "наносекунд, микросекунд, миллисекунд, секунд, минут, часов, дней, недель, месяцев, лет",
    );
    one_few_many(
        &rt,
        &Ukrainian,
        "наносекунду, мікросекунду, мілісекунду, секунду, хвилину, годину, день, тиждень, місяць, рік",
        "наносекунди, мікросекунди, мілісекунди, секунди, хвилини, години, дня, тижня, місяця, роки",
        "наносекунд, мікросекунд, мілісекунд, секунд, хвилин, годин, днів, тижнів, місяців, років",
    );
}

#[test]
fn exactly_one_polish_year_has_a_word_of_its_own(rt: HostRuntime) {
    let one =
        "nanosekundę, mikrosekundę, milisekundę, sekundę, minutę, godzinę, dzień, tydzień, miesiąc, lat";
    let year =
        "nanosekundę, mikrosekundę, milisekundę, sekundę, minutę, godzinę, dzień, tydzień, miesiąc, rok";
    let few =
        "nanosekundy, mikrosekundy, milisekundy, sekundy, minuty, godziny, dni, tygodnie, miesiące, lata";
    let many =
        "nanosekund, mikrosekund, milisekund, sekund, minut, godzin, dni, tygodni, miesięcy, lat";
    let words = [many, year, few, many, many, one, one, many, many, many];
    says(&rt, &Polish, words);
}

// Whether the word for the past and the unit's word beside 1 stand first, and the three spaces.
fn puts<L: Language>(rt: &impl Abort, l: L, first: [bool; 2], spaces: [&str; 3]) {
    assert_eq!(rt; l.place_ago_before(), first[0]);
    assert_eq!(rt; l.place_unit_before(1), first[1]);
    assert!(rt; !l.place_unit_before(2));
    assert_eq!(rt; l.override_space_near_ago(), spaces[0]);
    assert_eq!(rt; l.between_chunks(), spaces[1]);
    assert_eq!(rt; l.between_value_and_word(), spaces[2]);
}

#[test]
fn each_layout_is_read(rt: HostRuntime) {
    puts(&rt, English, [false, false], [" ", " ", " "]);
    puts(&rt, German, [true, false], [" ", " ", " "]);
    puts(&rt, Basque, [true, true], [" ", " ", " "]);
    puts(&rt, Japanese, [false, false], ["", "", ""]);
    puts(&rt, Korean, [false, false], [" ", " ", ""]);
    puts(&rt, Thai, [false, false], ["", " ", " "]);
}

#[test]
fn named_and_boxed_languages_say_what_the_one_inside_says(rt: HostRuntime) -> Result<(), Fail> {
    has_words(&rt, AnyLanguage::Polish(Polish), ["teraz", "dawno", "temu"]);
    always(
        &rt,
        &AnyLanguage::Turkish(Turkish),
        "nanosaniye, mikrosaniye, milisaniye, saniye, dakika, saat, gün, hafta, ay, yıl",
    );
    puts(
        &rt,
        AnyLanguage::Basque(Basque),
        [true, true],
        [" ", " ", " "],
    );
    let boxed: BoxedLanguage = Box::new(rt.alloc(), German)?;
    one_or_more(
        &rt,
        &boxed,
        "Nanosekunde, Mikrosekunde, Millisekunde, Sekunde, Minute, Stunde, Tag, Woche, Monat, Jahr",
        "Nanosekunden, Mikrosekunden, Millisekunden, Sekunden, Minuten, Stunden, Tagen, Wochen, Monaten, Jahren",
    );
    has_words(&rt, boxed, ["jetzt", "zu alt", "vor"]);
    Ok(())
}

#[test]
fn units_have_sizes_and_neighbours(rt: HostRuntime) {
    assert_eq!(rt;
        TimeUnit::Months.min_duration(),
        Duration::from_secs(2_628_003)
    );
    assert_eq!(rt; TimeUnit::Months.bigger_unit(), Some(TimeUnit::Years));
    assert_eq!(rt; TimeUnit::Months.smaller_unit(), Some(TimeUnit::Weeks));
    assert_eq!(rt; TimeUnit::Years.bigger_unit(), None);
    assert_eq!(rt; TimeUnit::Nanoseconds.smaller_unit(), None);
    assert!(rt; TimeUnit::Weeks < TimeUnit::Months);
}
