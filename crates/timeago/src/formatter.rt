ghost use Rattle.std.specs.Prelude.{◌≡◌, ◌<◌, ◌≤◌, ◌++◌, ◌↔◌, IsTrue, IfOk, OnOk, OnErr, Some, [], unwrap_or, codes};
ghost use Rattle.std.specs.String.{string_bytes};
ghost use Rattle.std.specs.Duration.{as_nanos};
ghost use Rattle.tongues.specs.GermanicLanguages.{english};
ghost use Rattle.tongues.specs.Units.{unit_size};
ghost use Rattle.timeago.specs.Settings.{default_settings};
ghost use Rattle.timeago.specs.Counts.{allowed_unit, lower, higher};
ghost use Rattle.timeago.specs.Words.{IsWords, chunk, none_text, told_text};
ghost use Rattle.timeago.specs.Within.{TellsWithin};
ghost use Rattle.timeago.specs.Appended.{Adds, Keeps};
ghost use Rattle.timeago.specs.Inside.Steps.{counted, tells_nothing, before_chunk, chunks, past_before, past_behind};
ghost use Rattle.timeago.specs.Formatters.{settings_of, language_of};

use crate::pieces::{push_between, push_count, push_no_count};
use crate::rest::Rest;
use std::alloc::{AllocError, Global};
use std::time::Duration;
use tongues::languages::english::English;
use tongues::{Language, TimeUnit};

/// Tells distances in words: in which language, in how many counts, between which units, and with
/// which words in place of the language's.
#[derive(Clone, Drop)]
pub struct Formatter<L: Language = English> {
    language: L,
    num_items: usize,
    min_unit: TimeUnit,
    max_unit: TimeUnit,
    max_duration: Duration,
    too_low: Option<&'static str>,
    too_high: Option<&'static str>,
    ago: Option<&'static str>,
}

impl Formatter {
    /// A formatter that tells one count in English, from seconds to years, of any distance.
    pub fn new() -> Formatter
        ensures { settings_of result ≡ default_settings }
    {
        Formatter::with_language(English)
    }
}

impl<L: Language> Formatter<L> {
    /// A formatter that tells one count in the language, from seconds to years, of any distance.
    pub fn with_language(l: L) -> Formatter<L>
        ensures language { language_of result ≡ l }
        ensures settings { settings_of result ≡ default_settings }
    {
        Formatter {
            language: l,
            num_items: 1,
            min_unit: TimeUnit::Seconds,
            max_unit: TimeUnit::Years,
            max_duration: Duration::MAX,
            too_low: None,
            too_high: None,
            ago: None,
        }
    }

    /// Tells at most `x` counts.
    pub fn num_items(&mut self, x: usize) -> &mut Self
        requires { 1 ≤ x }
        ensures same { result.ghost_name ≡ self.entry.ghost_name }
        ensures language { language_of result.now ≡ language_of self.old }
        ensures settings { settings_of result.now ≡ record (settings_of self.old) { items = x } }
    {
        self.num_items = x;
        self
    }

    /// Tells no bigger unit, unless the least one is bigger.
    pub fn max_unit(&mut self, x: TimeUnit) -> &mut Self
        ensures same { result.ghost_name ≡ self.entry.ghost_name }
        ensures language { language_of result.now ≡ language_of self.old }
        ensures settings { settings_of result.now
            ≡ record (settings_of self.old) { max_unit = x } }
    {
        self.max_unit = x;
        self
    }

    /// Tells no smaller unit.
    pub fn min_unit(&mut self, x: TimeUnit) -> &mut Self
        ensures same { result.ghost_name ≡ self.entry.ghost_name }
        ensures language { language_of result.now ≡ language_of self.old }
        ensures settings { settings_of result.now
            ≡ record (settings_of self.old) { min_unit = x } }
    {
        self.min_unit = x;
        self
    }

    /// Tells a distance without any count by this word, and for `0` by none of the least unit.
    pub fn too_low(&mut self, x: &'static str) -> &mut Self
        ensures same { result.ghost_name ≡ self.entry.ghost_name }
        ensures language { language_of result.now ≡ language_of self.old }
        ensures settings { settings_of result.now
            ≡ record (settings_of self.old) { low = Some x.entry.now } }
    {
        self.too_low = Some(x);
        self
    }

    /// Tells a distance past the greatest one by this word.
    pub fn too_high(&mut self, x: &'static str) -> &mut Self
        ensures same { result.ghost_name ≡ self.entry.ghost_name }
        ensures language { language_of result.now ≡ language_of self.old }
        ensures settings { settings_of result.now
            ≡ record (settings_of self.old) { high = Some x.entry.now } }
    {
        self.too_high = Some(x);
        self
    }

    /// Tells no distance past this one.
    pub fn max_duration(&mut self, x: Duration) -> &mut Self
        ensures same { result.ghost_name ≡ self.entry.ghost_name }
        ensures language { language_of result.now ≡ language_of self.old }
        ensures settings { settings_of result.now
            ≡ record (settings_of self.old) { max_duration = as_nanos x } }
    {
        self.max_duration = x;
        self
    }

    /// Tells the past by this word, or by none where it is empty.
    pub fn ago(&mut self, x: &'static str) -> &mut Self
        ensures same { result.ghost_name ≡ self.entry.ghost_name }
        ensures language { language_of result.now ≡ language_of self.old }
        ensures settings { settings_of result.now
            ≡ record (settings_of self.old) { past = Some x.entry.now } }
    {
        self.ago = Some(x);
        self
    }

    /// The words of the distance.
    pub fn convert(&self, alloc: Global, d: Duration) -> Result<String, AllocError>
        ensures words { IfOk result (λ text.
            IsWords (L.speech (language_of self.now)) (settings_of self.now)
            (as_nanos d) (string_bytes text)) }
        ensures bound { IfOk result (λ text.
            TellsWithin (L.speech (language_of self.now)) (settings_of self.now)
            (as_nanos d) (string_bytes text)) }
    {
        let mut text = String::new(alloc);
        self.convert_into(&mut text, d)?;
        Ok(text)
    }

    /// Appends the words of the distance. After an error `out` still begins with what it held.
    #[inline(never)]
    pub fn convert_into(&self, out: &mut String, d: Duration) -> Result<(), AllocError>
        ensures words { OnOk result (
            Adds (IsWords (L.speech (language_of self.now)) (settings_of self.now) (as_nanos d))
            (string_bytes out.old) (string_bytes out.new)) }
        ensures err { OnErr result (Keeps (string_bytes out.old) (string_bytes out.new)) }
    {
        let rest = Rest::new(d);
        if rest.is_above(self.max_duration) {
            out.push_str(self.high_word())?;
            return Ok(());
        }
        self.push_told(out, rest)?;
        Ok(())
    }

    // The word for what is too low: the one that is set, or the language's; likewise the next two.
    fn low_word(&self) -> &'static str
        ensures { result.now
            ≡ unwrap_or (settings_of self.now).low (L.speech (language_of self.now)).low }
    {
        match self.too_low {
            Some(word) => word,
            None => self.language.too_low(),
        }
    }

    fn high_word(&self) -> &'static str
        ensures { result.now
            ≡ unwrap_or (settings_of self.now).high (L.speech (language_of self.now)).high }
    {
        match self.too_high {
            Some(word) => word,
            None => self.language.too_high(),
        }
    }

    fn past_word(&self) -> &'static str
        ensures { result.now
            ≡ unwrap_or (settings_of self.now).past (L.speech (language_of self.now)).past }
    {
        match self.ago {
            Some(word) => word,
            None => self.language.ago(),
        }
    }

    // The unit by which a rest is told.
    #[tactic(auto, unfolding(crate::specs::Counts::allowed_unit))]
    fn allowed_unit(&self, rest: &Rest) -> TimeUnit
        ensures { result ≡ allowed_unit (settings_of self.now) rest.now }
    {
        higher_of(self.min_unit, lower_of(rest.biggest_unit(), self.max_unit))
    }

    // Whether no count is told of a distance.
    fn tells_nothing(&self, rest: &Rest) -> bool
        ensures { result ≡ tells_nothing (settings_of self.now) rest.now }
    {
        self.num_items == 0 || rest.is_below(self.min_unit)
    }

    // Appends the text of a distance that is not too high.
    fn push_told(&self, out: &mut String, rest: Rest) -> Result<(), AllocError>
        ensures ok { OnOk result (string_bytes out.new ≡ string_bytes out.old
            ++ told_text (L.speech (language_of self.now)) (settings_of self.now)
            (counted (settings_of self.now) (settings_of self.now).items rest)) }
        ensures err { OnErr result (Keeps (string_bytes out.old) (string_bytes out.new)) }
    {
        if self.tells_nothing(&rest) {
            self.push_low(out)?;
            return Ok(());
        }
        self.push_past_before(out)?;
        self.push_chunks(out, rest)?;
        self.push_past_behind(out)?;
        Ok(())
    }

    // Appends the text of a distance of which nothing is told.
    fn push_low(&self, out: &mut String) -> Result<(), AllocError>
        ensures ok { OnOk result (string_bytes out.new ≡ string_bytes out.old
            ++ told_text (L.speech (language_of self.now)) (settings_of self.now) []) }
        ensures err { OnErr result (Keeps (string_bytes out.old) (string_bytes out.new)) }
    {
        let low = self.low_word();
        if low == "0" {
            return self.push_none(out);
        }
        out.push_str(low)?;
        Ok(())
    }

    // Appends the text that tells none of the least unit.
    #[tactic(auto, using(crate::proofs::Texts::with_past_is))]
    fn push_none(&self, out: &mut String) -> Result<(), AllocError>
        ensures ok { OnOk result (string_bytes out.new ≡ string_bytes out.old
            ++ none_text (L.speech (language_of self.now)) (settings_of self.now)) }
        ensures err { OnErr result (Keeps (string_bytes out.old) (string_bytes out.new)) }
    {
        let between = self.language.between_value_and_word();
        let word = self.language.get_word(self.min_unit, 0);
        self.push_past_before(out)?;
        push_no_count(out, between, word)?;
        self.push_past_behind(out)?;
        Ok(())
    }

    // Appends what the word for the past puts before the counts: itself and a space, or nothing.
    #[tactic(auto, using(crate::proofs::Texts::no_past_before))]
    fn push_past_before(&self, out: &mut String) -> Result<(), AllocError>
        ensures ok { OnOk result (string_bytes out.new ≡ string_bytes out.old
            ++ past_before (L.speech (language_of self.now))
            (unwrap_or (settings_of self.now).past (L.speech (language_of self.now)).past)) }
        ensures err { OnErr result (Keeps (string_bytes out.old) (string_bytes out.new)) }
    {
        if !self.language.place_ago_before() {
            return Ok(());
        }
        let word = self.past_word();
        if word.is_empty() {
            return Ok(());
        }
        out.push_str(word)?;
        push_between(out, self.language.override_space_near_ago())?;
        Ok(())
    }

    // Appends what the word for the past puts behind the counts.
    fn push_past_behind(&self, out: &mut String) -> Result<(), AllocError>
        ensures ok { OnOk result (string_bytes out.new ≡ string_bytes out.old
            ++ past_behind (L.speech (language_of self.now))
            (unwrap_or (settings_of self.now).past (L.speech (language_of self.now)).past)) }
        ensures err { OnErr result (Keeps (string_bytes out.old) (string_bytes out.new)) }
    {
        let word = self.past_word();
        if word.is_empty() || self.language.place_ago_before() {
            return Ok(());
        }
        push_between(out, self.language.override_space_near_ago())?;
        out.push_str(word)?;
        Ok(())
    }

    // Appends what is told of a rest, count by count.
    fn push_chunks(&self, out: &mut String, rest: Rest) -> Result<(), AllocError>
        ensures ok { OnOk result (string_bytes out.new ≡ string_bytes out.old
            ++ chunks (L.speech (language_of self.now)) 0
            (counted (settings_of self.now) (settings_of self.now).items rest)) }
        ensures err { OnErr result (Keeps (string_bytes out.old) (string_bytes out.new)) }
    {
        let mut rest = rest;
        for turn in 0..self.num_items {
            if rest.is_below(self.min_unit) {
                break;
            }
            let unit = self.allowed_unit(&rest);
            let (count, left) = rest.split(unit);
            self.push_before(out, turn)?;
            self.push_chunk(out, unit, count)?;
            rest = left;
        }
        Ok(())
    }

    // Appends what stands before the chunk with this number, from 0.
    fn push_before(&self, out: &mut String, turn: usize) -> Result<(), AllocError>
        ensures ok { OnOk result (string_bytes out.new ≡ string_bytes out.old
            ++ before_chunk (L.speech (language_of self.now)) turn) }
        ensures err { OnErr result (Keeps (string_bytes out.old) (string_bytes out.new)) }
    {
        if turn == 0 {
            return Ok(());
        }
        push_between(out, self.language.between_chunks())?;
        Ok(())
    }

    // Appends a count and its unit's word.
    fn push_chunk(&self, out: &mut String, unit: TimeUnit, count: u64) -> Result<(), AllocError>
        ensures ok { OnOk result (string_bytes out.new ≡ string_bytes out.old
            ++ chunk (L.speech (language_of self.now)) (unit, count)) }
        ensures err { OnErr result (Keeps (string_bytes out.old) (string_bytes out.new)) }
    {
        let between = self.language.between_value_and_word();
        let word = self.language.get_word(unit, count);
        if self.language.place_unit_before(count) {
            out.push_str(word)?;
            push_between(out, between)?;
            push_count(out, count)?;
            return Ok(());
        }
        push_count(out, count)?;
        push_between(out, between)?;
        out.push_str(word)?;
        Ok(())
    }
}

impl Default for Formatter {
    ghost is_default = { λ f. settings_of f ≡ default_settings };

    fn default() -> Formatter {
        Formatter::new()
    }
}

fn lower_of(a: TimeUnit, b: TimeUnit) -> TimeUnit
    ensures { result ≡ lower a b }
{
    if a.nanos() <= b.nanos() { a } else { b }
}

fn higher_of(a: TimeUnit, b: TimeUnit) -> TimeUnit
    ensures { result ≡ higher a b }
{
    if a.nanos() <= b.nanos() { b } else { a }
}
