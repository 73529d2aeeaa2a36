ghost use Rattle.std.specs.Prelude.{◌≡◌, ℕ, List, Bool};
ghost use Rattle.tongues.specs.Speech.{Speech};
ghost use Rattle.tongues.specs.Layouts.{IsLaidOut};
ghost use Rattle.tongues.specs.Text.{text};

use crate::unit::TimeUnit;

/// Where a language puts its words and spaces.
#[derive(Clone, Copy)]
pub struct Layout {
    /// Whether the word for the past stands before the counts.
    pub ago_before: bool,
    /// What stands between the word for the past and the counts.
    pub space_near_ago: &'static str,
    /// What stands between two counts.
    pub between_chunks: &'static str,
    /// What stands between a count and its unit's word.
    pub between_value_and_word: &'static str,
    /// Whether the unit's word stands before the count.
    pub unit_before: bool,
}

impl Layout {
    /// One space between any two words, counts before their units, the word for the past last.
    pub fn usual() -> Layout
        ensures ago_before { result.ago_before ≡ Bool.false }
        ensures space_near_ago { result.space_near_ago.now ≡ text " " }
        ensures between_chunks { result.between_chunks.now ≡ text " " }
        ensures between_value_and_word { result.between_value_and_word.now ≡ text " " }
        ensures unit_before { result.unit_before ≡ Bool.false }
    {
        Layout {
            ago_before: false,
            space_near_ago: " ",
            between_chunks: " ",
            between_value_and_word: " ",
            unit_before: false,
        }
    }
}

/// A language that distances are told in.
///
/// A language says its words by the first four calls, and by `layout` where it puts them; the last
/// five read `layout`, and a language may write them itself.
pub trait Language: Drop {
    /// All that the language says.
    ghost speech: { Self → Speech };

    /// The word for a distance that is too low to tell.
    fn too_low(&self) -> &'static str
        ensures { result.now ≡ (speech self.now).low };

    /// The word for a distance that is too high to tell.
    fn too_high(&self) -> &'static str
        ensures { result.now ≡ (speech self.now).high };

    /// The word for the past.
    fn ago(&self) -> &'static str
        ensures { result.now ≡ (speech self.now).past };

    /// The unit's word beside the count `x`.
    fn get_word(&self, tu: TimeUnit, x: u64) -> &'static str
        ensures { result.now ≡ (speech self.now).word tu x };

    /// Where the language puts its words and spaces, beside the count `x`.
    fn layout(&self, x: u64) -> Layout
        ensures { IsLaidOut (speech self.now) x result };

    /// Whether the word for the past stands before the counts.
    fn place_ago_before(&self) -> bool
        ensures { result ≡ (speech self.now).past_first }
    {
        self.layout(0).ago_before
    }

    /// What stands between the word for the past and the counts.
    fn override_space_near_ago(&self) -> &str
        ensures { result.now ≡ (speech self.now).near_past }
    {
        self.layout(0).space_near_ago
    }

    /// What stands between two counts.
    fn between_chunks(&self) -> &str
        ensures { result.now ≡ (speech self.now).between_chunks }
    {
        self.layout(0).between_chunks
    }

    /// What stands between a count and its unit's word.
    fn between_value_and_word(&self) -> &str
        ensures { result.now ≡ (speech self.now).between_value_and_word }
    {
        self.layout(0).between_value_and_word
    }

    /// Whether the unit's word stands before the count `x`.
    fn place_unit_before(&self, x: u64) -> bool
        ensures { result ≡ (speech self.now).unit_first x }
    {
        self.layout(x).unit_before
    }
}

/// A language that the caller boxed.
pub type BoxedLanguage = Box<dyn Language>;

impl Language for BoxedLanguage {
    ghost speech = { λ b. (Language-box b).speech b.value };

    fn too_low(&self) -> &'static str {
        (**self).too_low()
    }

    fn too_high(&self) -> &'static str {
        (**self).too_high()
    }

    fn ago(&self) -> &'static str {
        (**self).ago()
    }

    fn get_word(&self, tu: TimeUnit, x: u64) -> &'static str {
        (**self).get_word(tu, x)
    }

    fn layout(&self, x: u64) -> Layout {
        (**self).layout(x)
    }
}
