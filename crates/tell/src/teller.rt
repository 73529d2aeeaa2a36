//! The two formatters by which a command tells distances.
ghost use Rattle.std.specs.Prelude.{◌≡◌, OnOk};
ghost use Rattle.std.specs.String.{string_bytes};
ghost use Rattle.std.specs.Duration.{as_nanos};
ghost use Rattle.tongues.specs.Any.{any_speech};
ghost use Rattle.timeago.specs.Appended.{Adds};
ghost use Rattle.tell.specs.Voices.{IsToldBy, voice_for, voices_of};

use crate::lead::Lead;
use std::alloc::AllocError;
use std::marker::Model;
use timeago::{AnyLanguage, Formatter};

/// One formatter to the past and one ahead, of one language, seen as that language.
#[derive(Drop)]
pub struct Teller {
    past: Formatter<AnyLanguage>,
    ahead: Formatter<AnyLanguage>,
}

impl Model for Teller {
    ghost use Rattle.timeago.specs.Formatters.{language_of};
    ghost use Rattle.tongues.specs.declared.any.AnyLanguage.{AnyLanguage};
    ghost use Rattle.tell.specs.Inside.Tellers.{IsTeller};

    ghost Value = { AnyLanguage };

    ghost view = { λ a. language_of a.past };

    ghost invariant = { λ a. IsTeller a.past a.ahead };
}

impl Teller {
    /// One count, as the language tells it; ahead of the base without a word for the past.
    pub fn new(language: AnyLanguage) -> Teller
        ensures { result ≡ language }
    {
        let past = Formatter::with_language(language);
        let mut ahead = Formatter::with_language(language);
        ahead.ago("");
        Teller { past, ahead }
    }

    /// Appends the words of a distance.
    pub fn push_told(&self, out: &mut String, lead: Lead) -> Result<(), AllocError>
        ensures { OnOk result
            (Adds (IsToldBy (voice_for (voices_of (any_speech self.now)) lead.ahead)
            (as_nanos lead.distance))
            (string_bytes out.old) (string_bytes out.new)) }
    {
        if lead.ahead {
            self.ahead.convert_into(out, lead.distance)
        } else {
            self.past.convert_into(out, lead.distance)
        }
    }
}
