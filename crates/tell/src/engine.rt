//! What replies to the lines of the command `at`.
ghost use Rattle.std.specs.Prelude.{◌≡◌, IfOk};
ghost use Rattle.tongues.specs.Any.{any_speech};
ghost use Rattle.tell.specs.Inside.Engines.{Dates, dates};

use crate::reply::push_reply;
use crate::teller::Teller;
use std::alloc::{AllocError, Global};
use std::marker::Model;
use streams::Answer;
use timeago::AnyLanguage;
use zoneinfo64::{CheckedZones, ZoneInfo64};

/// Replies to lines of dates, in the zones of a bundle and in one language.
///
/// Each zone is checked when this is made, and no line checks one again.
#[derive(Drop)]
pub struct AtEngine {
    zones: CheckedZones,
    teller: Teller,
}

impl Model for AtEngine {
    ghost Value = { Dates };

    ghost view = { λ engine. dates engine.teller engine.zones };
}

impl AtEngine {
    pub fn new(
        alloc: Global,
        language: AnyLanguage,
        zones: ZoneInfo64,
    ) -> Result<AtEngine, AllocError>
        ensures { IfOk result (λ engine. engine ≡ dates language zones) }
    {
        let zones = CheckedZones::new(alloc, zones)?;
        Ok(AtEngine {
            zones,
            teller: Teller::new(language),
        })
    }
}

impl Answer for AtEngine {
    ghost use Rattle.tell.specs.ReplyTexts.{IsReply};
    ghost use Rattle.tell.specs.LongLines.{at_cuts_long_lines};

    ghost reply = { λ engine. IsReply (any_speech engine.language) engine.zones };

    fn answer(&self, alloc: Global, line: &[u8]) -> Result<String, AllocError> {
        let mut text = String::new(alloc);
        self.answer_into(alloc, line, &mut text)?;
        Ok(text)
    }

    fn answer_into(
        &self,
        _alloc: Global,
        line: &[u8],
        replies: &mut String,
    ) -> Result<(), AllocError> {
        push_reply(replies, &self.teller, &self.zones, line)
    }

    ghost cuts_long_lines = { λ engine.
        at_cuts_long_lines (any_speech engine.language) engine.zones };
}
