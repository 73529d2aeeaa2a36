//! What replies to the lines of the command `ago`.
ghost use Rattle.std.specs.Prelude.{◌≡◌, ◌≤◌, OnOk, length};
ghost use Rattle.std.specs.String.{string_bytes};
ghost use Rattle.streams.specs.Whole.{Adds};
ghost use Rattle.tongues.specs.Any.{any_speech};
ghost use Rattle.tongues.specs.declared.any.AnyLanguage.{AnyLanguage};
ghost use Rattle.timeago.specs.Formatters.{settings_of, language_of};
ghost use Rattle.timeago.specs.Settings.{three_count_settings};
ghost use Rattle.tell.specs.Fields.{digits_from};
ghost use Rattle.tell.specs.Ago.{seconds_of, digits_number, IsAgoAnswer};

use crate::fields::without_cr;
use std::alloc::{AllocError, Global};
use std::marker::Model;
use std::time::Duration;
use streams::Answer;
use timeago::{AnyLanguage, Formatter};

// So many digits hold the greatest number that is answered.
const MOST_DIGITS: usize = 20;

const TOLD_COUNTS: usize = 3;

#[tactic(auto, using(crate::proofs::FieldCuts::ten_to))]
/// The number that at most 19 digits write: 64 bits hold it.
fn short_number(digits: &[u8]) -> Option<u64>
    requires { length digits.now ≤ 19 }
    ensures { result ≡ digits_from 0 digits.now }
{
    let mut value = 0;
    for digit in digits {
        if !digit.is_ascii_digit() {
            return None;
        }
        value = 10 * value + u64::from(digit - b'0');
    }
    Some(value)
}

#[tactic(auto, using(crate::proofs::FieldCuts::ten_to))]
/// The number that at most 20 digits write, which 64 bits need not hold.
fn long_number(digits: &[u8]) -> Option<u128>
    requires { length digits.now ≤ 20 }
    ensures { result ≡ digits_from 0 digits.now }
{
    let mut value = 0;
    for digit in digits {
        if !digit.is_ascii_digit() {
            return None;
        }
        value = 10 * value + u128::from(digit - b'0');
    }
    Some(value)
}

/// The number that 1 to 20 digits write.
pub fn number(digits: &[u8]) -> Option<u128>
    ensures { result ≡ digits_number digits.now }
{
    if digits.is_empty() || digits.len() > MOST_DIGITS {
        return None;
    }
    if digits.len() == MOST_DIGITS {
        return long_number(digits);
    }
    match short_number(digits) {
        Some(value) => Some(u128::from(value)),
        None => None,
    }
}

#[tactic(auto, unfolding(crate::specs::Ago::seconds_of))]
/// The seconds that a line names: a number of 1 to 20 digits, where it has at most 64 bits. One CR at the line's end is
/// dropped.
fn seconds_of(line: &[u8]) -> Option<u64>
    ensures { result ≡ seconds_of line.now }
{
    match u64::try_from(number(without_cr(line))?) {
        Ok(seconds) => Some(seconds),
        Err(_) => None,
    }
}

/// Replies to lines of seconds, each told as a distance to the past in one language.
#[derive(Drop)]
pub struct AgoEngine {
    formatter: Formatter<AnyLanguage>,
}

impl Model for AgoEngine {
    ghost Value = { AnyLanguage };

    ghost view = { λ engine. language_of engine.formatter };

    ghost invariant = { λ engine. settings_of engine.formatter ≡ three_count_settings };
}

impl AgoEngine {
    pub fn new(language: AnyLanguage) -> AgoEngine
        ensures { result ≡ language }
    {
        let mut formatter = Formatter::with_language(language);
        formatter.num_items(TOLD_COUNTS);
        AgoEngine { formatter }
    }

    // Appends the answer to a line.
    fn push_answer(&self, out: &mut String, line: &[u8]) -> Result<(), AllocError>
        ensures { OnOk result (Adds (IsAgoAnswer (any_speech self.now) line.now)
            (string_bytes out.old) (string_bytes out.new)) }
    {
        match seconds_of(line) {
            Some(seconds) => self
                .formatter
                .convert_into(out, Duration::from_secs(seconds)),
            None => out.push_str("! bad line"),
        }
    }
}

impl Answer for AgoEngine {
    ghost use Rattle.tell.specs.Ago.{IsAgoReply};
    ghost use Rattle.tell.specs.LongLines.{ago_cuts_long_lines};

    ghost reply = { λ language. IsAgoReply (any_speech language) };

    fn answer(&self, alloc: Global, line: &[u8]) -> Result<String, AllocError> {
        let mut text = String::new(alloc);
        self.answer_into(alloc, line, &mut text)?;
        Ok(text)
    }

    fn answer_into(
        &self,
        _alloc: Global,
        line: &[u8],
        replies: &mut String,
    ) -> Result<(), AllocError> {
        self.push_answer(replies, line)?;
        replies.push('\n')?;
        Ok(())
    }

    ghost cuts_long_lines = { λ language. ago_cuts_long_lines (any_speech language) };
}
