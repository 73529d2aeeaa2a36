ghost use Rattle.std.specs.Prelude.{◌≡◌, ◌^◌, ◌<◌, MatchOption, IfSome, slice_index, length};
ghost use Rattle.std.specs.Str.{IsUtf8};
ghost use Rattle.tell.specs.Fields.{without_cr, cut as cut_of, text_fields as fields_of_text, fields_of};
ghost use Rattle.tell.specs.Inside.FieldsView.{option_view, number_cut, base_cut, dialect_cut};

use interim::Dialect;
use memchr::memchr;
use std::str::{from_utf8, from_utf8_unchecked};

/// The four fields of a line, borrowed from it.
#[derive(Clone, Copy)]
pub struct Fields<'a> {
    /// The name of a zone.
    pub zone: &'a str,
    /// Seconds since 1970-01-01 00:00 UTC, from which the distance is told.
    pub base: i64,
    pub dialect: Dialect,
    /// All after the third tab.
    pub phrase: &'a str,
}

// In bytes, without the LF.
const LONGEST_LINE: usize = 1024;

#[tactic(auto, using(crate::proofs::FieldCuts::without_cr_is))]
pub fn without_cr(line: &[u8]) -> &[u8]
    ensures { result.now ≡ without_cr line.now }
{
    let [front @ .., last] = line else {
        return line;
    };
    if *last == b'\r' { front } else { line }
}

// The bytes as text; most are ASCII, which is told at once.
#[tactic(auto, using(crate::proofs::FieldCuts::texts))]
#[inline(always)]
fn text_of(bytes: &[u8]) -> Option<&str>
    ensures { MatchOption result (IsUtf8 bytes.now → ⊥)
        (λ text. (text.now ≡ bytes.now) × IsUtf8 bytes.now) }
{
    if bytes.is_ascii() {
        return Some(unsafe { from_utf8_unchecked(bytes) });
    }
    from_utf8(bytes).ok()
}

// The parts before and after the first tab.
#[tactic(auto, using(crate::proofs::FieldCuts::cuts))]
#[inline(always)]
fn cut(text: &str) -> Option<(&str, &str)>
    ensures { MatchOption result (cut_of text.now ≡ None)
        (λ parts. cut_of text.now ≡ Some (parts.0.now, parts.1.now)) }
{
    let at = memchr(b'\t', text.as_bytes())?;
    Some((&text[..at], &text[at + 1..]))
}

// The number that 1 to 12 digits write before the first tab, and how many they are.
#[tactic(auto, using(crate::proofs::FieldCuts::ten_to))]
#[inline(always)]
fn number(bytes: &[u8]) -> Option<(u64, usize)>
    ensures value { MatchOption result (number_cut bytes.now ≡ None)
        (λ read. number_cut bytes.now ≡ Some (read.0, read.1)) }
    ensures bound { IfSome result (λ read. read.0 < 10 ^ 12) }
    ensures len { IfSome result (λ read. read.1 < length bytes.now) }
    ensures tab { IfSome result (λ read. slice_index bytes.now read.1 ≡ 9) }
{
    let most = bytes.len().min(12);
    let mut value = 0;
    let mut count = 0;
    while count < most && bytes[count].is_ascii_digit() {
        value = 10 * value + u64::from(bytes[count] - b'0');
        count += 1;
    }
    if count == 0 || count == bytes.len() || bytes[count] != b'\t' {
        return None;
    }
    Some((value, count))
}

// A number before the first tab, perhaps with a minus sign, and what follows the tab.
#[tactic(auto, using(crate::proofs::FieldCuts::lead_behind, crate::proofs::FieldCuts::base_cut_signed))]
#[inline(never)]
fn base(text: &str) -> Option<(i64, &str)>
    ensures { MatchOption result (base_cut text.now ≡ None)
        (λ read. base_cut text.now ≡ Some (read.0, read.1.now)) }
{
    match text.as_bytes() {
        [b'-', digits @ ..] => {
            let (number, count) = number(digits)?;
            Some((-(number as i64), &text[count + 2..]))
        }
        digits => {
            let (number, count) = number(digits)?;
            Some((number as i64, &text[count + 1..]))
        }
    }
}

// A dialect before the first tab, and what follows the tab.
#[tactic(auto, using(crate::proofs::FieldCuts::lead_behind))]
#[inline(always)]
fn dialect(text: &str) -> Option<(Dialect, &str)>
    ensures { MatchOption result (dialect_cut text.now ≡ None)
        (λ read. dialect_cut text.now ≡ Some (read.0, read.1.now)) }
{
    match text.as_bytes() {
        [b'u', b'k', b'\t', ..] => Some((Dialect::Uk, &text[3..])),
        [b'u', b's', b'\t', ..] => Some((Dialect::Us, &text[3..])),
        _ => None,
    }
}

#[tactic(auto, using(crate::proofs::FieldCuts::text_fields_cuts))]
#[inline(always)]
fn text_fields(text: &str) -> Option<Fields<'_>>
    ensures { option_view result ≡ fields_of_text text.now }
{
    let (zone, rest) = cut(text)?;
    let (base, rest) = base(rest)?;
    let (dialect, phrase) = dialect(rest)?;
    Some(Fields {
        zone,
        base,
        dialect,
        phrase,
    })
}

#[tactic(auto, using(crate::proofs::FieldCuts::texts), unfolding(crate::specs::Fields::fields_of))]
/// The four fields of a line: zone, base, dialect and phrase, with a tab between two of them.
///
/// The line has at most 1,024 bytes, and one CR at its end is dropped. The rest is UTF-8; the base is 1 to 12 digits,
/// perhaps behind a minus sign; the dialect is `uk` or `us`. None where the line is not so.
pub fn split_fields(line: &[u8]) -> Option<Fields<'_>>
    ensures { option_view result ≡ fields_of line.now }
{
    if line.len() > LONGEST_LINE {
        return None;
    }
    match text_of(without_cr(line)) {
        Some(text) => text_fields(text),
        None => None,
    }
}
