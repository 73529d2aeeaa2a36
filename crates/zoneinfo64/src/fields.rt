//! The fields of a zone.
ghost use Rattle.std.specs.Prelude.{◌≡◌, ℕ, ◌+◌, ◌<◌, ◌≤◌, ◌++◌, ◌↔◌, All, map, IsTrue, IfOk, IfSome, length, vec_len, vec_capacity};
ghost use Rattle.timeline.specs.Table.{sums_fit};
ghost use Rattle.zoneinfo64.specs.Regions.{region_byte, region_byte_at, region_of};
ghost use Rattle.zoneinfo64.specs.Inside.Steps.{Reads};
ghost use Rattle.zoneinfo64.specs.Inside.ListSteps.{wide, wide_second, seconds_of, plain_seconds, AreKnown};
ghost use Rattle.zoneinfo64.specs.Inside.FromParts.{offsets_in, words_in, numbers_in, wide_in, zone_in};
ghost use Rattle.zoneinfo64.specs.RuleDates.{as_i32};
ghost use Rattle.zoneinfo64.specs.RuleFields.{used_rule, rule_fields};
ghost use Rattle.zoneinfo64.specs.ZoneLists.{pair_of, offset_pairs};
ghost use Rattle.zoneinfo64.specs.ZoneFields.{plain_zone_of};
ghost use Rattle.zoneinfo64.specs.Inside.RuleView.{rule_for};

use crate::error::BinaryDeserializerError;
use crate::parts::{ZoneParts, zone_parts};
use crate::region::Region;
use crate::rule_words::signed;
use crate::rules::{Rules, rule_by_text};
use resb_tree::{ResourceRef, TextRef};
use sqlite_items::Items;
use std::alloc::{AllocError, Global};
use timeline::{Seconds, ZoneData, ZoneRule};

/// A unit of a region as a byte, 0 where it is not ASCII.
fn region_byte(unit: u16) -> u8
    ensures { result ≡ region_byte unit }
{
    if unit < 128 { unit as u8 } else { 0 }
}

/// The nth unit as a byte, 0 where there is none.
fn region_byte_at(units: &TextRef<'_>, n: usize) -> u8
    ensures { result ≡ region_byte_at units.now n }
{
    match units.get(n) {
        Some(unit) => region_byte(unit),
        None => 0,
    }
}

/// The region of a text: two capitals, or three digits.
#[tactic(auto, using(crate::proofs::Regions::region_is))]
pub fn region_of(units: &TextRef<'_>) -> Option<Region>
    ensures { result ≡ region_of units.now }
{
    // A pair of surrogates is one character, which counts as 0, and so do its units.
    Region::try_from_raw([
        region_byte_at(units, 0),
        region_byte_at(units, 1),
        region_byte_at(units, 2),
    ])
}

/// Standard offset and extra, where their sum fits.
fn pair_of(standard: u32, extra: u32) -> Option<(i32, i32)>
    ensures { result ≡ pair_of standard extra }
{
    let standard = signed(standard);
    let extra = signed(extra);
    standard.checked_add(extra)?;
    Some((standard, extra))
}

/// The pairs of words, standard offset and extra.
fn offset_pairs(alloc: Global, words: &[u32]) -> Result<Vec<(i32, i32)>, BinaryDeserializerError>
    ensures pairs { Reads (λ v. v.items) result (offset_pairs words.now) }
    ensures fit { IfOk result (λ v. IsTrue (sums_fit v.items)) }
{
    let mut pairs = Vec::with_capacity(alloc, words.len() / 2)?;
    let mut rest = words;
    while let [standard, extra, more @ ..] = rest {
        let Some(pair) = pair_of(*standard, *extra) else {
            return Err(BinaryDeserializerError::Rules);
        };
        pairs.push(pair)?;
        rest = more;
    }
    if rest.is_empty() {
        Ok(pairs)
    } else {
        Err(BinaryDeserializerError::Rules)
    }
}

/// The pairs of offsets of a field, which has to be there.
#[tactic(auto, unfolding(crate::specs::Inside::FromParts::offsets_in))]
fn type_offsets(
    alloc: Global,
    part: &Option<ResourceRef<'_>>,
) -> Result<Vec<(i32, i32)>, BinaryDeserializerError>
    ensures pairs { Reads (λ v. v.items) result (offsets_in part.now) }
    ensures fit { IfOk result (λ v. IsTrue (sums_fit v.items)) }
{
    let Some(field) = part else {
        return Err(BinaryDeserializerError::Rules);
    };
    let Some(words) = field.integers() else {
        return Err(BinaryDeserializerError::Rules);
    };
    offset_pairs(alloc, words)
}

/// A list of integers, empty where it is missing.
#[tactic(auto, unfolding(crate::specs::Inside::FromParts::words_in))]
fn integers<'a>(part: &Option<ResourceRef<'a>>) -> Result<&'a [u32], BinaryDeserializerError>
    ensures { Reads (λ r. r.now) result (words_in part.now) }
{
    let Some(field) = part else {
        return Ok(&[]);
    };
    match field.integers() {
        Some(words) => Ok(words),
        None => Err(BinaryDeserializerError::Rules),
    }
}

/// A copy of a list of bytes, empty where it is missing.
#[tactic(auto, unfolding(crate::specs::Inside::FromParts::numbers_in))]
fn bytes(
    alloc: Global,
    part: &Option<ResourceRef<'_>>,
) -> Result<Items<u8>, BinaryDeserializerError>
    ensures { Reads (λ items. items) result (numbers_in part.now) }
{
    let Some(field) = part else {
        return Ok(Items::new(alloc));
    };
    let Some(bytes) = field.bytes() else {
        return Err(BinaryDeserializerError::Rules);
    };
    let items = bytes.to_items(alloc)?;
    Ok(items)
}

/// The words of a list of seconds, two each, empty where it is missing.
#[tactic(auto, unfolding(crate::specs::Inside::FromParts::wide_in))]
fn wide<'a>(part: &Option<ResourceRef<'a>>) -> Result<&'a [u32], BinaryDeserializerError>
    ensures { Reads (λ r. wide r.now) result (wide_in part.now) }
{
    let words = integers(part)?;
    if words.len() % 2 == 0 {
        Ok(words)
    } else {
        Err(BinaryDeserializerError::Rules)
    }
}

/// How many seconds the words are.
fn wide_len(words: &[u32]) -> usize
    ensures { result ≡ length (wide words.now) }
{
    words.len() / 2
}

/// A second of two words.
fn wide_second(high: u32, low: u32) -> i64
    ensures { result ≡ wide_second high low }
{
    i64::from(signed(high)) * 4_294_967_296 + i64::from(low)
}

/// Appends seconds of two words each.
fn push_wide(list: &mut Vec<i64>, words: &[u32])
    requires room { vec_len list.old + length (wide words.now) ≤ vec_capacity list.old }
    ensures items { list.new.items ≡ list.old.items ++ wide words.now }
    ensures room { vec_capacity list.new ≡ vec_capacity list.old }
{
    let mut rest = words;
    while let [high, low, more @ ..] = rest {
        list.push_reserved(wide_second(*high, *low));
        rest = more;
    }
}

/// Appends seconds of one word each.
fn push_narrow(list: &mut Vec<i64>, words: &[u32])
    requires room { vec_len list.old + length words.now ≤ vec_capacity list.old }
    ensures items { list.new.items ≡ list.old.items ++ map as_i32 words.now }
    ensures room { vec_capacity list.new ≡ vec_capacity list.old }
{
    let mut rest = words;
    while let [word, more @ ..] = rest {
        list.push_reserved(i64::from(signed(*word)));
        rest = more;
    }
}

/// Whether three lists of words are so many seconds.
fn have_len(early: &[u32], middle: &[u32], late: &[u32], len: usize) -> bool
    ensures { IsTrue result ↔ (len ≡ length (seconds_of early.now middle.now late.now)) }
{
    let (first, last) = (wide_len(early), wide_len(late));
    first <= len && middle.len() <= len - first && len - first - middle.len() == last
}

/// The seconds of three lists of words, so many in all.
fn seconds(
    alloc: Global,
    early: &[u32],
    middle: &[u32],
    late: &[u32],
    len: usize,
) -> Result<Seconds, AllocError>
    requires { len ≡ length (seconds_of early.now middle.now late.now) }
    ensures { IfOk result (λ s. s ≡ plain_seconds early.now middle.now late.now) }
{
    let mut list = Vec::with_capacity(alloc, len)?;
    push_wide(&mut list, early);
    push_narrow(&mut list, middle);
    push_wide(&mut list, late);
    Ok(Seconds::new(list, wide_len(early), wide_len(late)))
}

/// The largest number, 0 where there is none. The loop has no exit, so that it takes many at once.
fn largest(numbers: &[u8]) -> u8
    ensures bound { All (λ n. n ≤ result) numbers.now }
    ensures least { (len : ℕ) → 0 < len → All (λ n. n < len) numbers.now → result < len }
{
    let mut largest = 0;
    for number in numbers {
        if *number > largest {
            largest = *number;
        }
    }
    largest
}

/// Whether each number is below that length.
fn are_below(numbers: &[u8], len: usize) -> bool
    ensures { IsTrue result ↔ All (λ n. n < len) numbers.now }
{
    numbers.is_empty() || usize::from(largest(numbers)) < len
}

/// Whether each second of three lists of words has the number of a pair.
fn are_entries(
    pairs: &[(i32, i32)],
    early: &[u32],
    middle: &[u32],
    late: &[u32],
    numbers: &[u8],
) -> bool
    ensures { IsTrue result
        ↔ AreKnown pairs.now (seconds_of early.now middle.now late.now) numbers.now }
{
    have_len(early, middle, late, numbers.len()) && are_below(numbers, pairs.len())
}

/// The rule that a zone names. Apart, since many zones name none.
#[tactic(auto, unfolding(crate::specs::RuleFields::used_rule))]
#[inline(never)]
fn used_rule(
    alloc: Global,
    rules: &Rules,
    key: &ResourceRef<'_>,
    raw: &ResourceRef<'_>,
    year: &ResourceRef<'_>,
) -> Result<ZoneRule, BinaryDeserializerError>
    ensures { Reads (λ r. r) result (used_rule (rule_for rules.now) key.now raw.now year.now) }
{
    let Some(text) = key.text() else {
        return Err(BinaryDeserializerError::Rules);
    };
    let Some(raw) = raw.signed() else {
        return Err(BinaryDeserializerError::Rules);
    };
    let Some(first_year) = year.signed() else {
        return Err(BinaryDeserializerError::Rules);
    };
    let Some(dates) = rule_by_text(alloc, rules, &text)? else {
        return Err(BinaryDeserializerError::Rules);
    };
    match ZoneRule::from_dates(dates, raw, first_year) {
        Some(rule) => Ok(rule),
        None => Err(BinaryDeserializerError::Rules),
    }
}

/// The rule of a zone, if it has the three fields of one.
fn zone_rule(
    alloc: Global,
    rules: &Rules,
    key: &Option<ResourceRef<'_>>,
    raw: &Option<ResourceRef<'_>>,
    year: &Option<ResourceRef<'_>>,
) -> Result<Option<ZoneRule>, BinaryDeserializerError>
    ensures { Reads (λ r. r) result (rule_fields (rule_for rules.now) key.now raw.now year.now) }
{
    match (key, raw, year) {
        (None, None, None) => Ok(None),
        (Some(key), Some(raw), Some(year)) => {
            let rule = used_rule(alloc, rules, key, raw, year)?;
            Ok(Some(rule))
        }
        _ => Err(BinaryDeserializerError::Rules),
    }
}

/// A zone from the table of its fields.
pub fn zone_data(
    alloc: Global,
    rules: &Rules,
    zone: &ResourceRef<'_>,
) -> Result<ZoneData, BinaryDeserializerError>
    ensures { Reads (λ z. z) result (plain_zone_of (rule_for rules.now) zone.now) }
{
    let parts = zone_parts(zone);
    zone_from(alloc, rules, &parts)
}

/// A zone from its fields. What is kept of them is copied, once each.
#[tactic(auto, unfolding(crate::specs::Inside::FromParts::zone_in))]
fn zone_from(
    alloc: Global,
    rules: &Rules,
    parts: &ZoneParts<'_>,
) -> Result<ZoneData, BinaryDeserializerError>
    ensures { Reads (λ z. z) result (zone_in (rule_for rules.now) parts.now) }
{
    let type_offsets = type_offsets(alloc, &parts.type_offsets)?;
    let pairs = type_offsets.as_slice();
    if pairs.is_empty() {
        return Err(BinaryDeserializerError::Rules);
    }
    let early = wide(&parts.trans_pre32)?;
    let middle = integers(&parts.trans)?;
    let late = wide(&parts.trans_post32)?;
    let type_map = bytes(alloc, &parts.type_map)?;
    let link_words = integers(&parts.links)?;
    let numbers = type_map.as_slice();
    if !are_entries(pairs, early, middle, late, numbers) {
        return Err(BinaryDeserializerError::Rules);
    }
    let seconds = seconds(alloc, early, middle, late, numbers.len())?;
    let rule = zone_rule(
        alloc,
        rules,
        &parts.final_rule,
        &parts.final_raw,
        &parts.final_year,
    )?;
    let links = Items::from_slice(alloc, link_words)?;
    Ok(ZoneData::new(seconds, rule, type_offsets, type_map, links))
}
