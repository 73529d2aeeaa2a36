//! The rules of a bundle by their keys.
ghost use Rattle.std.specs.Prelude.{◌≡◌, IfOk, option_map};
ghost use Rattle.std.specs.Option.{option_copied};
ghost use Rattle.resb_tree.specs.Contents.{integers_in};
ghost use Rattle.zoneinfo64.specs.Inside.Steps.{Reads};
ghost use Rattle.zoneinfo64.specs.Inside.RuleSteps.{ReadsRules, rule_in};
ghost use Rattle.zoneinfo64.specs.RuleFields.{rules_of, raw_rule};
ghost use Rattle.zoneinfo64.specs.Inside.RuleView.{rule_for};

use crate::error::BinaryDeserializerError;
use crate::rule_words::dates;
use crate::utf16::PotentialUtf16;
use resb_tree::{EntriesRef, KeyRef, ResourceRef, TextRef};
use std::alloc::{AllocError, Global};
use std::collections::BTreeMap;
use timeline::PlacedDates;

/// The rules by their keys, whose bytes are compared with the units of a text.
pub type Rules = BTreeMap<Vec<u16>, PlacedDates>;

/// A key as units.
fn units(alloc: Global, key: &KeyRef<'_>) -> Result<Vec<u16>, AllocError>
    ensures { IfOk result (λ v. v.items ≡ key.now) }
{
    let bytes = key.to_items(alloc)?;
    let mut units = Vec::with_capacity(alloc, bytes.len())?;
    for byte in bytes.as_slice() {
        units.push(u16::from(*byte))?;
    }
    Ok(units)
}

/// The rule of a list of eleven integers.
#[tactic(auto, unfolding(crate::specs::Inside::RuleSteps::rule_in))]
fn rule(value: &ResourceRef<'_>) -> Result<PlacedDates, BinaryDeserializerError>
    ensures { Reads (λ r. r) result (rule_in value.now) }
{
    let Some(words) = value.integers() else {
        return Err(BinaryDeserializerError::Rules);
    };
    match dates(words) {
        Some(dates) => Ok(PlacedDates::new(dates)),
        None => Err(BinaryDeserializerError::Rules),
    }
}

/// All rules of a bundle. Of rules with one key the first counts, so they are put in from the last on.
pub fn rules(alloc: Global, entries: &EntriesRef<'_>) -> Result<Rules, BinaryDeserializerError>
    ensures { ReadsRules result (rules_of entries.now) }
{
    let mut rules = BTreeMap::new(alloc);
    let mut at = entries.len();
    while at > 0 {
        at -= 1;
        let (key, value) = entries.at(at);
        let dates = rule(&value)?;
        let key = units(alloc, &key)?;
        rules.insert(key, dates)?;
    }
    Ok(rules)
}

/// The rule whose key is a text. The text's units are copied to be looked up, and a short text's take no memory.
pub fn rule_by_text<'r>(
    alloc: Global,
    rules: &'r Rules,
    text: &TextRef<'_>,
) -> Result<Option<&'r PlacedDates>, AllocError>
    ensures { IfOk result (λ found. option_copied found ≡ rule_for rules.now text.now) }
{
    let name = PotentialUtf16::from_text(alloc, text)?;
    Ok(rules.get(name.units()))
}
