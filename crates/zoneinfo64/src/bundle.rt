//! The zones of a bundle.
ghost use Rattle.std.specs.Prelude.{◌≡◌, ◌<◌, ◌++◌, ◌∷◌, [], length, IfOk, is_some, vec_len, vec_capacity};
ghost use Rattle.zoneinfo64.specs.NamedZone.{zone_at};
ghost use Rattle.resb_tree.specs.Header.{tree_of};
ghost use Rattle.zoneinfo64.specs.Bundle.{rises, is_resolved, all_resolved, array_in, table_in, are_arrays, checked_zones, zone_list, zones_of_words};
ghost use Rattle.zoneinfo64.specs.ZoneNames.{named_zones, named_zone};
ghost use Rattle.zoneinfo64.specs.Inside.Steps.{Reads};
ghost use Rattle.zoneinfo64.specs.Inside.ListSteps.{with_next};
ghost use Rattle.zoneinfo64.specs.Inside.ZoneSteps.{is_before, own_zone};
ghost use Rattle.zoneinfo64.specs.Inside.RuleView.{rule_for};
ghost use Rattle.zoneinfo64.specs.Inside.ZoneList.{zones_of, named_of, place_of_item, AreEntries};

use crate::error::BinaryDeserializerError;
use crate::fields::{region_of, zone_data};
use crate::region::Region;
use crate::rules::{Rules, rules};
use crate::utf16::PotentialUtf16;
use crate::zone::{Item, Named, ZoneInfo64};
use resb_tree::{Bundle, EntriesRef, ItemsRef, ResbError, ResourceRef, TextRef};
use std::alloc::{AllocError, Global};

/// Appends an entry of a name. It is made where it is called, so that a zone's data is moved once.
#[inline(always)]
fn push_entry(
    alloc: Global,
    name: &TextRef<'_>,
    region: Region,
    item: Item,
    entries: &mut Vec<Named>,
) -> Result<(), AllocError>
    requires { vec_len entries.old < vec_capacity entries.old }
    ensures zones { IfOk result (λ u. zones_of entries.new.items ≡ zones_of entries.old.items
        ++ record { name = name.now; region = region; place = place_of_item item } ∷ []) }
    ensures room { IfOk result (λ u. vec_capacity entries.new ≡ vec_capacity entries.old) }
{
    match PotentialUtf16::from_text(alloc, name) {
        Ok(name) => {
            entries.push_reserved(Named { name, region, item });
            Ok(())
        }
        Err(error) => Err(error),
    }
}

/// Appends a zone that is no alias. Apart, so that no room for a zone is cleared where there is none.
#[inline(never)]
fn push_zone(
    alloc: Global,
    rules: &Rules,
    zone: &ResourceRef<'_>,
    name: &TextRef<'_>,
    region: Region,
    entries: &mut Vec<Named>,
) -> Result<(), BinaryDeserializerError>
    requires { vec_len entries.old < vec_capacity entries.old }
    ensures zones { Reads (λ u. zones_of entries.new.items) result
        (with_next (zones_of entries.old.items)
        (own_zone (rule_for rules.now) zone.now name.now region)) }
    ensures room { IfOk result (λ u. vec_capacity entries.new ≡ vec_capacity entries.old) }
{
    match zone_data(alloc, rules, zone) {
        Ok(data) => {
            push_entry(alloc, name, region, Item::Zone(data), entries)?;
            Ok(())
        }
        Err(error) => Err(error),
    }
}

/// Appends one zone with its name and region.
#[tactic(auto, unfolding(crate::specs::ZoneNames::named_zone, crate::specs::ZoneNames::place_of))]
fn push_named(
    alloc: Global,
    rules: &Rules,
    zone: &ResourceRef<'_>,
    name: &ResourceRef<'_>,
    region: &ResourceRef<'_>,
    entries: &mut Vec<Named>,
) -> Result<(), BinaryDeserializerError>
    requires { vec_len entries.old < vec_capacity entries.old }
    ensures zones { Reads (λ u. zones_of entries.new.items) result
        (with_next (zones_of entries.old.items)
        (named_zone (rule_for rules.now) zone.now name.now region.now)) }
    ensures room { IfOk result (λ u. vec_capacity entries.new ≡ vec_capacity entries.old) }
{
    let Some(name) = name.text() else {
        return Err(BinaryDeserializerError::Rules);
    };
    let Some(region_units) = region.text() else {
        return Err(BinaryDeserializerError::Rules);
    };
    let Some(region) = region_of(&region_units) else {
        return Err(BinaryDeserializerError::Rules);
    };
    if let Some(place) = zone.index() {
        push_entry(alloc, &name, region, Item::Alias(place), entries)?;
        return Ok(());
    }
    push_zone(alloc, rules, zone, &name, region, entries)
}

/// The zones of three arrays, read side by side.
fn named_zones(
    alloc: Global,
    rules: &Rules,
    zones: &ItemsRef<'_>,
    names: &ItemsRef<'_>,
    regions: &ItemsRef<'_>,
) -> Result<Vec<Named>, BinaryDeserializerError>
    requires names { length names.now ≡ length zones.now }
    requires regions { length regions.now ≡ length zones.now }
    ensures { Reads (λ v. zones_of v.items) result
        (named_zones (rule_for rules.now) zones.now names.now regions.now) }
{
    let mut entries = Vec::with_capacity(alloc, zones.len())?;
    for at in 0..zones.len() {
        let zone = zones.at(at);
        let name = names.at(at);
        let region = regions.at(at);
        push_named(alloc, rules, &zone, &name, &region, &mut entries)?;
    }
    Ok(entries)
}

/// Whether a name comes before another, character by character.
fn is_before(first: &Named, second: &Named) -> bool
    ensures { result ≡ is_before (named_of first.now) (named_of second.now) }
{
    first.name.text().cmp(second.name.text()).is_lt()
}

/// Whether the names strictly rise.
fn rises(entries: &[Named]) -> bool
    ensures { result ≡ rises (zones_of entries.now) }
{
    for at in 1..entries.len() {
        if !is_before(&entries[at - 1], &entries[at]) {
            return false;
        }
    }
    true
}

/// An array of the root.
#[tactic(auto, unfolding(crate::specs::Bundle::array_in))]
fn array<'a>(root: &ResourceRef<'a>, key: &[u8]) -> Result<ItemsRef<'a>, BinaryDeserializerError>
    ensures { Reads (λ items. items) result (array_in key.now root.now) }
{
    let Some(field) = root.field(key) else {
        return Err(BinaryDeserializerError::Rules);
    };
    match field.items() {
        Some(items) => Ok(items),
        None => Err(BinaryDeserializerError::Rules),
    }
}

/// A table of the root.
#[tactic(auto, unfolding(crate::specs::Bundle::table_in))]
fn table<'a>(root: &ResourceRef<'a>, key: &[u8]) -> Result<EntriesRef<'a>, BinaryDeserializerError>
    ensures { Reads (λ entries. entries) result (table_in key.now root.now) }
{
    let Some(field) = root.field(key) else {
        return Err(BinaryDeserializerError::Rules);
    };
    match field.entries() {
        Some(entries) => Ok(entries),
        None => Err(BinaryDeserializerError::Rules),
    }
}

/// Whether an entry is a zone, or an alias whose place is that of a zone.
fn is_resolved(entries: &[Named], entry: &Named) -> bool
    ensures { result ≡ is_resolved (zones_of entries.now) (named_of entry.now).place }
{
    match &entry.item {
        Item::Zone(_) => true,
        Item::Alias(place) => is_zone(entries, *place as usize),
    }
}

fn is_zone(entries: &[Named], place: usize) -> bool
    ensures { result ≡ is_some (zone_at (zones_of entries.now) place) }
{
    match entries.get(place) {
        Some(entry) => matches!(entry.item, Item::Zone(_)),
        None => false,
    }
}

/// Whether each alias is the place of a zone.
fn all_resolved(entries: &[Named]) -> bool
    ensures { result ≡ all_resolved (zones_of entries.now) (zones_of entries.now) }
{
    for at in 0..entries.len() {
        if !is_resolved(entries, &entries[at]) {
            return false;
        }
    }
    true
}

/// Whether three arrays have one length, and a list of zones may have it.
fn are_arrays(zones: &ItemsRef<'_>, names: &ItemsRef<'_>, regions: &ItemsRef<'_>) -> bool
    ensures { result ≡ are_arrays zones.now names.now regions.now }
{
    let len = zones.len();
    len > 0 && len <= 65_536 && names.len() == len && regions.len() == len
}

/// The zones of three arrays.
#[tactic(auto, unfolding(crate::specs::Bundle::checked_zones))]
fn checked_zones(
    alloc: Global,
    rules: &Rules,
    zones: &ItemsRef<'_>,
    names: &ItemsRef<'_>,
    regions: &ItemsRef<'_>,
) -> Result<Vec<Named>, BinaryDeserializerError>
    ensures zones { Reads (λ v. zones_of v.items) result
        (checked_zones (rule_for rules.now) zones.now names.now regions.now) }
    ensures entries { IfOk result (λ v. AreEntries v.items) }
{
    if !are_arrays(zones, names, regions) {
        return Err(BinaryDeserializerError::Rules);
    }
    let entries = named_zones(alloc, rules, zones, names, regions)?;
    if rises(&entries) && all_resolved(&entries) {
        Ok(entries)
    } else {
        Err(BinaryDeserializerError::Rules)
    }
}

/// The zones of the tree of a bundle.
#[tactic(auto, unfolding(crate::specs::Bundle::zone_list))]
fn zones_in(alloc: Global, root: &ResourceRef<'_>) -> Result<Vec<Named>, BinaryDeserializerError>
    ensures zones { Reads (λ v. zones_of v.items) result (zone_list root.now) }
    ensures entries { IfOk result (λ v. AreEntries v.items) }
{
    let zones = array(root, b"Zones")?;
    let names = array(root, b"Names")?;
    let regions = array(root, b"Regions")?;
    let table = table(root, b"Rules")?;
    let rules = rules(alloc, &table)?;
    checked_zones(alloc, &rules, &zones, &names, &regions)
}

impl ZoneInfo64 {
    ghost use Rattle.std.specs.Prelude.{◌≡◌, Some, None, IsSome, IfOk, IsErrOf};
    ghost use Rattle.zoneinfo64.specs.declared.error.BinaryDeserializerError.TheVariants as errors;

    /// Reads the zones of a bundle.
    ///
    /// `words` are the bundle's 32-bit words, a file's bytes taken by fours, low byte first
    /// (ICU resource bundle format 2, `zoneinfo64`).
    ///
    /// # Errors
    ///
    /// - `Tree` where the words denote no resource tree.
    /// - `Rules` where the tree breaks a rule of zone data.
    /// - `Memory` where memory could not be found.
    pub fn try_from_u32s(
        alloc: Global,
        words: &[u32],
    ) -> Result<ZoneInfo64, BinaryDeserializerError>
        ensures list { IfOk result (λ info. zones_of_words words.now ≡ Some info) }
        ensures tree { IsErrOf result errors.Tree → tree_of words.now ≡ None }
        ensures rules { IsErrOf result errors.Rules
            → IsSome (tree_of words.now) × (zones_of_words words.now ≡ None) }
    {
        let bundle = match Bundle::open(alloc, words) {
            Ok(bundle) => bundle,
            Err(ResbError::Memory) => return Err(BinaryDeserializerError::Memory),
            Err(_) => return Err(BinaryDeserializerError::Tree),
        };
        let entries = zones_in(alloc, &bundle.root())?;
        Ok(ZoneInfo64::from_entries(entries))
    }
}
