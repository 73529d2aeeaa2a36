//! Bundles that are written and read.
use crate::trees::{Field, Zone, bundle};
use resb::{Resource, write};
use std::alloc::Global;
use std::test::Fail;
use zoneinfo64::{BinaryDeserializerError, ZoneInfo64};

/// The words of a tree.
pub fn words_of(alloc: Global, tree: &Resource) -> Result<Vec<u32>, Fail> {
    Ok(write(alloc, tree).ok().ok_or("the tree is written")?)
}

/// The zones of a tree.
pub fn zones_in(alloc: Global, tree: &Resource) -> Result<ZoneInfo64, Fail> {
    let zones = ZoneInfo64::try_from_u32s(alloc, &words_of(alloc, tree)?);
    Ok(zones.ok().ok_or("the bundle is read")?)
}

/// The zones of a bundle of these zones and rules.
pub fn loaded(alloc: Global, zones: &[Zone<'_>], rules: &[Field<'_>]) -> Result<ZoneInfo64, Fail> {
    zones_in(alloc, &bundle(alloc, zones, rules)?)
}

/// Whether a tree is read as no list of zones, though its words are a tree.
pub fn is_refused(alloc: Global, tree: &Resource) -> Result<bool, Fail> {
    let words = words_of(alloc, tree)?;
    match ZoneInfo64::try_from_u32s(alloc, &words) {
        Ok(_) => Ok(false),
        Err(error) => Ok(error == BinaryDeserializerError::Rules),
    }
}
