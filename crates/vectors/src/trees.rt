//! Bundles of zones, written from plain descriptions.
ghost use Rattle.std.specs.Prelude.{◌≡◌, pos, negsuc, ◌≤ℤ◌, Some};
ghost use Rattle.resb_tree.specs.Contents.{signed_in};

use resb::{Key, Resource};
use sqlite_items::Items;
use std::alloc::{AllocError, Global};

/// What stands under a key, or what a name or a region is.
#[derive(Clone, Copy)]
pub enum Value<'a> {
    /// A signed integer of 28 bits.
    Number(i32),
    /// Signed integers of 32 bits.
    Numbers(&'a [i32]),
    /// Bytes.
    Bytes(&'a [u8]),
    /// A text of ASCII characters.
    Ascii(&'a str),
    /// A text of any units.
    Units(&'a [u16]),
}

/// A key and what stands under it.
pub type Field<'a> = (&'a str, Value<'a>);

/// What a zone's place in the list of zones has.
#[derive(Clone, Copy)]
pub enum Item<'a> {
    /// The fields of a zone.
    Fields(&'a [Field<'a>]),
    /// Something else: the number of another zone, which this is an alias of, or what a bundle may not have there.
    Other(Value<'a>),
}

/// A zone: its name, its region, and its item.
#[derive(Clone, Copy)]
pub struct Zone<'a> {
    pub name: Value<'a>,
    pub region: Value<'a>,
    pub item: Item<'a>,
}

/// A zone with that name, region and item.
pub fn entry<'a>(name: Value<'a>, region: Value<'a>, item: Item<'a>) -> Zone<'a> {
    Zone { name, region, item }
}

/// A zone of the region `001`.
pub fn worldwide<'a>(name: &'a str, fields: &'a [Field<'a>]) -> Zone<'a> {
    Zone {
        name: Value::Ascii(name),
        region: Value::Ascii("001"),
        item: Item::Fields(fields),
    }
}

/// A signed integer of 28 bits.
pub fn integer(value: i32) -> Resource
    ensures { negsuc 134217727 ≤ℤ value → value ≤ℤ pos 134217727 → signed_in result ≡ Some value }
{
    Resource::Integer(value.cast_unsigned() % 268_435_456)
}

/// The tree of a value.
pub fn tree(alloc: Global, value: Value<'_>) -> Result<Resource, AllocError> {
    match value {
        Value::Number(number) => Ok(integer(number)),
        Value::Numbers(numbers) => {
            let mut words = Vec::with_capacity(alloc, numbers.len())?;
            for number in numbers {
                words.push(number.cast_unsigned())?;
            }
            Ok(Resource::Integers(Items::from_vec(words)))
        }
        Value::Bytes(bytes) => Ok(Resource::Bytes(Items::from_slice(alloc, bytes)?)),
        Value::Ascii(text) => {
            let mut units = Vec::with_capacity(alloc, text.len())?;
            for byte in text.bytes() {
                units.push(u16::from(byte))?;
            }
            Ok(Resource::Text(Items::from_vec(units)))
        }
        Value::Units(units) => Ok(Resource::Text(Items::from_slice(alloc, units)?)),
    }
}

/// The table of fields, in their order.
pub fn table(alloc: Global, fields: &[Field<'_>]) -> Result<Resource, AllocError> {
    let mut entries = Items::new(alloc);
    for (key, value) in fields {
        let key = Key::from_slice(alloc, key.as_bytes())?;
        entries.push((key, tree(alloc, *value)?))?;
    }
    Ok(Resource::Table(entries))
}

fn item_tree(alloc: Global, item: Item<'_>) -> Result<Resource, AllocError> {
    match item {
        Item::Fields(fields) => table(alloc, fields),
        Item::Other(value) => tree(alloc, value),
    }
}

/// The tree of a bundle: its zones with their names and regions, and its rules.
pub fn bundle(
    alloc: Global,
    zones: &[Zone<'_>],
    rules: &[Field<'_>],
) -> Result<Resource, AllocError> {
    let mut items = Items::new(alloc);
    let mut names = Items::new(alloc);
    let mut regions = Items::new(alloc);
    for zone in zones {
        items.push(item_tree(alloc, zone.item)?)?;
        names.push(tree(alloc, zone.name)?)?;
        regions.push(tree(alloc, zone.region)?)?;
    }
    root(alloc, items, names, table(alloc, rules)?, regions)
}

/// The root of a bundle: its zones, names, rules and regions.
pub fn root(
    alloc: Global,
    zones: Items<Resource>,
    names: Items<Resource>,
    rules: Resource,
    regions: Items<Resource>,
) -> Result<Resource, AllocError> {
    let mut entries = Items::new(alloc);
    let key = Key::from_slice(alloc, b"Zones")?;
    entries.push((key, Resource::Array(zones)))?;
    let key = Key::from_slice(alloc, b"Names")?;
    entries.push((key, Resource::Array(names)))?;
    let key = Key::from_slice(alloc, b"Rules")?;
    entries.push((key, rules))?;
    let key = Key::from_slice(alloc, b"Regions")?;
    entries.push((key, Resource::Array(regions)))?;
    Ok(Resource::Table(entries))
}
