use super::*;
use crate::tests::{ONE_ZONE, edited, heavy, long_table, small};
use std::alloc::{AllocError, Global};
use std::test::Fail;

/// Whether it is seen as one of the kinds of resources, and as no other.
fn is_of_one_kind(seen: &ResourceRef<'_>) -> bool {
    let kinds = [
        seen.text().is_some(),
        seen.bytes().is_some(),
        seen.integers().is_some(),
        seen.items().is_some(),
        seen.entries().is_some(),
        seen.index().is_some(),
    ];
    kinds.iter().filter(|kind| **kind).count() == 1
}

fn same_text(alloc: Global, units: &[u16], seen: &ResourceRef<'_>) -> Result<bool, AllocError> {
    match seen.text() {
        Some(text) => {
            let copy = text.to_items(alloc)?;
            Ok(
                text.len() == units.len()
                    && copy.as_slice() == units
                    && text.get(0) == units.first().copied()
                    && text.get(units.len()).is_none(),
            )
        }
        None => Ok(false),
    }
}

fn same_bytes(alloc: Global, bytes: &[u8], seen: &ResourceRef<'_>) -> Result<bool, AllocError> {
    match seen.bytes() {
        Some(found) => Ok(found.to_items(alloc)?.as_slice() == bytes),
        None => Ok(false),
    }
}

fn same_integers(values: &[u32], seen: &ResourceRef<'_>) -> bool {
    match seen.integers() {
        Some(found) => found == values,
        None => false,
    }
}

#[cycle(alike)]
fn same_items(
    alloc: Global,
    levels: u8,
    items: &[Resource],
    seen: &ResourceRef<'_>,
) -> Result<bool, AllocError> {
    match seen.items() {
        Some(found) => {
            if found.len() != items.len() {
                return Ok(false);
            }
            for at in 0..found.len() {
                if at < items.len() && !same(alloc, levels, &items[at], &found.at(at))? {
                    return Ok(false);
                }
            }
            Ok(true)
        }
        None => Ok(false),
    }
}

#[cycle(alike)]
fn same_entries(
    alloc: Global,
    levels: u8,
    entries: &[(Key, Resource)],
    seen: &ResourceRef<'_>,
) -> Result<bool, AllocError> {
    match seen.entries() {
        Some(found) => {
            if found.len() != entries.len() {
                return Ok(false);
            }
            for at in 0..found.len() {
                if at < entries.len() {
                    let (key, value) = found.at(at);
                    let name = entries[at].0.as_slice();
                    if !key.is(name)
                        || key.to_items(alloc)?.as_slice() != name
                        || !same(alloc, levels, &entries[at].1, &value)?
                    {
                        return Ok(false);
                    }
                }
            }
            Ok(true)
        }
        None => Ok(false),
    }
}

/// Whether a resource that was read and one that is seen in place have the same parts.
#[cycle(alike)]
fn same(
    alloc: Global,
    levels: u8,
    tree: &Resource,
    seen: &ResourceRef<'_>,
) -> Result<bool, AllocError> {
    if levels == 0 || !is_of_one_kind(seen) {
        return Ok(false);
    }
    match tree {
        Resource::Text(units) => same_text(alloc, units.as_slice(), seen),
        Resource::Bytes(bytes) => same_bytes(alloc, bytes.as_slice(), seen),
        Resource::Integers(values) => Ok(same_integers(values.as_slice(), seen)),
        Resource::Integer(_) => Ok(seen.index() == tree.index() && seen.signed() == tree.signed()),
        Resource::Array(items) => same_items(alloc, levels - 1, items.as_slice(), seen),
        Resource::Table(entries) => same_entries(alloc, levels - 1, entries.as_slice(), seen),
    }
}

/// Whether the words are refused by both ways to read them.
fn refused(alloc: Global, words: &[u32]) -> bool {
    matches!(read(alloc, words), Err(ResbError::NoTree))
        && matches!(Bundle::open(alloc, words), Err(ResbError::NoTree))
}

/// Whether both ways to read the words give the same tree.
fn seen_alike(alloc: Global, words: &[u32]) -> Result<bool, ResbError> {
    let tree = read(alloc, words)?;
    let bundle = Bundle::open(alloc, words)?;
    Ok(same(alloc, 8, &tree, &bundle.root())?)
}

#[test]
fn sees_what_is_read(rt: HostRuntime) -> Result<(), Fail> {
    let alloc = rt.alloc();
    assert!(rt; seen_alike(alloc, ONE_ZONE.as_slice())?, "one zone");
    let table = long_table(alloc, 48)?;
    assert!(rt; seen_alike(alloc, table.as_slice())?, "17 entries");
    let weighty = heavy(alloc, 0x7000_0000)?;
    assert!(rt; seen_alike(alloc, weighty.as_slice())?, "560 of 560");
    let places = [
        (0x0000_0000, [1, 0, 0], "an empty text"),
        (0x0000_0009, [3, 0xd800_0048, 0x0000_dc00], "a text"),
        (0x1000_0000, [1, 0, 0], "no bytes"),
        (0x1000_0009, [7, 0x0403_0201, 0x0007_0605], "7 bytes"),
        (0x2000_0000, [1, 0, 0], "an empty table"),
        (0x2000_0009, [0x0020_0001, 0x7000_0005, 0], "a narrow table"),
        (0x4000_0000, [1, 0, 0], "an empty wide table"),
        (0x4000_0009, [1, 0x0000_0022, 0x7fff_ffff], "a wide table"),
        (0x7fff_ffff, [1, 0, 0], "an integer"),
        (0x8000_0000, [1, 0, 0], "an empty array"),
        (0x8000_0009, [2, 0x7000_0001, 0x7800_0000], "an array"),
        (0xe000_0000, [1, 0, 0], "no integers"),
        (0xe000_0009, [2, 0xffff_ffff, 7], "integers"),
    ];
    for (root, rest, what) in places {
        let words = small(alloc, root, 9, 12, rest.as_slice())?;
        assert!(rt; seen_alike(alloc, words.as_slice())?, "{what}");
    }
    let shorts = [
        (0x6000_0000, [0x0069_0048, 0, 0], "a text up to a zero unit"),
        (0x6000_0002, [0x0069_0048, 0, 0], "an empty one"),
        (0x6000_0000, [0x0048_dc02, 0x0000_0069, 0], "DC02"),
        (0x6000_0000, [0x0002_dfef, 0x0069_0048, 0], "DFEF"),
        (0x6000_0000, [0x0000_dfff, 0x0048_0002, 0x69], "DFFF"),
        (
            0x9000_0002,
            [0x0000_0078, 0x0000_0002, 0x0000_0001],
            "a short array",
        ),
        (0x9000_0001, [0x0000_0078, 0, 0], "an empty one"),
        (
            0x5000_0002,
            [0x0000_0078, 0x0020_0001, 0x0000_0001],
            "a short table",
        ),
        (0x5000_0001, [0x0000_0078, 0, 0], "an empty one"),
    ];
    for (root, rest, what) in shorts {
        let words = small(alloc, root, 12, 12, rest.as_slice())?;
        assert!(rt; seen_alike(alloc, words.as_slice())?, "{what}");
    }
    Ok(())
}

#[test]
fn refuses_what_is_not_read(rt: HostRuntime) -> Result<(), Fail> {
    let alloc = rt.alloc();
    assert!(rt; refused(alloc, &[]));
    assert!(rt; refused(alloc, &ONE_ZONE[..51]));
    let edits = [
        (14, 0x656e_6f80, "a first key that begins with byte 128"),
        (20, 0x656d_614e, "the key `Rules` made `Names`"),
        (46, 0x0032_0032, "the key place of `Names` twice"),
        (24, 0x0000_001c, "integers past the end"),
        (30, 0x8000_0017, "a zone that is the array of zones itself"),
        (30, 0x3000_0015, "a zone of type 3"),
        (45, 0x0020_0028, "a root table of 40 entries"),
        (8, 0x0000_0011, "a last key that does not end"),
    ];
    for (at, word, what) in edits {
        let words = edited(alloc, at, word)?;
        assert!(rt; refused(alloc, words.as_slice()), "{what}");
    }
    let twice = long_table(alloc, 32)?;
    assert!(rt; refused(alloc, twice.as_slice()), "a key twice of 17");
    let heavier = heavy(alloc, 0x1000_0009)?;
    assert!(rt; refused(alloc, heavier.as_slice()), "561 of 560");
    let short = small(alloc, 0x6000_0001, 11, 11, &[0xdc03_0000, 0x0069_0048])?;
    assert!(rt; refused(alloc, short.as_slice()), "a unit too many");
    let open = small(alloc, 0x6000_0000, 10, 11, &[0x0069_0048, 0])?;
    assert!(rt; refused(alloc, open.as_slice()), "no zero unit");
    Ok(())
}

#[test]
fn sees_eight_levels(rt: HostRuntime) -> Result<(), Fail> {
    let alloc = rt.alloc();
    // arrays of one item each, and an integer
    let arrays = [
        1,
        0x8000_000b,
        1,
        0x8000_000d,
        1,
        0x8000_000f,
        1,
        0x8000_0011,
        1,
        0x8000_0013,
        1,
        0x8000_0015,
        1,
        0x8000_0017,
        1,
        0x7000_0000,
    ];
    let words = small(alloc, 0x8000_0009, 9, 25, arrays.as_slice())?;
    assert!(rt; refused(alloc, words.as_slice()), "nine levels");
    let words = small(alloc, 0x8000_000b, 9, 25, arrays.as_slice())?;
    assert!(rt; seen_alike(alloc, words.as_slice())?, "eight levels");
    Ok(())
}

#[test]
fn finds_fields_in_place(rt: HostRuntime) -> Result<(), Fail> {
    let alloc = rt.alloc();
    let bundle = Bundle::open(alloc, ONE_ZONE.as_slice())?;
    let root = bundle.root();
    let zones = root.field(b"Zones").ok_or("zones")?;
    let items = zones.items().ok_or("an array")?;
    assert_eq!(rt; items.len(), 1);
    let offsets = items
        .at(0)
        .field(b"typeOffsets")
        .ok_or("offsets")?
        .integers()
        .ok_or("integers")?;
    assert_eq!(rt; offsets, [7200, 0].as_slice());
    assert!(rt; root.field(b"Zone").is_none() && root.field(b"Zoness").is_none());
    assert!(rt; root.field(b"Zones\0").is_none() && root.field(b"").is_none());
    assert!(rt; zones.field(b"Zones").is_none());
    let entries = root.entries().ok_or("a table")?;
    assert_eq!(rt; entries.len(), 4);
    let (key, value) = entries.at(1);
    assert!(rt; key.is(b"Names") && !key.is(b"Name") && !key.is(b"Names\0"));
    let names = value.items().ok_or("an array")?;
    assert_eq!(rt; names.len(), 1);
    let name = names.at(0).text().ok_or("a text")?;
    assert_eq!(rt; name.len(), 10);
    assert_eq!(rt; name.get(9), Some(50));
    assert_eq!(rt; name.get(10), None);
    Ok(())
}
