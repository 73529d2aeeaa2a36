use super::*;
use sqlite_items::Items;
use std::alloc::{AllocError, Global};
use std::test::Fail;

/// A bundle of one zone, `Test/Plus2`, two hours east of Greenwich. Word 6 is the root item.
pub const ONE_ZONE: [u32; 52] = [
    0x27da_0018,
    0x0000_0014,
    0x0002_0000,
    0x4273_6552,
    0x0000_0002,
    0x0000_0000,
    0x2000_0027,
    0x0000_0007,
    0x0000_0012,
    0x0000_002e,
    0x0000_002e,
    0x0000_0004,
    0x0000_0000,
    0x0000_0012,
    0x656e_6f5a,
    0x7974_0073,
    0x664f_6570,
    0x7465_7366,
    0x614e_0073,
    0x0073_656d,
    0x656c_7552,
    0x6552_0073,
    0x6e6f_6967,
    0x0000_0073,
    0x0000_0002,
    0x0000_1c20,
    0x0000_0000,
    0x0026_0001,
    0xe000_0012,
    0x0000_0001,
    0x2000_0015,
    0x0000_000a,
    0x0065_0054,
    0x0074_0073,
    0x0050_002f,
    0x0075_006c,
    0x0032_0073,
    0x0000_0000,
    0x0000_0001,
    0x0000_0019,
    0x0000_0003,
    0x0030_0030,
    0x0000_0031,
    0x0000_0001,
    0x0000_0022,
    0x0020_0004,
    0x0038_0032,
    0x0000_003e,
    0x8000_0017,
    0x8000_0020,
    0x2000_0000,
    0x8000_0025,
];

/// The bundle with another word at a place.
pub fn edited(alloc: Global, at: usize, word: u32) -> Result<Vec<u32>, AllocError> {
    let mut words = Vec::with_capacity(alloc, 52)?;
    for (i, old) in ONE_ZONE.iter().enumerate() {
        words.push(if i == at { word } else { *old })?;
    }
    Ok(words)
}

/// A header of 24 bytes, a root item, the shortest index, the keys `a` at byte 32 and `b` at byte 34, and body words
/// from 9 on. The 16-bit area ends at body word `area_end`, all data at `end`.
pub fn small(
    alloc: Global,
    root: u32,
    area_end: u32,
    end: u32,
    rest: &[u32],
) -> Result<Vec<u32>, AllocError> {
    let front = [
        0x27da_0018,
        0,
        0x0002_0000,
        0x4273_6552,
        2,
        0,
        root,
        7,
        9,
        end,
        end,
        0,
        0,
        area_end,
        0x0062_0061,
    ];
    let mut words = Vec::from_slice(alloc, front.as_slice())?;
    words.extend_from_slice(rest)?;
    Ok(words)
}

pub fn is_no_tree(answer: Result<Resource, ResbError>) -> bool {
    match answer {
        Ok(_) => false,
        Err(error) => error == ResbError::NoTree,
    }
}

fn has_text(resource: &Resource, units: &[u16]) -> bool {
    match resource.text() {
        Some(text) => text == units,
        None => false,
    }
}

fn has_integers(resource: &Resource, values: &[u32]) -> bool {
    match resource.integers() {
        Some(integers) => integers == values,
        None => false,
    }
}

const TEST_PLUS2: [u16; 10] = [84, 101, 115, 116, 47, 80, 108, 117, 115, 50];

const HI: [u16; 2] = [72, 105];

#[test]
fn reads_one_zone(rt: HostRuntime) -> Result<(), Fail> {
    let tree = read(rt.alloc(), ONE_ZONE.as_slice())?;
    let entries = tree.entries().ok_or("a table")?;
    assert_eq!(rt; entries.len(), 4);
    assert_eq!(rt; entries[0].0.as_slice(), b"Zones".as_slice());
    assert_eq!(rt; entries[1].0.as_slice(), b"Names".as_slice());
    assert_eq!(rt; entries[2].0.as_slice(), b"Rules".as_slice());
    assert_eq!(rt; entries[3].0.as_slice(), b"Regions".as_slice());
    let zones = tree.field(b"Zones").ok_or("zones")?;
    let zones = zones.items().ok_or("an array")?;
    assert_eq!(rt; zones.len(), 1);
    assert!(rt; has_integers(zones[0].field(b"typeOffsets").ok_or("offsets")?, &[7200, 0]));
    let names = tree.field(b"Names").ok_or("names")?;
    let names = names.items().ok_or("an array")?;
    assert_eq!(rt; names.len(), 1);
    assert!(rt; has_text(&names[0], TEST_PLUS2.as_slice()));
    let rules = tree.field(b"Rules").ok_or("rules")?;
    let rules = rules.entries().ok_or("a table")?;
    assert_eq!(rt; rules.len(), 0);
    let regions = tree.field(b"Regions").ok_or("regions")?;
    let regions = regions.items().ok_or("an array")?;
    assert_eq!(rt; regions.len(), 1);
    assert!(rt; has_text(&regions[0], &[48, 48, 49]));
    assert!(rt; tree.field(b"Zone").is_none());
    Ok(())
}

#[test]
fn refuses_other_words(rt: HostRuntime) -> Result<(), Fail> {
    let alloc = rt.alloc();
    assert!(rt; is_no_tree(read(alloc, &[])));
    // without the last word the end of the bundle is past the words
    assert!(rt; is_no_tree(read(alloc, &ONE_ZONE[..51])));
    let edits = [
        (0, 0x27da_0000, "a header of 0 bytes"),
        (0, 0x27da_0014, "a header of 20 bytes"),
        (0, 0x27da_001a, "a header of 26 bytes"),
        (0, 0x27da_00d4, "a header of 212 bytes, in a bundle of 208"),
        (0, 0x27da_00d0, "a header of all bytes"),
        (0, 0x28da_0018, "another magic number"),
        (2, 0x0002_0100, "big-endian"),
        (3, 0x4273_6553, "another data format"),
        (4, 0x0000_0003, "format 3"),
        (7, 0x0000_0006, "an index of 6 numbers"),
        (8, 0x0000_0007, "keys that end inside the index"),
        (8, 0x0000_0013, "keys that end after the 16-bit area"),
        (
            8,
            0x0000_0011,
            "a last key whose zero byte is past the keys' end",
        ),
        (12, 0x0000_0002, "no place for aliases, as in a pool bundle"),
        (14, 0x656e_6f80, "a first key that begins with byte 128"),
        (20, 0x656d_614e, "the key `Rules` made `Names`"),
        (46, 0x0032_0032, "the key place of `Names` twice"),
        (
            24,
            0x0000_001c,
            "28 integers from body word 19 on, of 46 body words",
        ),
        (30, 0x8000_0017, "a zone that is the array of zones itself"),
        (30, 0x3000_0015, "a zone of type 3"),
        (45, 0x0020_0028, "a root table of 40 entries"),
    ];
    for (at, word, what) in edits {
        let words = edited(alloc, at, word)?;
        assert!(rt; is_no_tree(read(alloc, words.as_slice())), "{what}");
    }
    // 27 integers reach just to the end
    let words = edited(alloc, 24, 27)?;
    let tree = read(alloc, words.as_slice())?;
    let zones = tree.field(b"Zones").ok_or("zones")?;
    let zones = zones.items().ok_or("an array")?;
    assert_eq!(rt; zones.len(), 1);
    let offsets = zones[0].field(b"typeOffsets").ok_or("offsets")?;
    let offsets = offsets.integers().ok_or("integers")?;
    assert_eq!(rt; offsets.len(), 27);
    Ok(())
}

#[test]
fn reads_short_texts(rt: HostRuntime) -> Result<(), Fail> {
    let alloc = rt.alloc();
    // a zero unit ends it
    let words = small(alloc, 0x6000_0000, 11, 11, &[0x0069_0048, 0])?;
    assert!(rt; has_text(&read(alloc, words.as_slice())?, HI.as_slice()));
    // it begins at the zero unit
    let words = small(alloc, 0x6000_0002, 11, 11, &[0x0069_0048, 0])?;
    assert!(rt; has_text(&read(alloc, words.as_slice())?, &[]));
    // DC02: two units
    let words = small(alloc, 0x6000_0000, 11, 11, &[0x0048_dc02, 0x0000_0069])?;
    assert!(rt; has_text(&read(alloc, words.as_slice())?, HI.as_slice()));
    // DFEF: the next unit tells how many
    let words = small(alloc, 0x6000_0000, 11, 11, &[0x0002_dfef, 0x0069_0048])?;
    assert!(rt; has_text(&read(alloc, words.as_slice())?, HI.as_slice()));
    // DFFF: the next two units do, the high one first
    let words = small(
        alloc,
        0x6000_0000,
        12,
        12,
        &[0x0000_dfff, 0x0048_0002, 0x0000_0069],
    )?;
    assert!(rt; has_text(&read(alloc, words.as_slice())?, HI.as_slice()));
    // the zero unit is behind the area
    let words = small(alloc, 0x6000_0000, 10, 11, &[0x0069_0048, 0])?;
    assert!(rt; is_no_tree(read(alloc, words.as_slice())));
    // the third unit is behind the area
    let words = small(alloc, 0x6000_0001, 11, 11, &[0xdc03_0000, 0x0069_0048])?;
    assert!(rt; is_no_tree(read(alloc, words.as_slice())));
    Ok(())
}

#[test]
fn reads_short_arrays_and_tables(rt: HostRuntime) -> Result<(), Fail> {
    let alloc = rt.alloc();
    // units: the text `x` and its zero unit; two items, the text at unit 0 and the one at unit 1
    let words = small(
        alloc,
        0x9000_0002,
        12,
        12,
        &[0x0000_0078, 0x0000_0002, 0x0000_0001],
    )?;
    let tree = read(alloc, words.as_slice())?;
    let items = tree.items().ok_or("an array")?;
    assert_eq!(rt; items.len(), 2);
    assert!(rt; has_text(&items[0], &[120]));
    assert!(rt; has_text(&items[1], &[]));
    // the same texts under the keys `b` and `a`
    let words = small(
        alloc,
        0x5000_0002,
        13,
        13,
        &[0x0000_0078, 0x0022_0002, 0x0000_0020, 0x0000_0001],
    )?;
    let tree = read(alloc, words.as_slice())?;
    let entries = tree.entries().ok_or("a table")?;
    assert_eq!(rt; entries.len(), 2);
    assert_eq!(rt; entries[0].0.as_slice(), b"b".as_slice());
    assert_eq!(rt; entries[1].0.as_slice(), b"a".as_slice());
    assert!(rt; has_text(&entries[0].1, &[120]));
    assert!(rt; has_text(&entries[1].1, &[]));
    Ok(())
}

#[test]
fn reads_wide_tables_and_bytes(rt: HostRuntime) -> Result<(), Fail> {
    let alloc = rt.alloc();
    // two key places of a word each, then the integers 5 and 268435454
    let words = small(
        alloc,
        0x4000_0009,
        9,
        14,
        &[2, 32, 34, 0x7000_0005, 0x7fff_fffe],
    )?;
    let tree = read(alloc, words.as_slice())?;
    assert_eq!(rt;
        tree.field(b"a").ok_or("a")?.index().ok_or("an integer")?,
        5
    );
    assert_eq!(rt;
        tree.field(b"b").ok_or("b")?.index().ok_or("an integer")?,
        268_435_454
    );
    assert_eq!(rt;
        tree.field(b"b").ok_or("b")?.signed().ok_or("an integer")?,
        -2
    );
    let words = small(alloc, 0x1000_0009, 9, 12, &[5, 0x0403_0201, 0x0000_0005])?;
    let tree = read(alloc, words.as_slice())?;
    assert_eq!(rt; tree.bytes().ok_or("bytes")?, [1, 2, 3, 4, 5].as_slice());
    Ok(())
}

/// A table of 17 entries, whose keys are the ends of `abcdefghijklmnopq`, but the last key is that at `last`.
pub fn long_table(alloc: Global, last: u32) -> Result<Vec<u32>, AllocError> {
    let front = [
        0x27da_0018,
        0,
        0x0002_0000,
        0x4273_6552,
        2,
        0,
        0x4000_000d,
        7,
        13,
        48,
        48,
        0,
        0,
        13,
        0x6463_6261,
        0x6867_6665,
        0x6c6b_6a69,
        0x706f_6e6d,
        0x0000_0071,
        17,
    ];
    let mut words = Vec::from_slice(alloc, front.as_slice())?;
    for k in 0..16 {
        words.push(32 + k)?;
    }
    words.push(last)?;
    for _ in 0..17 {
        words.push(0x7000_0000)?;
    }
    Ok(words)
}

#[test]
fn reads_long_tables(rt: HostRuntime) -> Result<(), Fail> {
    let alloc = rt.alloc();
    let words = long_table(alloc, 48)?;
    let tree = read(alloc, words.as_slice())?;
    assert_eq!(rt; tree.entries().ok_or("a table")?.len(), 17);
    assert!(rt; tree.field(b"q").is_some());
    let words = long_table(alloc, 32)?;
    assert!(rt; is_no_tree(read(alloc, words.as_slice())));
    Ok(())
}

/// An array of 18 times the same 30 integers and one more item, in 70 words.
pub fn heavy(alloc: Global, item: u32) -> Result<Vec<u32>, AllocError> {
    let mut rest = Vec::new(alloc);
    // one byte, at body word 9
    rest.extend_from_slice(&[1, 0])?;
    // the integers, at body word 11
    rest.push(30)?;
    for _ in 0..30 {
        rest.push(0)?;
    }
    // the array, at body word 42
    rest.push(19)?;
    for _ in 0..18 {
        rest.push(0xe000_000b)?;
    }
    rest.push(item)?;
    rest.extend_from_slice(&[0, 0])?;
    small(alloc, 0x8000_002a, 9, 64, rest.as_slice())
}

#[test]
fn weighs_up_to_the_limit(rt: HostRuntime) -> Result<(), Fail> {
    let alloc = rt.alloc();
    // 1 for the array, 31 for each list and 1 for an integer are 560, which is 8 for each word
    let words = heavy(alloc, 0x7000_0000)?;
    assert_eq!(rt; words.len(), 70);
    let tree = read(alloc, words.as_slice())?;
    assert_eq!(rt; tree.items().ok_or("an array")?.len(), 19);
    // one byte weighs 2
    let words = heavy(alloc, 0x1000_0009)?;
    assert!(rt; is_no_tree(read(alloc, words.as_slice())));
    Ok(())
}

#[test]
fn reads_eight_levels(rt: HostRuntime) -> Result<(), Fail> {
    let alloc = rt.alloc();
    // arrays of one item each, and an integer
    let arrays = [
        1,
        0x8000_000b,
        1,
        0x8000_000d,
        1,
        0x8000_000f,
        1,
        0x8000_0011,
        1,
        0x8000_0013,
        1,
        0x8000_0015,
        1,
        0x8000_0017,
        1,
        0x7000_0000,
    ];
    let words = small(alloc, 0x8000_0009, 9, 25, arrays.as_slice())?;
    assert!(rt; is_no_tree(read(alloc, words.as_slice())));
    let words = small(alloc, 0x8000_000b, 9, 25, arrays.as_slice())?;
    assert!(rt; read(alloc, words.as_slice()).is_ok());
    Ok(())
}

#[test]
fn tells_fields(rt: HostRuntime) -> Result<(), Fail> {
    let alloc = rt.alloc();
    let mut entries = Items::new(alloc);
    entries.push((
        Key::from_slice(alloc, b"k")?,
        Resource::Integer(0x1fff_ffff),
    ))?;
    entries.push((Key::from_slice(alloc, b"k")?, Resource::Integer(2)))?;
    let table = Resource::Table(entries);
    let first = table.field(b"k").ok_or("k")?;
    // the low 28 bits
    assert_eq!(rt; first.index().ok_or("an integer")?, 0x0fff_ffff);
    assert_eq!(rt; first.signed().ok_or("an integer")?, -1);
    assert_eq!(rt;
        Resource::Integer(0x07ff_ffff).signed().ok_or("an integer")?,
        134_217_727
    );
    assert_eq!(rt;
        Resource::Integer(0x0800_0000).signed().ok_or("an integer")?,
        -134_217_728
    );
    assert!(rt; first.field(b"k").is_none() && first.text().is_none() && first.bytes().is_none());
    assert!(rt; first.integers().is_none() && first.items().is_none() && first.entries().is_none());
    assert!(rt; table.index().is_none() && table.signed().is_none());
    Ok(())
}

#[test]
fn prints_errors(rt: HostRuntime) -> Result<(), Fail> {
    let alloc = rt.alloc();
    let errors = [
        (ResbError::Memory, "memory could not be found"),
        (ResbError::NoTree, "no resource tree"),
        (ResbError::TooLarge, "tree too large"),
        (ResbError::BadKey, "bad key"),
    ];
    for (error, told) in errors {
        let printed = format!(in alloc; "{error}")?;
        assert_eq!(rt; printed.as_str(), told);
    }
    Ok(())
}
