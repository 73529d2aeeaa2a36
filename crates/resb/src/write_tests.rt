use super::*;
use sqlite_items::Items;
use std::alloc::{AllocError, Global};
use std::test::Fail;

const HEADER: [u32; 6] = [0x27da_0018, 0x14, 0x0002_0000, 0x4273_6552, 2, 0];

fn text(alloc: Global, units: &[u16]) -> Result<Resource, AllocError> {
    Ok(Resource::Text(Items::from_slice(alloc, units)?))
}

/// An array of one item.
fn array(alloc: Global, item: Resource) -> Result<Resource, AllocError> {
    let mut items = Items::new(alloc);
    items.push(item)?;
    Ok(Resource::Array(items))
}

/// A table with these keys and the integers 5, 6, 7 and so on.
fn table(alloc: Global, keys: &[&[u8]]) -> Result<Resource, AllocError> {
    let mut entries = Items::new(alloc);
    let mut value = 5u32;
    for key in keys {
        entries.push((Key::from_slice(alloc, *key)?, Resource::Integer(value)))?;
        value = value.saturating_add(1);
    }
    Ok(Resource::Table(entries))
}

/// The tree of a bundle of one zone.
fn one_zone(alloc: Global) -> Result<Resource, AllocError> {
    let mut zone = Items::new(alloc);
    let offsets = Resource::Integers(Items::from_slice(alloc, &[7200, 0])?);
    zone.push((Key::from_slice(alloc, b"typeOffsets")?, offsets))?;
    let zones = array(alloc, Resource::Table(zone))?;
    let test_plus2 = [84, 101, 115, 116, 47, 80, 108, 117, 115, 50];
    let names = array(alloc, text(alloc, test_plus2.as_slice())?)?;
    let regions = array(alloc, text(alloc, &[48, 48, 49])?)?;
    let mut root = Items::new(alloc);
    root.push((Key::from_slice(alloc, b"Zones")?, zones))?;
    root.push((Key::from_slice(alloc, b"Names")?, names))?;
    root.push((Key::from_slice(alloc, b"Rules")?, table(alloc, &[])?))?;
    root.push((Key::from_slice(alloc, b"Regions")?, regions))?;
    Ok(Resource::Table(root))
}

/// An empty array inside so many arrays.
fn nested(alloc: Global, arrays: u8) -> Result<Resource, AllocError> {
    let mut tree = Resource::Array(Items::new(alloc));
    for _ in 0..arrays {
        tree = array(alloc, tree)?;
    }
    Ok(tree)
}

/// The keys of the trees of zones, as a walk meets them.
const KEYS: [&[u8]; 5] = [b"Zones", b"typeOffsets", b"Names", b"Rules", b"Regions"];

/// Puts the zone of a number into the row.
fn draft_zone(draft: &mut Draft<'_>, offset: u32) -> Result<(), ResbError> {
    draft.integers(&[offset, 0])?;
    draft.table(&[b"typeOffsets"])
}

/// The words of as many zones as there are names and offsets, as they are told.
fn drafted(alloc: Global, names: &[&[u16]], offsets: &[u32]) -> Result<Vec<u32>, ResbError> {
    let mut draft = Draft::new(alloc, KEYS.as_slice())?;
    for offset in offsets {
        draft_zone(&mut draft, *offset)?;
    }
    draft.array(offsets.len())?;
    for name in names {
        draft.text(*name)?;
    }
    draft.array(names.len())?;
    draft.table(&[])?;
    for _ in names {
        draft.text(&[48, 48, 49])?;
    }
    draft.array(names.len())?;
    draft.table(&[b"Zones", b"Names", b"Rules", b"Regions"])?;
    draft.write()
}

fn is_refused(answer: Result<Vec<u32>, ResbError>, why: ResbError) -> bool {
    match answer {
        Ok(_) => false,
        Err(error) => error == why,
    }
}

/// Whether the words behind the header are these.
fn has_body(words: &[u32], body: &[u32]) -> bool {
    words.len() > 6 && &words[..6] == HEADER.as_slice() && &words[6..] == body
}

/// Whether there are 52 words, with this index behind the header and these words at the end.
fn has_ends(words: &[u32], index: &[u32], end: &[u32]) -> bool {
    words.len() == 52
        && &words[..6] == HEADER.as_slice()
        && &words[6..14] == index
        && &words[45..] == end
}

/// `proofs/OneZone.antt` has all its words; here are those that say where each part stands.
#[test]
fn writes_one_zone(rt: HostRuntime) -> Result<(), Fail> {
    let alloc = rt.alloc();
    let words = write(alloc, &one_zone(alloc)?)?;
    let index = [0x2000_0027, 7, 18, 46, 46, 4, 0, 18];
    let root = [
        0x0020_0004,
        0x0038_0032,
        0x3e,
        0x8000_0017,
        0x8000_0020,
        0x2000_0000,
        0x8000_0025,
    ];
    assert!(rt; has_ends(words.as_slice(), index.as_slice(), root.as_slice()));
    let tree = read(alloc, words.as_slice())?;
    let again = write(alloc, &tree)?;
    assert_eq!(rt; again.as_slice(), words.as_slice());
    Ok(())
}

#[test]
fn refuses_bad_keys(rt: HostRuntime) -> Result<(), Fail> {
    let alloc = rt.alloc();
    let twice = table(alloc, &[b"a", b"b", b"a"])?;
    assert!(rt; is_refused(write(alloc, &twice), ResbError::BadKey));
    let zero = table(alloc, &[&[97, 0]])?;
    assert!(rt; is_refused(write(alloc, &zero), ResbError::BadKey));
    let high = table(alloc, &[&[97, 128]])?;
    assert!(rt; is_refused(write(alloc, &high), ResbError::BadKey));
    assert!(rt; write(alloc, &table(alloc, &[&[1, 127], b""])?).is_ok());
    // a bad key nine levels deep
    let mut tree = table(alloc, &[&[128]])?;
    for _ in 0..8 {
        tree = array(alloc, tree)?;
    }
    assert!(rt; is_refused(write(alloc, &tree), ResbError::BadKey));
    Ok(())
}

#[test]
fn writes_eight_levels(rt: HostRuntime) -> Result<(), Fail> {
    let alloc = rt.alloc();
    assert!(rt; write(alloc, &nested(alloc, 7)?).is_ok());
    assert!(rt; is_refused(write(alloc, &nested(alloc, 8)?), ResbError::TooLarge));
    Ok(())
}

#[test]
fn writes_28_bits(rt: HostRuntime) -> Result<(), Fail> {
    let alloc = rt.alloc();
    let words = write(alloc, &Resource::Integer(268_435_455))?;
    assert!(rt; has_body(words.as_slice(), &[0x7fff_ffff, 7, 8, 8, 8, 0, 0, 8]));
    assert!(rt;
        is_refused(
            write(alloc, &Resource::Integer(268_435_456)),
            ResbError::TooLarge
        )
    );
    Ok(())
}

#[test]
fn writes_no_words_of_empty_resources(rt: HostRuntime) -> Result<(), Fail> {
    let alloc = rt.alloc();
    let words = write(alloc, &Resource::Text(Items::new(alloc)))?;
    assert!(rt; has_body(words.as_slice(), &[0, 7, 8, 8, 8, 0, 0, 8]));
    let words = write(alloc, &Resource::Bytes(Items::new(alloc)))?;
    assert!(rt; has_body(words.as_slice(), &[0x1000_0000, 7, 8, 8, 8, 0, 0, 8]));
    let words = write(alloc, &Resource::Table(Items::new(alloc)))?;
    assert!(rt; has_body(words.as_slice(), &[0x2000_0000, 7, 8, 8, 8, 0, 0, 8]));
    let words = write(alloc, &Resource::Array(Items::new(alloc)))?;
    assert!(rt; has_body(words.as_slice(), &[0x8000_0000, 7, 8, 8, 8, 0, 0, 8]));
    let words = write(alloc, &Resource::Integers(Items::new(alloc)))?;
    assert!(rt; has_body(words.as_slice(), &[0xe000_0000, 7, 8, 8, 8, 0, 0, 8]));
    Ok(())
}

#[test]
fn writes_texts_and_bytes(rt: HostRuntime) -> Result<(), Fail> {
    let alloc = rt.alloc();
    // an even count of units wants a word for the zero unit
    let words = write(alloc, &text(alloc, &[72, 105])?)?;
    assert!(rt;
        has_body(
            words.as_slice(),
            &[8, 7, 8, 11, 11, 0, 0, 8, 2, 0x0069_0048, 0]
        )
    );
    let words = write(alloc, &text(alloc, &[48, 48, 49])?)?;
    assert!(rt;
        has_body(
            words.as_slice(),
            &[8, 7, 8, 11, 11, 0, 0, 8, 3, 0x0030_0030, 0x31]
        )
    );
    let bytes = Resource::Bytes(Items::from_slice(alloc, &[1, 2, 3, 4, 5])?);
    let words = write(alloc, &bytes)?;
    assert!(rt;
        has_body(
            words.as_slice(),
            &[0x1000_0008, 7, 8, 11, 11, 0, 0, 8, 5, 0x0403_0201, 5]
        )
    );
    Ok(())
}

#[test]
fn writes_tables(rt: HostRuntime) -> Result<(), Fail> {
    let alloc = rt.alloc();
    let words = write(alloc, &table(alloc, &[b"a"])?)?;
    let one = [
        0x2000_0009,
        7,
        9,
        11,
        11,
        1,
        0,
        9,
        0x61,
        0x0020_0001,
        0x7000_0005,
    ];
    assert!(rt; has_body(words.as_slice(), one.as_slice()));
    // with two entries a unit of padding follows the places
    let words = write(alloc, &table(alloc, &[b"a", b"b"])?)?;
    let two = [
        0x2000_0009,
        7,
        9,
        13,
        13,
        2,
        0,
        9,
        0x0062_0061,
        0x0020_0002,
        0x22,
        0x7000_0005,
        0x7000_0006,
    ];
    assert!(rt; has_body(words.as_slice(), two.as_slice()));
    // a key of two tables stands once
    let mut items = Items::new(alloc);
    items.push(table(alloc, &[b"a"])?)?;
    items.push(table(alloc, &[b"a"])?)?;
    let words = write(alloc, &Resource::Array(items))?;
    let both = [
        0x8000_000d,
        7,
        9,
        16,
        16,
        1,
        0,
        9,
        0x61,
        0x0020_0001,
        0x7000_0005,
        0x0020_0001,
        0x7000_0005,
        2,
        0x2000_0009,
        0x2000_000b,
    ];
    assert!(rt; has_body(words.as_slice(), both.as_slice()));
    Ok(())
}

#[test]
fn drafts_what_it_writes(rt: HostRuntime) -> Result<(), Fail> {
    let alloc = rt.alloc();
    let first = [84, 101, 115, 116, 47, 80, 108, 117, 115, 50];
    let words = drafted(alloc, &[first.as_slice()], &[7200])?;
    let tree = one_zone(alloc)?;
    assert_eq!(rt; words.as_slice(), write(alloc, &tree)?.as_slice());
    let second = [84, 101, 115, 116];
    let words = drafted(alloc, &[first.as_slice(), second.as_slice()], &[7200, 3600])?;
    let tree = read(alloc, words.as_slice())?;
    assert_eq!(rt; words.as_slice(), write(alloc, &tree)?.as_slice());
    Ok(())
}

#[test]
fn drafts_each_kind(rt: HostRuntime) -> Result<(), Fail> {
    let alloc = rt.alloc();
    let mut draft = Draft::new(alloc, &[])?;
    draft.bytes(&[1, 2, 3, 4, 5])?;
    draft.integer(268_435_455)?;
    draft.array(0)?;
    draft.array(3)?;
    let mut items = Items::new(alloc);
    items.push(Resource::Bytes(Items::from_slice(alloc, &[1, 2, 3, 4, 5])?))?;
    items.push(Resource::Integer(268_435_455))?;
    items.push(Resource::Array(Items::new(alloc)))?;
    let words = write(alloc, &Resource::Array(items))?;
    assert_eq!(rt; draft.write()?.as_slice(), words.as_slice());
    Ok(())
}

/// What comes of a table of two integers under these keys, which are the draft's too.
fn drafted_table(alloc: Global, keys: &[&[u8]]) -> Result<Vec<u32>, ResbError> {
    let mut draft = Draft::new(alloc, keys)?;
    draft.integer(5)?;
    draft.integer(6)?;
    draft.table(keys)?;
    draft.write()
}

/// What comes of an empty array inside so many arrays.
fn drafted_arrays(alloc: Global, arrays: u8) -> Result<Vec<u32>, ResbError> {
    let mut draft = Draft::new(alloc, &[])?;
    draft.array(0)?;
    for _ in 0..arrays {
        draft.array(1)?;
    }
    draft.write()
}

#[test]
fn drafts_refuse(rt: HostRuntime) -> Result<(), Fail> {
    let alloc = rt.alloc();
    assert!(rt; drafted_table(alloc, &[b"a", b"b"]).is_ok());
    assert!(rt; is_refused(drafted_table(alloc, &[b"a", b"a"]), ResbError::BadKey));
    assert!(rt; is_refused(drafted_table(alloc, &[b"a", &[128]]), ResbError::BadKey));
    assert!(rt; is_refused(drafted_table(alloc, &[b"a"]), ResbError::NoTree));
    assert!(rt; drafted_arrays(alloc, 7).is_ok());
    assert!(rt; is_refused(drafted_arrays(alloc, 8), ResbError::TooLarge));
    let mut draft = Draft::new(alloc, &[b"a"])?;
    draft.integer(5)?;
    assert!(rt; draft.table(&[b"b"]).is_err());
    Ok(())
}
