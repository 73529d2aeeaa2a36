//! The words of bundles: those that are written, those that are read, and what is no bundle.
use crate::bundles::words_of;
use crate::runs::{EN, bytes_of, ran_over, written};
use crate::trees::{Value, root, table, tree};
use crate::{aliased, one_zone, three_zones, unlawful_zones};
use resb::{Key, ResbError, Resource, read, write};
use sqlite_items::Items;
use std::alloc::{AllocError, Global};
use std::test::Fail;
use tell::Status;

/// The words of the zone `Test/Plus2`, which are also those of the bundle that the stored run of the program reads.
const PLUS2: [u32; 52] = [
    0x27da_0018,
    0x0000_0014,
    0x0002_0000,
    0x4273_6552,
    0x0000_0002,
    0x0000_0000,
    0x2000_0027,
    0x0000_0007,
    0x0000_0012,
    0x0000_002e,
    0x0000_002e,
    0x0000_0004,
    0x0000_0000,
    0x0000_0012,
    0x656e_6f5a,
    0x7974_0073,
    0x664f_6570,
    0x7465_7366,
    0x614e_0073,
    0x0073_656d,
    0x656c_7552,
    0x6552_0073,
    0x6e6f_6967,
    0x0000_0073,
    0x0000_0002,
    0x0000_1c20,
    0x0000_0000,
    0x0026_0001,
    0xe000_0012,
    0x0000_0001,
    0x2000_0015,
    0x0000_000a,
    0x0065_0054,
    0x0074_0073,
    0x0050_002f,
    0x0075_006c,
    0x0032_0073,
    0x0000_0000,
    0x0000_0001,
    0x0000_0019,
    0x0000_0003,
    0x0030_0030,
    0x0000_0031,
    0x0000_0001,
    0x0000_0022,
    0x0020_0004,
    0x0038_0032,
    0x0000_003e,
    0x8000_0017,
    0x8000_0020,
    0x2000_0000,
    0x8000_0025,
];

/// The words of three zones of one offset each, as `bench/many_zones.py` lays them out by the rules of the writer.
const THREE_FIXED: [u32; 88] = [
    0x27da_0018,
    0x0000_0014,
    0x0002_0000,
    0x4273_6552,
    0x0000_0002,
    0x0000_0000,
    0x2000_004b,
    0x0000_0007,
    0x0000_0012,
    0x0000_0052,
    0x0000_0052,
    0x0000_0004,
    0x0000_0000,
    0x0000_0012,
    0x656e_6f5a,
    0x7974_0073,
    0x664f_6570,
    0x7465_7366,
    0x614e_0073,
    0x0073_656d,
    0x656c_7552,
    0x6552_0073,
    0x6e6f_6967,
    0x0000_0073,
    0x0000_0002,
    0xffff_5740,
    0x0000_0000,
    0x0026_0001,
    0xe000_0012,
    0x0000_0002,
    0xffff_5ac4,
    0x0000_0000,
    0x0026_0001,
    0xe000_0017,
    0x0000_0002,
    0xffff_5e48,
    0x0000_0000,
    0x0026_0001,
    0xe000_001c,
    0x0000_0003,
    0x2000_0015,
    0x2000_001a,
    0x2000_001f,
    0x0000_000a,
    0x0065_0054,
    0x0074_0073,
    0x0030_002f,
    0x0030_0030,
    0x0030_0030,
    0x0000_0000,
    0x0000_000a,
    0x0065_0054,
    0x0074_0073,
    0x0030_002f,
    0x0030_0030,
    0x0031_0030,
    0x0000_0000,
    0x0000_000a,
    0x0065_0054,
    0x0074_0073,
    0x0030_002f,
    0x0030_0030,
    0x0032_0030,
    0x0000_0000,
    0x0000_0003,
    0x0000_0025,
    0x0000_002c,
    0x0000_0033,
    0x0000_0003,
    0x0030_0030,
    0x0000_0031,
    0x0000_0003,
    0x0030_0030,
    0x0000_0031,
    0x0000_0003,
    0x0030_0030,
    0x0000_0031,
    0x0000_0003,
    0x0000_003e,
    0x0000_0041,
    0x0000_0044,
    0x0020_0004,
    0x0038_0032,
    0x0000_003e,
    0x8000_0021,
    0x8000_003a,
    0x2000_0000,
    0x8000_0047,
];

// The words of `America/Los_Angeles`, `Test/Plus2` and `US/Pacific`.
const THREE_ZONES: [u32; 130] = [
    0x27da0018, 0x00000014, 0x00020000, 0x42736552, 0x00000002, 0x00000000, 0x20000075, 0x00000007,
    0x0000001d, 0x0000007c, 0x0000007c, 0x00000006, 0x00000000, 0x0000001d, 0x656e6f5a, 0x79740073,
    0x664f6570, 0x74657366, 0x72740073, 0x00736e61, 0x65707974, 0x0070614d, 0x616e6966, 0x6c75526c,
    0x69660065, 0x526c616e, 0x66007761, 0x6c616e69, 0x72616559, 0x6d614e00, 0x52007365, 0x73656c75,
    0x00535500, 0x69676552, 0x00736e6f, 0x00000004, 0xffff8f80, 0x00000000, 0xffff8f80, 0x00000e10,
    0x00000002, 0x45f3d320, 0x472d8a10, 0x00000002, 0x00000001, 0x00000002, 0x00530055, 0x00000000,
    0x00260006, 0x00380032, 0x004a0040, 0x00000053, 0xe000001d, 0xe0000022, 0x10000025, 0x00000027,
    0x7fff8f80, 0x700007d8, 0x00000002, 0x00001c20, 0x00000000, 0x00260001, 0xe0000034, 0x00000003,
    0x2000002a, 0x20000037, 0x70000000, 0x00000013, 0x006d0041, 0x00720065, 0x00630069, 0x002f0061,
    0x006f004c, 0x005f0073, 0x006e0041, 0x00650067, 0x0065006c, 0x00000073, 0x0000000a, 0x00650054,
    0x00740073, 0x0050002f, 0x0075006c, 0x00320073, 0x00000000, 0x0000000a, 0x00530055, 0x0050002f,
    0x00630061, 0x00660069, 0x00630069, 0x00000000, 0x00000003, 0x0000003d, 0x00000048, 0x0000004f,
    0x0000000b, 0x00000002, 0x00000008, 0xffffffff, 0x00001c20, 0x00000000, 0x0000000a, 0x00000001,
    0xffffffff, 0x00001c20, 0x00000000, 0x00000e10, 0x00690001, 0xe000005a, 0x00000002, 0x00530055,
    0x00000000, 0x00000003, 0x00300030, 0x00000031, 0x00000002, 0x00530055, 0x00000000, 0x00000003,
    0x00000068, 0x0000006b, 0x0000006e, 0x00200004, 0x0063005d, 0x0000006c, 0x80000039, 0x80000056,
    0x20000066, 0x80000071,
];

// The words of the two unlawful zones.
const UNLAWFUL: [u32; 124] = [
    0x27da0018, 0x00000014, 0x00020000, 0x42736552, 0x00000002, 0x00000000, 0x2000006f, 0x00000007,
    0x0000001c, 0x00000076, 0x00000076, 0x00000004, 0x00000000, 0x0000001c, 0x656e6f5a, 0x79740073,
    0x664f6570, 0x74657366, 0x69660073, 0x526c616e, 0x00656c75, 0x616e6966, 0x7761526c, 0x6e696600,
    0x65596c61, 0x4e007261, 0x73656d61, 0x6c755200, 0x45007365, 0x74686769, 0x756f4600, 0x65520072,
    0x6e6f6967, 0x00000073, 0x00000002, 0x00001c20, 0x00000000, 0x00000005, 0x00690045, 0x00680067,
    0x00000074, 0x00260004, 0x003c0032, 0x00000045, 0xe000001c, 0x0000001f, 0x70001c20, 0x700007d8,
    0x00000002, 0xffff8f80, 0x00000000, 0x00000004, 0x006f0046, 0x00720075, 0x00000000, 0x00260004,
    0x003c0032, 0x00000045, 0xe000002a, 0x0000002d, 0x7fff8f80, 0x700007d8, 0x00000002, 0x20000023,
    0x20000031, 0x00000009, 0x00610042, 0x002f0064, 0x00690045, 0x00680067, 0x00000074, 0x00000008,
    0x00610042, 0x002f0064, 0x006f0046, 0x00720075, 0x00000000, 0x00000002, 0x0000003b, 0x00000041,
    0x0000000b, 0x00000000, 0x00000001, 0x00000000, 0x00000e10, 0x00000000, 0x00000006, 0x00000001,
    0x00000000, 0x00001c20, 0x00000000, 0x00000e10, 0x0000000b, 0x00000002, 0x00000008, 0xffffffff,
    0x00001c20, 0x00000000, 0x00000002, 0x00000008, 0xffffffff, 0x00001c20, 0x00000000, 0x00000e10,
    0x005b0002, 0x00000061, 0xe000004a, 0xe0000056, 0x00000003, 0x00300030, 0x00000031, 0x00000003,
    0x00300030, 0x00000031, 0x00000002, 0x00000066, 0x00000069, 0x00200004, 0x0055004f, 0x00000066,
    0x80000038, 0x80000047, 0x20000062, 0x8000006c,
];

const LINE: &[u8] = b"Test/Plus2\t1521622800\tuk\t2018-03-23 20:00";

const ANSWER: &[u8] = b"1521828000\t0\t7200\t+\t2 days\n";

/// The tree of those three zones.
fn three_fixed(alloc: Global) -> Result<Resource, AllocError> {
    let mut zones = Items::new(alloc);
    let mut names = Items::new(alloc);
    let mut regions = Items::new(alloc);
    let rows = [
        ("Test/00000", -43_200),
        ("Test/00001", -42_300),
        ("Test/00002", -41_400),
    ];
    for (name, offset) in rows {
        let offsets = [offset, 0];
        zones.push(table(alloc, &[("typeOffsets", Value::Numbers(&offsets))])?)?;
        names.push(tree(alloc, Value::Ascii(name))?)?;
        regions.push(tree(alloc, Value::Ascii("001"))?)?;
    }
    root(alloc, zones, names, table(alloc, &[])?, regions)
}

#[test]
fn writes_words_by_the_rules(rt: HostRuntime) -> Result<(), Fail> {
    let alloc = rt.alloc();
    let words = words_of(alloc, &one_zone(alloc)?)?;
    assert_eq!(rt; words.as_slice(), PLUS2.as_slice());
    let tree = read(alloc, &words).ok().ok_or("one zone is read")?;
    assert_eq!(rt; words_of(alloc, &tree)?.as_slice(), PLUS2.as_slice());
    let samples: [(Resource, &[u32]); 3] = [
        (three_fixed(alloc)?, &THREE_FIXED),
        (three_zones(alloc)?, &THREE_ZONES),
        (unlawful_zones(alloc)?, &UNLAWFUL),
    ];
    for (tree, words) in samples {
        assert_eq!(rt; words_of(alloc, &tree)?.as_slice(), words);
    }
    Ok(())
}

#[test]
fn writes_no_key_twice(rt: HostRuntime) -> Result<(), Fail> {
    let alloc = rt.alloc();
    let mut entries = Items::new(alloc);
    for _ in 0..2 {
        entries.push((Key::from_slice(alloc, b"key")?, Resource::Integer(1)))?;
    }
    let table = Resource::Table(entries);
    assert_eq!(rt; write(alloc, &table).err(), Some(ResbError::BadKey));
    Ok(())
}

/// The words of the one zone with the word at a place replaced, and what is then left up to a length.
fn edited(alloc: Global, at: usize, word: u32, len: usize) -> Result<Vec<u8>, AllocError> {
    let mut words = Vec::new(alloc);
    for (i, old) in PLUS2.iter().enumerate() {
        if i < len {
            words.push(if i == at { word } else { *old })?;
        }
    }
    bytes_of(alloc, &words)
}

/// The bundle of one zone with a key besides, whose array has so many texts of weight 11 and integers of weight 1.
fn heavy(alloc: Global, texts: u8, integers: u8) -> Result<Vec<u8>, AllocError> {
    let items = u32::from(texts) + u32::from(integers);
    let root = 40 + items;
    let mut words = Vec::new(alloc);
    for (i, word) in PLUS2.iter().enumerate() {
        // the root item, and the ends of the resources and of the bundle
        if i == 6 {
            words.push(0x2000_0000 + root)?;
        } else if i == 9 || i == 10 {
            words.push(root + 8)?;
        } else if i < 45 {
            words.push(*word)?;
        }
    }
    words.push(items)?;
    for _ in 0..texts {
        words.push(0x0000_0019)?;
    }
    for _ in 0..integers {
        words.push(0x7000_0000)?;
    }
    let table = [
        0x0020_0005,
        0x0038_0032,
        0x0026_003e,
        0x8000_0017,
        0x8000_0020,
        0x2000_0000,
        0x8000_0025,
        0x8000_0027,
    ];
    for word in table {
        words.push(word)?;
    }
    bytes_of(alloc, &words)
}

/// The bundle of one zone with one or two keys besides, at the bytes 70 and 71 of its body, whose value is an array of one
/// item. The key bytes stand in a word behind the last letter of another key.
fn further(alloc: Global, key_word: u32, two: bool, item: u32) -> Result<Vec<u8>, AllocError> {
    let (end, table): (u32, &[u32]) = if two {
        (51, &[0x0020_0006, 0x0038_0032, 0x0046_003e, 0x0000_0047])
    } else {
        (49, &[0x0020_0005, 0x0038_0032, 0x0046_003e])
    };
    let mut words = Vec::new(alloc);
    for (i, word) in PLUS2.iter().enumerate() {
        // the root item, the ends of the resources and of the bundle, and the keys
        match i {
            6 => words.push(0x2000_0029)?,
            9 | 10 => words.push(end)?,
            23 => words.push(key_word)?,
            45.. => {}
            _ => words.push(*word)?,
        }
    }
    words.push(1)?;
    words.push(item)?;
    words.extend_from_slice(table)?;
    words.extend_from_slice(&[0x8000_0017, 0x8000_0020, 0x2000_0000, 0x8000_0025])?;
    words.push(0x8000_0027)?;
    if two {
        words.push(0x8000_0027)?;
    }
    bytes_of(alloc, &words)
}

/// The bundle of one zone with zeros behind it, so many bytes in all.
fn long(alloc: Global, len: usize) -> Result<Vec<u8>, AllocError> {
    let mut bytes = bytes_of(alloc, &PLUS2)?;
    for _ in 208..len {
        bytes.push(0)?;
    }
    Ok(bytes)
}

/// A run of `at en` over a bundle and one line: how it ended, and what was written.
fn answered(alloc: Global, bundle: Vec<u8>) -> Result<(Status, Vec<u8>), AllocError> {
    ran_over(alloc, &EN, bundle, LINE)
}

// Places of words, the words that stand there instead, and how many words are left: none of these is a bundle.
const EDITS: [(usize, u32, usize); 7] = [
    // no word, and the last one missing
    (0, 0, 0),
    (52, 0, 51),
    // a header size of 0, and one past the end
    (0, 0x27da_0000, 52),
    (0, 0x27da_00d4, 52),
    // the integers' count reaches past the words
    (24, 28, 52),
    // names that are no array, and a zone that is an integer
    (49, 0x7000_0000, 52),
    (30, 0x7000_0000, 52),
];

// A key byte of 128, two equal keys, and an array that holds itself, each under a key that is not looked up.
const FURTHER: [(u32, bool, u32); 3] = [
    (0x0080_0073, false, 0x7000_0000),
    (0x0000_0073, true, 0x7000_0000),
    (0x0000_0073, false, 0x8000_0027),
];

#[test]
fn refuses_other_bundles(rt: HostRuntime) -> Result<(), Fail> {
    let alloc = rt.alloc();
    for (at, word, len) in EDITS {
        let (status, text) = answered(alloc, edited(alloc, at, word, len)?)?;
        assert_eq!(rt; status, Status::Bundle, "{word} at {at}");
        assert_eq!(rt; text.len(), 0);
    }
    for (key, two, item) in FURTHER {
        let (status, text) = answered(alloc, further(alloc, key, two, item)?)?;
        assert_eq!(rt; status, Status::Bundle, "{key} and {item}");
        assert_eq!(rt; text.len(), 0);
    }
    // a part of a word, and a word too many
    for len in [209, 4_194_308] {
        let (status, text) = answered(alloc, long(alloc, len)?)?;
        assert_eq!(rt; status, Status::Bundle, "{len} bytes");
        assert_eq!(rt; text.len(), 0);
    }
    // a weight past the limit, an alias of itself, and one of no zone
    for bundle in [
        heavy(alloc, 126, 2)?,
        written(alloc, &aliased(alloc, 2)?)?,
        written(alloc, &aliased(alloc, 3)?)?,
    ] {
        let (status, text) = answered(alloc, bundle)?;
        assert_eq!(rt; status, Status::Bundle);
        assert_eq!(rt; text.len(), 0);
    }
    Ok(())
}

#[test]
fn takes_bundles_at_the_limits(rt: HostRuntime) -> Result<(), Fail> {
    let alloc = rt.alloc();
    for bundle in [
        heavy(alloc, 121, 0)?,
        long(alloc, 4_194_304)?,
        further(alloc, 0x0000_0073, false, 0x7000_0000)?,
        further(alloc, 0x0041_0073, true, 0x7000_0000)?,
    ] {
        let (status, text) = answered(alloc, bundle)?;
        assert_eq!(rt; status, Status::Done);
        assert_eq!(rt; text.as_slice(), ANSWER);
    }
    Ok(())
}
