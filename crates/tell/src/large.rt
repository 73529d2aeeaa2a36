//! A large input, made from a number: a bundle of that many zones, and a line for each.
ghost use Rattle.std.specs.Prelude.{◌≡◌, ℕ, List, ◌+◌, ◌/◌, ◌%◌, ◌<◌, ◌++◌, ◌∷◌, [], codes, Some, IfOk, OnOk, vec_len, vec_capacity, ◌≤◌};
ghost use Rattle.resb_tree.specs.declared.resource.Resource.TheVariants as r;
ghost use Rattle.resb_tree.specs.Header.{tree_of};
ghost use Rattle.resb_tree.specs.declared.resource.Resource.{Resource};
ghost use Rattle.resb.specs.DraftRows.{Holds};
ghost use Rattle.resb.specs.TreeKeys.{key_pool};
ghost use Rattle.tell.specs.BundleZones.{words_of};
ghost use Rattle.tell.specs.LoadZones.{up_to, zone_name, load_offset};
ghost use Rattle.tell.specs.Load.{load_phrase, load_line, load_input};
ghost use Rattle.tell.specs.Inside.LoadTree.{zone_tree, name_tree, region_tree, load_tree};

use resb::laws::walks_meet_keys;
use resb::{Draft, ResbError};
use std::alloc::{AllocError, Global};

// The most bytes of a line with its LF.
const LINE: usize = 42;

// One digit of a number, as a character.
#[inline(always)]
fn digit(number: u32, place: u32) -> u8
    requires { 0 < place }
    ensures { result ≡ 48 + number / place % 10 }
{
    b'0' + (number / place % 10) as u8
}

/// The name of a zone: `Load/` and its number in five digits.
fn zone_name(number: u32) -> [u8; 10]
    ensures { result ≡ zone_name number }
{
    [
        b'L',
        b'o',
        b'a',
        b'd',
        b'/',
        digit(number, 10_000),
        digit(number, 1000),
        digit(number, 100),
        digit(number, 10),
        digit(number, 1),
    ]
}

// The offset of a zone, in seconds east of Greenwich.
fn offset(number: u32) -> i32
    ensures { result ≡ load_offset number }
{
    900 * (number % 97) as i32 - 43_200
}

// The name of a zone as UTF-16 units.
fn name_units(number: u32) -> [u16; 10]
    ensures { result ≡ zone_name number }
{
    [
        u16::from(b'L'),
        u16::from(b'o'),
        u16::from(b'a'),
        u16::from(b'd'),
        u16::from(b'/'),
        u16::from(digit(number, 10_000)),
        u16::from(digit(number, 1000)),
        u16::from(digit(number, 100)),
        u16::from(digit(number, 10)),
        u16::from(digit(number, 1)),
    ]
}

// A draft with the keys of the bundle of that many zones.
fn begun(alloc: Global, count: u32) -> Result<Draft<'static>, ResbError>
    ensures { IfOk result (λ draft. Holds draft (key_pool (load_tree count)) []) }
{
    walks_meet_keys();
    if count == 0 {
        return Draft::new(alloc, &[b"Zones", b"Names", b"Rules", b"Regions"]);
    }
    let keys: [&[u8]; 5] = [b"Zones", b"typeOffsets", b"Names", b"Rules", b"Regions"];
    Draft::new(alloc, &keys)
}

// Tells a zone whose one offset holds at all seconds.
fn tell_zone(draft: &mut Draft<'_>, number: u32) -> Result<(), ResbError>
    ensures { OnOk result ((keys : List (List ℕ)) (row : List Resource)
        → Holds draft.old keys row → Holds draft.new keys (row ++ zone_tree number ∷ [])) }
{
    draft.integers(&[offset(number).cast_unsigned(), 0])?;
    draft.table(&[b"typeOffsets"])?;
    Ok(())
}

fn tell_zones(draft: &mut Draft<'_>, count: u32) -> Result<(), ResbError>
    ensures { OnOk result ((keys : List (List ℕ)) (row : List Resource) → Holds draft.old keys row
        → Holds draft.new keys (row ++ r.Array (up_to zone_tree count) ∷ [])) }
{
    for number in 0..count {
        tell_zone(draft, number + 1)?;
    }
    draft.array(count as usize)?;
    Ok(())
}

fn tell_names(draft: &mut Draft<'_>, count: u32) -> Result<(), ResbError>
    ensures { OnOk result ((keys : List (List ℕ)) (row : List Resource) → Holds draft.old keys row
        → Holds draft.new keys (row ++ r.Array (up_to name_tree count) ∷ [])) }
{
    for number in 0..count {
        let name = name_units(number + 1);
        draft.text(&name)?;
    }
    draft.array(count as usize)?;
    Ok(())
}

fn tell_regions(draft: &mut Draft<'_>, count: u32) -> Result<(), ResbError>
    ensures { OnOk result ((keys : List (List ℕ)) (row : List Resource) → Holds draft.old keys row
        → Holds draft.new keys (row ++ r.Array (up_to region_tree count) ∷ [])) }
{
    for _number in 0..count {
        draft.text(&[48, 48, 49])?;
    }
    draft.array(count as usize)?;
    Ok(())
}

// The words of a bundle of that many zones.
fn words(alloc: Global, count: u32) -> Result<Vec<u32>, ResbError>
    ensures { IfOk result (λ words. tree_of words.items ≡ Some (load_tree count)) }
{
    let mut draft = begun(alloc, count)?;
    tell_zones(&mut draft, count)?;
    tell_names(&mut draft, count)?;
    draft.table(&[])?;
    tell_regions(&mut draft, count)?;
    draft.table(&[b"Zones", b"Names", b"Rules", b"Regions"])?;
    draft.write()
}

// Appends the bytes of a word, the low byte first, where there is room for them.
#[inline(always)]
fn push_word(bytes: &mut Vec<u8>, word: u32)
    requires { vec_len bytes.old + 4 ≤ vec_capacity bytes.old }
    ensures items { bytes.new.items ≡ bytes.old.items
        ++ (word % 256 ∷ word / 256 % 256 ∷ word / 65536 % 256 ∷ word / 16777216 ∷ []) }
    ensures len { vec_len bytes.new ≡ vec_len bytes.old + 4 }
    ensures capacity { vec_capacity bytes.new ≡ vec_capacity bytes.old }
{
    bytes.push_reserved((word % 256) as u8);
    bytes.push_reserved((word / 256 % 256) as u8);
    bytes.push_reserved((word / 65_536 % 256) as u8);
    bytes.push_reserved((word / 16_777_216) as u8);
}

// The bytes of words, the low byte first, of which a bundle has 1,048,576 at most.
fn bytes_of(alloc: Global, words: &[u32]) -> Result<Vec<u8>, AllocError>
    ensures { IfOk result (λ bytes. words_of bytes.items ≡ words.now) }
{
    let count = words.len();
    if count > 1_048_576 {
        return Err(AllocError);
    }
    let mut bytes = Vec::with_capacity(alloc, 4 * count)?;
    for word in words {
        push_word(&mut bytes, *word);
    }
    Ok(bytes)
}

/// The bytes of a bundle of that many zones.
pub fn bundle(alloc: Global, count: u32) -> Result<Vec<u8>, AllocError>
    ensures { IfOk result (λ bytes. tree_of (words_of bytes.items) ≡ Some (load_tree count)) }
{
    match words(alloc, count) {
        Ok(words) => bytes_of(alloc, &words),
        Err(_) => Err(AllocError),
    }
}

// The phrase of a line.
fn phrase(number: u32) -> &'static [u8]
    ensures { result.now ≡ load_phrase number }
{
    match number % 4 {
        0 => b"2018-03-23 20:00",
        1 => b"2 days ago",
        2 => b"friday 8pm",
        _ => b"next 5:00",
    }
}

// Appends a line and its LF.
fn push_line(input: &mut Vec<u8>, number: u32) -> Result<(), AllocError>
    ensures { OnOk result (input.new.items ≡ input.old.items ++ (load_line number ++ 10 ∷ [])) }
{
    input.extend_from_slice(&zone_name(number))?;
    input.extend_from_slice(b"\t1521622800\tuk\t")?;
    input.extend_from_slice(phrase(number))?;
    input.push(b'\n')?;
    Ok(())
}

/// The lines for that many zones.
pub fn input(alloc: Global, count: u32) -> Result<Vec<u8>, AllocError>
    ensures { IfOk result (λ bytes. bytes.items ≡ load_input count) }
{
    let mut input = Vec::with_capacity(alloc, LINE * count as usize)?;
    for number in 0..count {
        push_line(&mut input, number + 1)?;
    }
    Ok(input)
}
